// One command to its end, and the rows that are shown on the way, in a lent row.
ghost use Rattle.std.specs.Prelude.{◌≡◌, ◌+◌, ◌<◌, ◌++◌, length, take, MatchOption};
ghost use Rattle.reader.specs.Running.{AnswersAsItMay, AnswersIfRoom, RunsToItsEnd, StartsWithNothing, NoRow, refusal_number, row_told};
ghost use Rattle.reader.specs.Refusals.{refusal_code};

use super::{Told, sizes_fit, step};
use crate::refusal::Refusal;

/// How a command ended: done, or what it was refused with; and how many numbers of the lent row are used.
#[derive(Clone, Copy, Debug, PartialEq, Eq)]
pub struct Ended {
    pub refused: Option<Refusal>,
    pub used: usize,
}

/// Whether a command may be refused so: sizes that do not fit are no command's.
fn is_answer(refusal: Refusal) -> bool
    ensures { result ≡ refusal_number (refusal_code refusal) }
{
    refusal != Refusal::Sizes
}

/// A row is written behind those that stand there, its length before it.
fn put_row(shown: &mut [u64], at: usize, row: &[u64])
    requires { at + length row.now < length shown.old }
    ensures { take (at + (length row.now + 1)) shown.new ≡ take at shown.old ++ row_told row.now }
{
    shown[at] = row.len() as u64;
    shown[at + 1..at + 1 + row.len()].copy_from_slice(row);
}

/// One command, to its end, answered as it may be. Each row that is shown stands in `shown`, its length before it. None if a size does not fit, or if
/// `shown` has no room for a row: the command is not at its end then.
pub fn run(memory: &mut [u64], text: &[u8], shown: &mut [u64]) -> Option<Ended>
    ensures ran { RunsToItsEnd memory.old text.now result memory.new shown.new }
    ensures allowed { AnswersAsItMay memory.old text.now result memory.new shown.new }
    ensures room { AnswersIfRoom memory.old text.now result (length shown.old) }
{
    let mut out = [0u64; 32];
    // as the entry has it: 0 says the row of bytes, 1 goes on
    let mut kind = 0;
    // of the lent row; no Vec, since there is no heap below the programs
    let mut used = 0;
    if !sizes_fit(memory.len(), kind, text.len(), out.len()) {
        return None;
    }
    'turn: loop {
        match step(memory, kind, text, &mut out) {
            Told::Done => {
                return Some(Ended {
                    refused: None,
                    used,
                });
            }
            Told::No(refusal) => {
                if !is_answer(refusal) {
                    return None;
                }
                return Some(Ended {
                    refused: Some(refusal),
                    used,
                });
            }
            Told::Shows(n) => {
                let many = n as usize;
                if many >= shown.len() - used {
                    return None;
                }
                put_row(shown, used, &out[0..many]);
                used += many + 1;
                kind = 1;
            }
        }
    }
}

/// The first of the rows that `run` has written, and what is behind it; None where none stands.
pub fn first_row(shown: &[u64]) -> Option<(&[u64], &[u64])>
    ensures { MatchOption result (NoRow shown.now) (λ x. shown.now ≡ row_told x.0.now ++ x.1.now) }
{
    let [many, behind @ ..] = shown else {
        return None;
    };
    behind.split_at_checked(*many as usize)
}

/// In the memory that the machine starts with nothing is loaded: so what is said of the first command holds, and of each after it.
pub fn starts_with_nothing_stands() -> u8
    ensures { StartsWithNothing }
{
    0
}
