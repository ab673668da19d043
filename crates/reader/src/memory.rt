// The machine's memory: the spelling of the grammar that is loaded, the phase, and the text that is told.
ghost use Rattle.std.specs.Prelude.{◌≡◌, ◌<◌, ◌≤◌, length};
ghost use Rattle.grammar.specs.Grammar.{each};
ghost use Rattle.reader.specs.Memory.{low_byte, over, with_spelling, with_text};
ghost use Rattle.reader.specs.Phases.{PhaseOf, phase_code};
ghost use Rattle.reader.specs.Tables.{LoadedGrammar};

use crate::refusal::Refusal;
use grammar::prepared::Prepared;
use grammar::table;
use std::array;

/// The word that says what the machine is at.
pub const PHASE: usize = 258;
/// How many symbols stand on the stack, whose words are fixed.
pub const HEIGHT: usize = 259;
/// How many signs are taken.
pub const TAKEN: usize = 260;
/// How many signs the text has, and word 0 how many bytes the spelling: the memory is fixed.
pub const COUNT: usize = 261;
/// The text begins here.
pub const TEXT: usize = 262;
/// And ends before here.
pub const TEXT_END: usize = 4358;

/// What the machine is at.
#[derive(Clone, Copy, Debug, PartialEq, Eq, Hash)]
pub enum Phase {
    Idle,
    /// A text is told.
    Telling,
    /// All of a text was told.
    Told,
    /// What was shown last is refused.
    Refused(Refusal),
}

impl From<Phase> for u64 {
    ghost from_gives = { λ phase word. word ≡ phase_code phase };

    fn from(phase: Phase) -> u64 {
        match phase {
            Phase::Idle => 0,
            Phase::Telling => 1,
            Phase::Told => 2,
            Phase::Refused(refusal) => u64::from(refusal),
        }
    }
}

impl From<u64> for Phase {
    ghost from_gives = { PhaseOf };

    fn from(word: u64) -> Phase {
        match word {
            1 => Phase::Telling,
            2 => Phase::Told,
            // not any number of a refusal: only what was shown is refused when it is told to go on
            4 => Phase::Refused(Refusal::NoText),
            5 => Phase::Refused(Refusal::Clash),
            6 => Phase::Refused(Refusal::Useless),
            _ => Phase::Idle,
        }
    }
}

/// The bytes written over the beginning of the words.
fn write_over(words: &mut [u64], bytes: &[u8])
    requires { length bytes.now ≤ length words.old }
    ensures { words.new ≡ over bytes.now words.old }
{
    // by index: after `words.iter_mut().zip(bytes)` a proof knows no element
    for (i, byte) in bytes.iter().enumerate() {
        words[i] = u64::from(*byte);
    }
}

/// The low bytes of the words.
pub fn low_bytes<const N: usize>(words: &[u64]) -> [u8; N]
    requires { length words.now ≡ N }
    ensures { result ≡ each low_byte words.now }
{
    array::from_fn(|i| (words[i] & 255) as u8)
}

/// The grammar of this spelling is the one from then on.
// how long the memory is, here and below: a lent slice carries no length, and `step` has tested it
pub fn keep(memory: &mut [u64], spelling: &[u8])
    requires { (258 < length memory.old) × (length spelling.now ≤ 257) }
    ensures { memory.new ≡ with_spelling spelling.now memory.old }
{
    memory[0] = spelling.len() as u64;
    write_over(&mut memory[1..PHASE], spelling);
}

/// The grammar that is loaded.
pub fn loaded(memory: &[u64]) -> Option<Prepared>
    requires { 258 < length memory.now }
    ensures { LoadedGrammar memory.now result }
{
    let bytes: [u8; 257] = low_bytes(&memory[1..PHASE]);
    let many = memory[0].min(257) as usize;
    table::read(&bytes[..many]).map(Prepared::new)
}

/// The text is to be told from its beginning.
pub fn store_text(memory: &mut [u64], signs: &[u8])
    requires { (4358 ≤ length memory.old) × (length signs.now ≤ 4096) }
    ensures { memory.new ≡ with_text signs.now memory.old }
{
    memory[PHASE] = u64::from(Phase::Telling);
    memory[HEIGHT] = 0;
    memory[TAKEN] = 0;
    memory[COUNT] = signs.len() as u64;
    write_over(&mut memory[TEXT..TEXT_END], signs);
}
