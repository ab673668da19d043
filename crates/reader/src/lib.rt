// The reader: the entry that finds the last name, and one step of the whole machine.
#![tactic(auto)]

ghost use Rattle.std.specs.Prelude.{◌≡◌, ◌<◌, ◌≤◌, true, length};
ghost use Rattle.grammar.specs.Spelling.{grammar_of, grammar_ok};
ghost use Rattle.reader.specs.Entry.{PlaceSays, StepSays, StepTold, are_symbols, own, smaller, step_fits};
ghost use Rattle.reader.specs.House.{core};
ghost use Rattle.reader.specs.Laid.{layout_of};
ghost use Rattle.reader.specs.Machine.{loads, refuses, sizes_fit};
ghost use Rattle.reader.specs.Promise.{SpelledOnce, Whole};
ghost use Rattle.reader.specs.Refusals.{refusal_code};

use commands::{Request, decode};
use conflicts::clashes::find_clash;
use grammar::analysis::useless;
use grammar::prepared::Prepared;
use grammar::spelling::is_symbol;
use grammar::table::{self, FIRST_NAME};
use memory::{PHASE, Phase, keep};
use refusal::Refusal;
use regions::Regions;

pub mod commands;
// proved, and not yet a command that `step` knows
mod expecting;
mod memory;
mod reading;
pub mod refusal;
mod regions;
pub mod run;

// What is shown for going on, in place of a rule.
const SHIFT: u8 = 64;

// How many words the machine's memory has.
pub const WORDS: usize = 524288;

#[derive(Clone, Copy, Debug, PartialEq, Eq)]
pub enum Told {
    // So many numbers, at the front of the row that is lent: as C has it, which has no slices in an answer.
    Shows(u64),
    Done,
    No(Refusal),
}

// one chain, as grammar has it of right sides
fn all_symbols(symbols: &[u8]) -> bool
    ensures { result ≡ are_symbols symbols.now }
{
    symbols.iter().all(|b| is_symbol(*b))
}

// The place of the last name in a row of symbols.
pub fn last_name(symbols: &[u8]) -> Result<Option<u64>, Refusal>
    ensures { PlaceSays symbols.now (are_symbols symbols.now) result }
{
    if !all_symbols(symbols) {
        return Err(Refusal::NoCommand);
    }
    Ok(
        symbols
            .iter()
            // by the byte: that it is a symbol's is known here
            .rposition(|s| *s >= FIRST_NAME)
            .map(|place| place as u64),
    )
}

// The sizes that a step is taken for.
fn sizes_fit(memory: usize, kind: u64, text: usize, out: usize) -> bool
    ensures { result ≡ sizes_fit memory kind text out }
{
    memory == WORDS && kind <= 1 && text <= 4097 && out >= 32
}

// A row is shown, and what it is refused with is said when it is told to go on.
// The memory and the row are parameters of each function here, and no struct of two lent slices: they are what `step` is lent, and what contracts speak of. How
// long they are is asked of each, since `step` has tested it and `&mut` slices carry no length.
fn refuses(memory: &mut [u64], refusal: Refusal, row: &[u64], out: &mut [u64]) -> Told
    requires phase { 258 < length memory.old }
    requires room { length row.now ≤ length out.old }
    ensures { StepTold (refuses memory.old (refusal_code refusal) row.now) result out.old memory.new out.new }
{
    memory[PHASE] = u64::from(Phase::Refused(refusal));
    out[..row.len()].copy_from_slice(row);
    Told::Shows(row.len() as u64)
}

// A name of no use is shown, or a clash; else the grammar is the one from then on. The pairs' words are lent from the memory.
fn load(memory: &mut [u64], regions: Regions, spelling: &[u8], out: &mut [u64]) -> Told
    requires grammar { grammar_ok spelling.now ≡ true }
    requires long { length memory.old ≡ regions.words }
    requires room { 32 ≤ length out.old }
    ensures { StepTold (loads regions.pairs regions.pair_words memory.old (grammar_of spelling.now)) result out.old memory.new out.new }
{
    let Some(table) = table::read(spelling) else {
        return Told::No(Refusal::NoCommand);
    };
    if let Some(name) = useless(&table) {
        return refuses(memory, Refusal::Useless, &[u64::from(name)], out);
    }
    let grammar = Prepared::new(table);
    let lent = &mut memory[regions.pairs..regions.pairs + regions.pair_words];
    if let Some(clash) = find_clash(lent, &grammar) {
        let row = [
            u64::from(clash.due),
            u64::from(clash.other.unwrap_or(SHIFT)),
            u64::from(clash.ahead),
        ];
        return refuses(memory, Refusal::Clash, &row, out);
    }
    keep(memory, spelling);
    memory[PHASE] = u64::from(Phase::Idle);
    Told::Done
}

// One step of the machine: kind 0 is a row of bytes that is said, 1 is to go on. It takes the machine's own step, and of that machine the main promise
// stands: for whatever rows of bytes come, each is answered as it may be.
// The kind stays a number, and rows stay slices: this is the entry for C, and a narrower type would ask more of callers. What is shown stays a slice below
// too: after a call with a `&mut [u64; 32]` a proof does not know that it is 32 long.
pub fn step(memory: &mut [u64], kind: u64, text: &[u8], out: &mut [u64]) -> Told
    ensures says { StepSays memory.old kind text.now out.old (step_fits memory.old kind text.now out.old) result memory.new out.new }
    ensures whole { Whole core own }
{
    if !sizes_fit(memory.len(), kind, text.len(), out.len()) {
        return Told::No(Refusal::Sizes);
    }
    let regions = Regions::own();
    if kind == 1 {
        return reading::go_on(memory, regions, out);
    }
    let Some(request) = decode(text) else {
        return Told::No(Refusal::NoCommand);
    };
    match request {
        Request::Load(spelling) => load(memory, regions, spelling, out),
        Request::Read(signs) => reading::read(memory, regions, signs, out),
        Request::Next(_) => Told::No(Refusal::Unknown),
    }
}

// The main promise, of the machine that `step` takes the steps of.
pub fn whole_stands() -> u8
    ensures { Whole core own }
{
    0
}

// No two commands are spelled alike.
pub fn spelled_once_stands() -> u8
    ensures { SpelledOnce }
{
    0
}

// The smaller of two counts.
pub fn smaller_of(a: u64, b: u64) -> u64
    ensures { result ≡ smaller a b }
{
    a.min(b)
}
