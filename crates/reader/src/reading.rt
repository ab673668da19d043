// Reading: a text is run through silently, then told rule by rule as it is told to go on.
ghost use Rattle.std.specs.Prelude.{◌≡◌, ◌+◌, ◌≤◌, true, length, [], ◌∷◌, None};
ghost use Rattle.words.specs.Packed.{packed, unpacked};
ghost use Rattle.words.specs.Regions.{replaced};
ghost use Rattle.grammar.specs.Grammar.{Grammar};
ghost use Rattle.grammar.specs.Prepared.{Describes};
ghost use Rattle.parser.specs.Drive.{advance_of};
ghost use Rattle.parser.specs.Told.{advanced_by, config_of};
ghost use Rattle.reader.specs.Entry.{StepTold};
ghost use Rattle.reader.specs.House.{a_text};
ghost use Rattle.reader.specs.Laid.{layout_of};
ghost use Rattle.reader.specs.Machine.{goes_on, reads, tells};
ghost use Rattle.reader.specs.Memory.{cleared, loaded, stack_in};

use crate::memory::{
    COUNT, HEIGHT, PHASE, Phase, TAKEN, TEXT, TEXT_END, loaded, low_bytes, store_text,
};
use crate::refusal::Refusal;
use crate::regions::Regions;
use crate::{Told, refuses};
use grammar::prepared::Prepared;
use parser::advance::advance;
use parser::check::{Unread, check};
use parser::config::{State, resume};

/// On to the next rule that ends, with the stack's words lent from the memory.
fn advance_in(
    memory: &mut [u64],
    regions: Regions,
    state: &mut State,
    text: &[u8],
    grammar: &Prepared,
) -> Option<u8>
    requires { regions.work + (regions.fuel + regions.stack) ≤ length memory.old }
    ensures rule { (g : Grammar) → Describes grammar.now g → advance_of g text.now (config_of (stack_in (layout_of regions) memory.old) state.old) ≡ advanced_by result (config_of (stack_in (layout_of regions) memory.new) state.new) }
    ensures kept { memory.new ≡ replaced (regions.work + regions.fuel) regions.stack (packed (unpacked (stack_in (layout_of regions) memory.new))) memory.old }
    ensures cleared { result ≡ None → memory.new ≡ cleared (regions.work + regions.fuel) regions.stack memory.old }
{
    let lent = &mut memory[regions.stack_start()..regions.stack_end()];
    advance(lent, state, text, grammar)
}

/// On to the next rule that ends, which is shown; rule 0 is the last. The grammar is the one that is loaded.
fn tell(memory: &mut [u64], regions: Regions, grammar: &Prepared, out: &mut [u64]) -> Told
    requires lent { regions.work + (regions.fuel + regions.stack) ≤ length memory.old }
    requires room { 32 ≤ length out.old }
    ensures { (g : Grammar) → loaded memory.old ≡ g ∷ [] → Describes grammar.now g → StepTold (tells (layout_of regions) memory.old) result out.old memory.new out.new }
{
    let text: [u8; 4096] = low_bytes(&memory[TEXT..TEXT_END]);
    let many = memory[COUNT].min(4096) as usize;
    let mut state = resume(
        &memory[regions.stack_start()..regions.stack_end()],
        memory[HEIGHT] as usize,
        memory[TAKEN] as usize,
        grammar,
    );
    let Some(rule) = advance_in(memory, regions, &mut state, &text[..many], grammar) else {
        memory[PHASE] = u64::from(Phase::Idle);
        return Told::No(Refusal::NoText);
    };
    let phase = if rule == 0 {
        Phase::Told
    } else {
        Phase::Telling
    };
    memory[PHASE] = u64::from(phase);
    memory[HEIGHT] = state.height as u64;
    memory[TAKEN] = state.taken as u64;
    out[0] = u64::from(rule);
    Told::Shows(1)
}

/// The text is run through silently, and told if it is accepted; else the first wrong place is shown.
pub fn read(memory: &mut [u64], regions: Regions, signs: &[u8], out: &mut [u64]) -> Told
    requires text { a_text signs.now ≡ true }
    requires lent { regions.work + (regions.fuel + regions.stack) ≤ length memory.old }
    requires room { 32 ≤ length out.old }
    ensures { StepTold (reads (layout_of regions) memory.old signs.now) result out.old memory.new out.new }
{
    let Some(grammar) = loaded(memory) else {
        return Told::No(Refusal::NoGrammar);
    };
    let lent = &mut memory[regions.work..regions.stack_end()];
    match check(lent, regions.fuel, signs, &grammar) {
        Ok(()) => {
            store_text(memory, signs);
            tell(memory, regions, &grammar, out)
        }
        Err(Unread::Wrong(place)) => refuses(memory, Refusal::NoText, &[place], out),
        Err(Unread::GaveOut) => Told::No(Refusal::NoText),
    }
}

/// Told to go on: a text is told further, or what was shown last is refused.
pub fn go_on(memory: &mut [u64], regions: Regions, out: &mut [u64]) -> Told
    requires lent { regions.work + (regions.fuel + regions.stack) ≤ length memory.old }
    requires room { 32 ≤ length out.old }
    ensures { StepTold (goes_on (layout_of regions) memory.old) result out.old memory.new out.new }
{
    match Phase::from(memory[PHASE]) {
        Phase::Telling => {
            let Some(grammar) = loaded(memory) else {
                return Told::No(Refusal::NoGrammar);
            };
            tell(memory, regions, &grammar, out)
        }
        Phase::Told => {
            memory[PHASE] = u64::from(Phase::Idle);
            Told::Done
        }
        Phase::Refused(refusal) => {
            memory[PHASE] = u64::from(Phase::Idle);
            Told::No(refusal)
        }
        Phase::Idle => Told::No(Refusal::NoCommand),
    }
}
