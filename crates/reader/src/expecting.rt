// What may come next: a text is run through silently, and the signs that may come behind it are shown.
ghost use Rattle.std.specs.Prelude.{◌≡◌, ◌+◌, ◌≤◌, true, length};
ghost use Rattle.parser.specs.Told.{signs_in};
ghost use Rattle.reader.specs.Entry.{StepTold};
ghost use Rattle.reader.specs.House.{a_text};
ghost use Rattle.reader.specs.Laid.{layout_of};
ghost use Rattle.reader.specs.Machine.{expects};
ghost use Rattle.reader.specs.Memory.{over};

use crate::memory::{PHASE, Phase, loaded};
use crate::refusal::Refusal;
use crate::regions::Regions;
use crate::{Told, refuses};
use parser::check::Unread;
use parser::next::next_signs;
use words::bits::test;

/// The signs of a mask, and 24 for the end, rising, at the front of the lent row; and how many they are.
fn show_signs(mask: u64, out: &mut [u64]) -> u64
    requires { 25 ≤ length out.old }
    ensures row { out.new ≡ over (signs_in mask) out.old }
    ensures many { result ≡ length (signs_in mask) }
{
    // counted by hand: after a zip over `out.iter_mut()` a proof knows no element, and how many there are is the result
    let mut many = 0;
    'sign: for sign in 0..25u64 {
        if test(mask, sign) {
            out[many] = sign;
            many += 1;
        }
    }
    many as u64
}

/// The signs that may come behind the text are shown, or the first wrong place, if no text begins so.
pub fn expect(memory: &mut [u64], regions: Regions, signs: &[u8], out: &mut [u64]) -> Told
    requires text { a_text signs.now ≡ true }
    requires lent { regions.work + (regions.fuel + regions.stack) ≤ length memory.old }
    requires room { 32 ≤ length out.old }
    ensures { StepTold (expects (layout_of regions) memory.old signs.now) result out.old memory.new out.new }
{
    // as `read` begins, and as it is refused; what they do in between differs
    let Some(grammar) = loaded(memory) else {
        return Told::No(Refusal::NoGrammar);
    };
    let lent = &mut memory[regions.work..regions.stack_end()];
    match next_signs(lent, regions.fuel, signs, &grammar) {
        Ok(mask) => {
            memory[PHASE] = u64::from(Phase::Told);
            Told::Shows(show_signs(mask, out))
        }
        Err(Unread::Wrong(place)) => refuses(memory, Refusal::NoText, &[place], out),
        Err(Unread::GaveOut) => Told::No(Refusal::NoText),
    }
}
