// Where the words lie that a step works in.
ghost use Rattle.std.specs.Prelude.{◌≡◌, ◌+◌, ◌≤◌};

use crate::WORDS;

/// The countdown, the stack right behind it, and the pairs: none shares a word with what is kept between steps, and all are within the memory.
#[derive(Clone, Copy, Debug)]
pub struct Regions {
    /// How many words the memory has.
    pub words: usize,
    /// Where the countdown begins.
    pub work: usize,
    pub fuel: usize,
    pub stack: usize,
    /// Where the pairs begin.
    pub pairs: usize,
    pub pair_words: usize,
    ghost behind: { 4358 ≤ work },
    ghost apart: { work + (fuel + stack) ≤ pairs },
    ghost within: { pairs + pair_words ≤ words },
    ghost pairs_fit: { pair_words ≡ 36864 },
}

impl Regions {
    ghost use Rattle.reader.specs.Entry.{own_layout};
    ghost use Rattle.reader.specs.Laid.{layout_of};

    /// The machine's own.
    pub fn own() -> Regions
        ensures { layout_of result ≡ own_layout }
    {
        Regions {
            words: WORDS,
            work: 4358,
            fuel: 49400,
            stack: 65553,
            pairs: 119311,
            pair_words: 36864,
        }
    }

    /// Where the stack begins.
    pub fn stack_start(&self) -> usize
        ensures { result ≡ self.now.work + self.now.fuel }
    {
        self.work + self.fuel
    }

    /// The end of the stack.
    pub fn stack_end(&self) -> usize
        ensures { result ≡ self.now.work + (self.now.fuel + self.now.stack) }
    {
        self.work + (self.fuel + self.stack)
    }
}
