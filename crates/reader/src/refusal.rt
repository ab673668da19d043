// Why a command is refused, and the numbers that this is told by.
ghost use Rattle.std.specs.Prelude.{◌≡◌};
ghost use Rattle.reader.specs.Refusals.{RefusalOf, refusal_code};

use std::error::Error;
use std::fmt;

/// Why a command is refused, or to go on.
#[derive(Clone, Copy, Debug, PartialEq, Eq, Hash)]
pub enum Refusal {
    /// Sizes of what is lent that do not fit.
    Sizes = 0,
    /// No command, or nothing to go on with.
    NoCommand = 1,
    /// A command that is not known yet.
    Unknown = 2,
    /// No grammar is loaded.
    NoGrammar = 3,
    /// No text of the grammar.
    NoText = 4,
    /// One sign ahead is not enough.
    Clash = 5,
    /// A name is of no use.
    Useless = 6,
}

/// A number that no refusal has.
#[derive(Clone, Copy, Debug, PartialEq, Eq, Hash)]
pub struct NoRefusal(pub u64);

impl From<Refusal> for u64 {
    ghost from_gives = { λ refusal number. number ≡ refusal_code refusal };

    fn from(refusal: Refusal) -> u64 {
        refusal as u64
    }
}

impl TryFrom<u64> for Refusal {
    type Error = NoRefusal;

    ghost try_from_gives = { RefusalOf };

    fn try_from(number: u64) -> Result<Refusal, NoRefusal> {
        match number {
            0 => Ok(Refusal::Sizes),
            1 => Ok(Refusal::NoCommand),
            2 => Ok(Refusal::Unknown),
            3 => Ok(Refusal::NoGrammar),
            4 => Ok(Refusal::NoText),
            5 => Ok(Refusal::Clash),
            6 => Ok(Refusal::Useless),
            _ => Err(NoRefusal(number)),
        }
    }
}

impl fmt::Display for Refusal {
    ghost use Rattle.std.specs.Prelude.{Some};
    ghost use Rattle.reader.specs.Refusals.{refusal_words};

    ghost output = { λ refusal. Some (refusal_words refusal) };

    fn fmt<W: fmt::Write>(&self, f: &mut fmt::Formatter<W>) -> fmt::Result {
        match self {
            Refusal::Sizes => f.write_str("sizes that do not fit"),
            Refusal::NoCommand => f.write_str("no command"),
            Refusal::Unknown => f.write_str("a command that is not known yet"),
            Refusal::NoGrammar => f.write_str("there is no grammar"),
            Refusal::NoText => f.write_str("no text of the grammar"),
            Refusal::Clash => f.write_str("one sign ahead is not enough"),
            Refusal::Useless => f.write_str("a name is of no use"),
        }
    }
}

impl fmt::Display for NoRefusal {
    ghost use Rattle.std.specs.Prelude.{Some, codes};

    ghost output = { λ _. Some (codes "no such number") };

    fn fmt<W: fmt::Write>(&self, f: &mut fmt::Formatter<W>) -> fmt::Result {
        f.write_str("no such number")
    }
}

impl Error for Refusal {}

impl Error for NoRefusal {}
