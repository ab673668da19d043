// What can be wrong with a line.
use std::alloc::{AllocError, AllocFailed};
use std::error::Error;
use std::fmt;

#[derive(Debug, Drop)]
pub enum Fault {
    Memory,
    // A line that has no =, or no single word before it.
    LeftSide,
    SecondEquals,
    Rules,
    Names,
    Symbols,
    Signs,
    NoRules,
    Length,
    Unknown(String),
    Name(String),
    // Rules that are told in an order that no reading has.
    Order,
    Command(String),
}

impl From<AllocError> for Fault {
    fn from(_e: AllocError) -> Fault {
        Fault::Memory
    }
}

impl<T: Drop> From<AllocFailed<T>> for Fault {
    fn from(_e: AllocFailed<T>) -> Fault {
        Fault::Memory
    }
}

impl fmt::Display for Fault {
    fn fmt<W: fmt::Write>(&self, f: &mut fmt::Formatter<W>) -> fmt::Result {
        match self {
            Fault::Memory => f.write_str("no memory is left"),
            Fault::LeftSide => f.write_str("a rule has one word before its ="),
            Fault::SecondEquals => f.write_str("a rule has one ="),
            Fault::Rules => f.write_str("a grammar has at most 63 rules"),
            Fault::Names => f.write_str("a grammar has at most 31 names"),
            Fault::Symbols => f.write_str("the right sides of a grammar have at most 127 symbols"),
            Fault::Signs => f.write_str("a grammar has at most 24 signs"),
            Fault::NoRules => f.write_str("there are no rules yet"),
            Fault::Length => f.write_str("a text has at most 4096 signs"),
            Fault::Unknown(word) => write!(f, "{word} stands in no rule"),
            Fault::Name(word) => write!(f, "{word} is a name, and a text has signs"),
            Fault::Order => f.write_str("the rules are not told in the order of a reading"),
            Fault::Command(word) => write!(f, "{word} is no command, see :help"),
        }
    }
}

impl Error for Fault {}
