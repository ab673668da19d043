// The symbols of rows, as code that asks for their kind has them; in tables and on stacks they are bytes.
ghost use Rattle.std.specs.Prelude.{◌≡◌};
ghost use Rattle.grammar.specs.Spelling.{sym_of};
ghost use Rattle.grammar.specs.Symbols.{told};

use crate::table::FIRST_NAME;

/// A sign that stands in texts, or a name for what is made of others.
#[derive(Clone, Copy, Debug, PartialEq, Eq)]
pub enum Symbol {
    Sign(u8),
    Name(u8),
}

/// The symbol of a byte, whatever it is: names stand from 32 on.
impl From<u8> for Symbol {
    ghost from_gives = { λ byte symbol. told symbol ≡ sym_of byte };

    fn from(byte: u8) -> Symbol {
        if byte < FIRST_NAME {
            Symbol::Sign(byte)
        } else {
            Symbol::Name(byte - FIRST_NAME)
        }
    }
}
