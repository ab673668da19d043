// Commands, decoded from bytes.
ghost use Rattle.std.specs.Prelude.{◌≡◌};
ghost use Rattle.reader.specs.House.{a_text};
ghost use Rattle.reader.specs.Requests.{Decodes};

use grammar::spelling::is_grammar;

// A command, with the bytes that are behind its first.
#[derive(Clone, Copy, Debug, PartialEq, Eq)]
pub enum Request<'a> {
    // The spelling of a grammar.
    Load(&'a [u8]),
    // The signs of a text.
    Read(&'a [u8]),
    // The signs behind which something may come.
    Next(&'a [u8]),
}

// Up to 4,096 signs.
fn is_text(signs: &[u8]) -> bool
    ensures { result ≡ a_text signs.now }
{
    signs.len() <= 4096 && signs.iter().all(|sign| *sign < 24)
}

pub fn decode(text: &[u8]) -> Option<Request<'_>>
    ensures { Decodes text.now result }
{
    match text {
        [1, body @ ..] if is_grammar(body) => Some(Request::Load(body)),
        [2, body @ ..] if is_text(body) => Some(Request::Read(body)),
        [3, body @ ..] if is_text(body) => Some(Request::Next(body)),
        _ => None,
    }
}
