// Bytes packed eight to a word.
ghost use Rattle.std.specs.Prelude.{◌≡◌, ◌*◌, length, nat_lt, slice_index, slice_set};
ghost use Rattle.std.specs.Result.{is_ok};
ghost use Rattle.words.specs.Packed.{stacked, unpacked};

use crate::rows::at;

const BYTES: usize = 8;

/// The byte at `i`; 0 past the end.
pub fn read(words: &[u64], i: usize) -> u8
    ensures { result ≡ slice_index (unpacked words.now) i }
{
    at(words, i / BYTES).to_le_bytes()[i % BYTES]
}

/// Puts the byte at `i`; past the end it does nothing.
pub fn write(words: &mut [u64], i: usize, byte: u8)
    ensures { unpacked words.new ≡ slice_set (unpacked words.old) i byte }
{
    let place = i / BYTES;
    // by index: of a row of which `get_mut` lent a word, a proof knows the length alone
    if place < words.len() {
        let mut bytes = words[place].to_le_bytes();
        bytes[i % BYTES] = byte;
        words[place] = u64::from_le_bytes(bytes);
    }
}

/// The stack has no room for one more byte.
#[derive(Clone, Copy, Debug, PartialEq, Eq)]
pub struct Full;

/// Pushes the byte on the stack of this height, if there is room.
pub fn push(words: &mut [u64], height: usize, byte: u8) -> Result<(), Full>
    ensures room { is_ok result ≡ nat_lt height (length (unpacked words.old)) }
    ensures value { unpacked words.new ≡ slice_set (unpacked words.old) height byte }
{
    if height / BYTES >= words.len() {
        return Err(Full);
    }
    write(words, height, byte);
    Ok(())
}

/// The top of the stack of this height; 0 if there is none.
pub fn top(words: &[u64], height: usize) -> u8
    ensures { result ≡ slice_index (stacked height (unpacked words.now)) 0 }
{
    if height == 0 {
        return 0;
    }
    read(words, height - 1)
}
