// Rows of words.
ghost use Rattle.std.specs.Prelude.{◌≡◌, length, replicate, slice_index, slice_index_or};
ghost use Rattle.words.specs.Iter.{Grew};
ghost use Rattle.words.specs.Rows.{or_at, size};

/// Puts the mask into a place of the row, if the row has it, and says whether that added a bit.
pub fn put(row: &mut [u64], place: usize, mask: u64) -> bool
    ensures value { row.new ≡ or_at row.old place mask }
    ensures grew { Grew size row.old row.new result }
{
    let Some(&old) = row.get(place) else {
        return false;
    };
    // by index: of a row of which `get_mut` lent a word, a proof knows the length alone
    let new = old | mask;
    row[place] = new;
    old != new
}

/// Sets every word to 0.
pub fn zeroes(words: &mut [u64])
    ensures { words.new ≡ replicate (length words.old) 0 }
{
    words.fill(0);
}

/// What stands at a place of the row; the other value past its end.
pub fn at_or<T: Copy>(row: &[T], place: usize, other: T) -> T
    ensures { result ≡ slice_index_or row.now place other }
{
    row.get(place).copied().unwrap_or(other)
}

/// The word at a place of the row; 0 past its end.
pub fn at(row: &[u64], place: usize) -> u64
    ensures { result ≡ slice_index row.now place }
{
    at_or(row, place, 0)
}
