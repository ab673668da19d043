// Bits of a word.
ghost use Rattle.std.specs.Prelude.{◌≡◌, ◌-◌, ◌%◌, ◌^◌, min, bit_or};
ghost use Rattle.words.specs.Bits.{bit_of, has_bit, without_bits};

/// Whether the bit of the word is set; past 63 none is.
pub fn test(word: u64, bit: u64) -> bool
    ensures { result ≡ has_bit bit word }
{
    bit < 64 && (word >> bit) & 1 == 1
}

/// The word that has bit `n` alone; 0 past 63.
pub fn bit(n: u64) -> u64
    ensures { result ≡ bit_of n }
{
    if n < 64 { 1 << n } else { 0 }
}

/// The word with bit `n` set.
pub fn with(word: u64, n: u64) -> u64
    ensures { result ≡ bit_or word (bit_of n) }
{
    word | bit(n)
}

/// The word without the bits of the mask.
pub fn without(word: u64, mask: u64) -> u64
    ensures { result ≡ without_bits word mask }
{
    word & !mask
}

/// The mask of the `count` lowest bits; of all 64 past 63.
pub fn mask(count: u64) -> u64
    ensures { result ≡ 2 ^ min count 64 - 1 }
{
    if count < 64 {
        (1 << count) - 1
    } else {
        u64::MAX
    }
}

/// The `count` lowest bits of the word.
pub fn low(word: u64, count: u64) -> u64
    ensures { result ≡ word % 2 ^ count }
{
    word & mask(count)
}
