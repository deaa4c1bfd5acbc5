//! Words as one number: the words are its digits to the base `2^64`, least word first.
ghost use Rattle.std.specs.Prelude.{◌≡◌, ◌<◌, ◌+◌, ◌*◌, ◌/◌, ◌%◌, ◌^◌, bit_xor, length};
ghost use Rattle.tw_bits.specs.Words.{words_number};

/// The word at this place.
pub fn word(words: &[u64], at: usize) -> u64
    requires { at < length words.now }
    ensures { result ≡ words_number words.now / 2 ^ (64 * at) % 2 ^ 64 }
{
    words[at]
}

/// The word at this place and, above it, the next one.
pub fn two_words(words: &[u64], at: usize) -> u128
    requires { at + 1 < length words.now }
    ensures { result ≡ words_number words.now / 2 ^ (64 * at) % 2 ^ 128 }
{
    ((words[at + 1] as u128) << 64) | words[at] as u128
}

/// Flips, in the word at this place, the bits that are 1 in `flips`.
pub fn flip_word(words: &mut [u64], at: usize, flips: u64)
    requires { at < length words.old }
    ensures number { words_number words.new
        ≡ bit_xor (words_number words.old) (flips * 2 ^ (64 * at)) }
    ensures len { length words.new ≡ length words.old }
{
    words[at] ^= flips;
}

/// Flips, in the word at this place and the next one, the bits that are 1 in `flips`.
pub fn flip_two_words(words: &mut [u64], at: usize, flips: u128)
    requires { at + 1 < length words.old }
    ensures number { words_number words.new
        ≡ bit_xor (words_number words.old) (flips * 2 ^ (64 * at)) }
    ensures len { length words.new ≡ length words.old }
{
    flip_word(words, at, (flips % (1 << 64)) as u64);
    flip_word(words, at + 1, (flips >> 64) as u64);
}
