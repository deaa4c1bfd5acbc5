//! Lists of bits of a fixed length.
ghost use Rattle.std.specs.Prelude.{◌≡◌, ◌<◌, ◌≤◌, ◌+◌, ◌^◌, ◌++◌, false, length, replicate, take, drop, IfOk};
ghost use Rattle.tw_bits.specs.Lists.{bit_at, flipped};
ghost use Rattle.tw_bits.specs.Numbers.{number_bits};

use crate::words::{flip_two_words, flip_word, two_words, word};
use std::alloc::{AllocError, Global};
use std::marker::Model;

/// The number of bits of a word.
const WORD: usize = 64;

/// A list of bits of a fixed length, with places from 0. Bit `i` is bit `i % 64` of word `i / 64`, where bit 0 of a word is its
/// least. At least one more word follows the words that hold bits, so that two words can be read at each place.
#[derive(Drop)]
pub struct Bits {
    words: Vec<u64>,
    len: usize,
}

impl Model for Bits {
    ghost use Rattle.std.specs.Prelude.{Bool, List, ◌<◌, ◌+◌, ◌*◌, length};
    ghost use Rattle.tw_bits.specs.Numbers.{number_bits};
    ghost use Rattle.tw_bits.specs.Words.{words_number};

    ghost Value = { List Bool };

    ghost view = { λ b. number_bits b.len (words_number b.words.items) };

    ghost invariant = { λ b. b.len + 64 < 64 * length b.words.items };
}

impl Bits {
    /// A list of `n` zeros. An error: out of memory.
    pub fn zeros(alloc: Global, n: usize) -> Result<Bits, AllocError>
        ensures { IfOk result (λ bits. bits ≡ replicate n false) }
    {
        Ok(Bits {
            words: vec![in alloc; 0; n / WORD + 2]?,
            len: n,
        })
    }

    /// The number of bits.
    pub fn len(&self) -> usize
        ensures { result ≡ length self.now }
    {
        self.len
    }

    /// The bit at a place, which is below the length.
    pub fn get(&self, i: usize) -> bool
        requires { i < length self.now }
        ensures { result ≡ bit_at self.now i }
    {
        (word(&self.words, i / WORD) >> (i % WORD)) & 1 == 1
    }

    /// Flips the bit at a place, which is below the length, and no other.
    pub fn flip(&mut self, i: usize)
        requires { i < length self.old }
        ensures bits { self.new ≡ flipped self.old i }
        ensures len { length self.new ≡ length self.old }
    {
        flip_word(&mut self.words, i / WORD, 1 << (i % WORD));
    }

    /// The number in the `len` bits from `off` on. Its least bit is the bit at `off`.
    /// `len` is at most 64, and the bits lie within the list.
    pub fn number_at(&self, off: usize, len: u32) -> u64
        requires word { len ≤ 64 }
        requires within { off + len ≤ length self.now }
        ensures bits { number_bits len result ≡ take len (drop off self.now) }
        ensures fits { result < 2 ^ len }
    {
        let from_off = two_words(&self.words, off / WORD) >> (off % WORD);
        (from_off % (1 << len)) as u64
    }

    /// Writes a number into the `len` bits from `off` on, with its least bit at `off`. Changes no other bit.
    /// `len` is at most 64, the bits lie within the list, and the number is below `2^len`.
    pub fn put_number(&mut self, off: usize, len: u32, value: u64)
        requires word { len ≤ 64 }
        requires within { off + len ≤ length self.old }
        requires fits { value < 2 ^ len }
        ensures bits { self.new ≡ take off self.old ++ (number_bits len value ++ drop (off + len) self.old) }
        ensures len { length self.new ≡ length self.old }
    {
        let changes = self.number_at(off, len) ^ value;
        let flips = (changes as u128) << (off % WORD);
        flip_two_words(&mut self.words, off / WORD, flips);
    }
}
