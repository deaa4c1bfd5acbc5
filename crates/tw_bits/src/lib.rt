//! Lists of bits, stored in machine words.
//! The definitions of `specs/` give the bit at a place, the bits of a number, least bit first, and the operators on numbers of a
//! fixed width. `proofs/Laws.antt` has the laws of bits and of numbers as bits.
#![tactic(auto)]

mod bits;
mod words;

pub use bits::Bits;
