//! Types and values: their sizes and zeros, the bits that encode them, and the table of the targets of pointers.
//! The definitions of `specs/` give the values of a type and the bits that encode them. The encoding of each type is bijective.
#![tactic(auto)]

mod coding;
mod targets;
mod types;
mod values;
mod widths;

pub use coding::{decode_from, encode_into};
pub use targets::Targets;
pub use types::{EXTENT_LIMIT, TYPE_DEPTH_LIMIT, TargetId, Ty, same_ty, size_of};
pub use values::{Val, copy_val, has_type, pair, same, zero_of};
pub use widths::{ADDR_LIMIT, WORD_LIMIT, Widths};
