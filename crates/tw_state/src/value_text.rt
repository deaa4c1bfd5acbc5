//! Values at the start of bytes.
ghost use Rattle.std.specs.Prelude.{◌≡◌, ◌+◌, ◌^◌, ◌++◌, ℕ, List, IfSome, IfOk};
ghost use Rattle.std.specs.Option.{IfNone};
ghost use Rattle.tw_types.specs.Types.{UnitTy, Word, Boolean, Pointer};
ghost use Rattle.tw_types.specs.FromCode.{ty_of};
ghost use Rattle.tw_state.specs.Reading.{Delimits, IsValueBefore};

use crate::number_text::{block_before, number_before};
use std::alloc::{AllocError, Global};
use tw_text::after;
use tw_types::{Ty, Val, Widths, pair};

/// The suffix of the bytes after two texts. `None` if they do not begin with these.
pub fn after_both<'b>(bytes: &'b [u8], text: &[u8], tail: &[u8]) -> Option<&'b [u8]>
    ensures some { IfSome result (λ rest. bytes.now ≡ text.now ++ (tail.now ++ rest.now)) }
    ensures none { IfNone result ((rest : List ℕ) → ¬ (bytes.now ≡ text.now ++ (tail.now ++ rest))) }
{
    let behind = after(bytes, text)?;
    let rest = after(behind, tail)?;
    Some(rest)
}

/// `()` before a text.
fn unit_before<'b>(widths: Widths, bytes: &'b [u8], tail: &[u8]) -> Option<(Val, &'b [u8])>
    ensures { IsValueBefore widths UnitTy tail.now bytes.now result }
{
    let rest = after_both(bytes, b"()", tail)?;
    Some((Val::Unit, rest))
}

/// The greatest number of a word.
fn greatest_word(widths: Widths) -> u64
    ensures { result + 1 ≡ 2 ^ widths.word }
{
    (1 << widths.word) - 1
}

/// A number of a word before a text that delimits it.
fn word_before<'b>(widths: Widths, bytes: &'b [u8], tail: &[u8]) -> Option<(Val, &'b [u8])>
    ensures { Delimits tail.now → IsValueBefore widths Word tail.now bytes.now result }
{
    let (number, rest) = number_before(bytes, greatest_word(widths), tail)?;
    Some((Val::U(number), rest))
}

/// A truth value before a text.
fn truth_before<'b>(widths: Widths, bytes: &'b [u8], tail: &[u8]) -> Option<(Val, &'b [u8])>
    ensures { IsValueBefore widths Boolean tail.now bytes.now result }
{
    if let Some(rest) = after_both(bytes, b"true", tail) {
        return Some((Val::B(true), rest));
    }
    let rest = after_both(bytes, b"false", tail)?;
    Some((Val::B(false), rest))
}

/// The address of a block, or null, before a text that delimits it.
fn address_before<'b>(widths: Widths, bytes: &'b [u8], tail: &[u8]) -> Option<(Val, &'b [u8])>
    ensures { (target : ℕ) → Delimits tail.now → IsValueBefore widths (Pointer target) tail.now bytes.now result }
{
    let behind = after(bytes, b"@")?;
    let (block, rest) = block_before(behind, widths, tail)?;
    Some((Val::Ptr(block), rest))
}

/// The value of this type before a text at the start of the bytes, and the suffix after the text. `None` if there is none. The text
/// begins with a byte that is no digit. An error: out of memory.
pub fn read_value<'b>(
    alloc: Global,
    ty: &Ty,
    widths: Widths,
    bytes: &'b [u8],
    tail: &[u8],
) -> Result<Option<(Val, &'b [u8])>, AllocError>
    ensures { IfOk result (λ found. Delimits tail.now → IsValueBefore widths (ty_of ty.now) tail.now bytes.now found) }
{
    match ty {
        Ty::Unit => Ok(unit_before(widths, bytes, tail)),
        Ty::Uint => Ok(word_before(widths, bytes, tail)),
        Ty::Bool => Ok(truth_before(widths, bytes, tail)),
        Ty::Ptr(_) => Ok(address_before(widths, bytes, tail)),
        Ty::Pair(first, second) => {
            let Some(behind) = after(bytes, b"(") else {
                return Ok(None);
            };
            let Some((x, behind)) = read_value(alloc, first, widths, behind, b", ")? else {
                return Ok(None);
            };
            let Some((y, behind)) = read_value(alloc, second, widths, behind, b")")? else {
                return Ok(None);
            };
            let Some(rest) = after(behind, tail) else {
                return Ok(None);
            };
            Ok(Some((pair(alloc, x, y)?, rest)))
        }
    }
}
