//! Numbers at the start of bytes.
ghost use Rattle.std.specs.Prelude.{◌≡◌, ◌≤◌, ◌++◌, ℕ, List, decimal, IfSome};
ghost use Rattle.std.specs.Option.{IfNone};
ghost use Rattle.tw_types.specs.Types.{block_count};
ghost use Rattle.tw_state.specs.Reading.{Delimits};

use tw_text::{after, split_digits, whole_decimal};
use tw_types::Widths;

/// The number before this text at the start of the bytes, and the suffix after the text. `None` if there is none, or if it is larger
/// than `most`. The text begins with a byte that is no digit.
pub fn number_before<'b>(bytes: &'b [u8], most: u64, tail: &[u8]) -> Option<(u64, &'b [u8])>
    ensures some { IfSome result (λ read. (read.0 ≤ most) × (bytes.now ≡ decimal read.0 ++ (tail.now ++ read.1.now))) }
    ensures none { IfNone result (Delimits tail.now → (number : ℕ) (rest : List ℕ) → number ≤ most → ¬ (bytes.now ≡ decimal number ++ (tail.now ++ rest))) }
{
    let (digits, behind) = split_digits(bytes);
    let number = whole_decimal(digits)?;
    if number > most {
        return None;
    }
    let rest = after(behind, tail)?;
    Some((number, rest))
}

/// The suffix after this number and this text. `None` if the bytes do not begin with these. The text begins with a byte that is no
/// digit.
pub fn after_number<'b>(bytes: &'b [u8], number: u32, tail: &[u8]) -> Option<&'b [u8]>
    ensures some { IfSome result (λ rest. bytes.now ≡ decimal number ++ (tail.now ++ rest.now)) }
    ensures none { IfNone result (Delimits tail.now → (rest : List ℕ) → ¬ (bytes.now ≡ decimal number ++ (tail.now ++ rest))) }
{
    let (read, rest) = number_before(bytes, u64::from(number), tail)?;
    if read != u64::from(number) {
        return None;
    }
    Some(rest)
}

/// The address of a block, or null, before this text at the start of the bytes, and the suffix after the text. `None` if there is
/// none. The text begins with a byte that is no digit.
pub fn block_before<'b>(bytes: &'b [u8], widths: Widths, tail: &[u8]) -> Option<(u32, &'b [u8])>
    ensures some { IfSome result (λ read. (read.0 ≤ block_count widths) × (bytes.now ≡ decimal read.0 ++ (tail.now ++ read.1.now))) }
    ensures none { IfNone result (Delimits tail.now → (block : ℕ) (rest : List ℕ) → block ≤ block_count widths → ¬ (bytes.now ≡ decimal block ++ (tail.now ++ rest))) }
{
    let (block, rest) = number_before(bytes, u64::from(widths.block_count()), tail)?;
    Some((block as u32, rest))
}
