//! Numbers at the start of bytes.
ghost use Rattle.std.specs.Prelude.{◌≡◌, ℕ, ◌<◌, ◌^◌, List, codes, decimal, ◌++◌, IfSome};
ghost use Rattle.std.specs.Option.{IfNone};
ghost use Rattle.tw_text.specs.Digits.{digit_run};
ghost use Rattle.tw_gatetext.specs.Numerals.{Shows, IsNumeral};

use tw_text::{after, read_decimal, split_digits};

/// The number that the longest prefix of digits writes, without leading zero; the greatest `u64` for all larger numbers.
/// `None` if that prefix is empty, or has a leading zero before a further digit.
pub fn number_shown(bytes: &[u8]) -> Option<u64>
    ensures some { IfSome result (λ number. Shows bytes.now number) }
    ensures none { IfNone result ((number : ℕ) → ¬ Shows bytes.now number) }
{
    if let Some((number, _)) = read_decimal(bytes) {
        return Some(number);
    }
    match bytes.first() {
        Some(first) if first.is_ascii_digit() && *first != b'0' => Some(u64::MAX),
        _ => None,
    }
}

/// The number of 64 bits at the start, and the bytes after its digits.
pub fn number_at(bytes: &[u8]) -> Option<(u64, &[u8])>
    ensures some { IfSome result (λ found. bytes.now ≡ decimal found.0 ++ found.1.now) }
    ensures whole { IfSome result (λ found. digit_run bytes.now ≡ decimal found.0) }
    ensures none { IfNone result ((number : ℕ) → number < 2 ^ 64 → ¬ (digit_run bytes.now ≡ decimal number)) }
{
    let (number, used) = read_decimal(bytes)?;
    Some((number, &bytes[used..]))
}

/// The number of 64 bits that is the rest of a line, and the bytes after the line.
pub fn number_line(bytes: &[u8]) -> Option<(u64, &[u8])>
    ensures some { IfSome result (λ found. bytes.now ≡ decimal found.0 ++ (codes "\n" ++ found.1.now)) }
    ensures none { IfNone result ((number : ℕ) (rest : List ℕ) → number < 2 ^ 64 → ¬ (bytes.now ≡ decimal number ++ (codes "\n" ++ rest))) }
{
    let (number, behind) = number_at(bytes)?;
    let rest = after(behind, b"\n")?;
    Some((number, rest))
}

/// The digits of the number, of any size, that is the rest of a line, and the bytes after the line.
pub fn numeral_line(bytes: &[u8]) -> Option<(&[u8], &[u8])>
    ensures some { IfSome result (λ found. IsNumeral found.0.now × (bytes.now ≡ found.0.now ++ (codes "\n" ++ found.1.now))) }
    ensures none { IfNone result ((numeral rest : List ℕ) → IsNumeral numeral → ¬ (bytes.now ≡ numeral ++ (codes "\n" ++ rest))) }
{
    let _number = number_shown(bytes)?;
    let (digits, behind) = split_digits(bytes);
    let rest = after(behind, b"\n")?;
    Some((digits, rest))
}
