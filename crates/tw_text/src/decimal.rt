//! Decimal numbers at the start of a text.
ghost use Rattle.std.specs.Prelude.{◌≡◌, ℕ, ◌+◌, ◌*◌, ◌<◌, ◌≤◌, ◌^◌, length, decimal, IfSome};
ghost use Rattle.std.specs.Char.{digit_value};
ghost use Rattle.std.specs.Int.{IsInRange};
ghost use Rattle.std.specs.Option.{IfNone};
ghost use Rattle.std.specs.Str.Parse.{digits_value};
ghost use Rattle.tw_text.specs.Digits.{digit_run};

/// The number that this digit writes after the digits of `value`. `None` if it is above the greatest `u64`.
fn with_digit(value: u64, digit: u8) -> Option<u64>
    requires { IsInRange 48 57 digit }
    ensures some { IfSome result (λ more. more ≡ value * 10 + digit_value digit) }
    ensures none { IfNone result (2 ^ 64 ≤ value * 10 + digit_value digit) }
{
    value.checked_mul(10)?.checked_add(u64::from(digit - b'0'))
}

/// The number that the longest prefix of digits writes, also with leading zeros, and the length of that prefix in bytes.
/// `None` if the number is above the greatest `u64`.
fn digits_number(bytes: &[u8]) -> Option<(u64, usize)>
    ensures value { IfSome result (λ found. found.0 ≡ digits_value 10 (digit_run bytes.now)) }
    ensures used { IfSome result (λ found. found.1 ≡ length (digit_run bytes.now)) }
    ensures none { IfNone result (2 ^ 64 ≤ digits_value 10 (digit_run bytes.now)) }
{
    let mut value: u64 = 0;
    let mut used = 0;
    while used < bytes.len() && bytes[used].is_ascii_digit() {
        value = with_digit(value, bytes[used])?;
        used += 1;
    }
    Some((value, used))
}

/// The decimal number that the longest prefix of digits is, and the length of that prefix in bytes.
/// `None` if that prefix is empty, if it has a leading zero before a further digit,
/// or if the number is above the greatest `u64`.
pub fn read_decimal(bytes: &[u8]) -> Option<(u64, usize)>
    ensures some { IfSome result (λ found. (digit_run bytes.now ≡ decimal found.0) × (found.1 ≡ length (digit_run bytes.now))) }
    ensures none { IfNone result ((n : ℕ) → n < 2 ^ 64 → ¬ (digit_run bytes.now ≡ decimal n)) }
{
    let (number, used) = digits_number(bytes)?;
    if used == 0 {
        return None;
    }
    if used > 1 && bytes[0] == b'0' {
        return None;
    }
    Some((number, used))
}
