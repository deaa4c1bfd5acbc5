//! Texts that are one decimal number.
ghost use Rattle.std.specs.Prelude.{◌≡◌, ℕ, ◌<◌, ◌^◌, decimal, IfSome};
ghost use Rattle.std.specs.Option.{IfNone};

use crate::read_decimal;

/// The number whose decimal text the bytes are.
/// `None` if they are no decimal text, or if the number is above the greatest `u64`.
pub fn whole_decimal(bytes: &[u8]) -> Option<u64>
    ensures some { IfSome result (λ n. bytes.now ≡ decimal n) }
    ensures none { IfNone result ((n : ℕ) → n < 2 ^ 64 → ¬ (bytes.now ≡ decimal n)) }
{
    let (number, used) = read_decimal(bytes)?;
    if used == bytes.len() {
        Some(number)
    } else {
        None
    }
}
