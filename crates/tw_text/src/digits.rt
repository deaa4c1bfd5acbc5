//! Splits a text after its digits.
ghost use Rattle.std.specs.Prelude.{◌≡◌, ◌++◌};
ghost use Rattle.tw_text.specs.Digits.{digit_run};

/// The longest prefix of ASCII digits, and the suffix after it.
pub fn split_digits(bytes: &[u8]) -> (&[u8], &[u8])
    ensures run { result.0.now ≡ digit_run bytes.now }
    ensures parts { bytes.now ≡ result.0.now ++ result.1.now }
{
    let end = bytes
        .iter()
        .take_while(|byte| byte.is_ascii_digit())
        .count();
    bytes.split_at(end)
}
