//! Prefixes of bytes.
ghost use Rattle.std.specs.Prelude.{◌≡◌};
ghost use Rattle.std.specs.Option.{option_copied};
ghost use Rattle.tw_text.specs.Prefix.{after};

/// The suffix after this prefix. `None` if the bytes do not begin with it.
pub fn after<'t>(bytes: &'t [u8], prefix: &[u8]) -> Option<&'t [u8]>
    ensures { option_copied result ≡ after prefix.now bytes.now }
{
    bytes.strip_prefix(prefix)
}
