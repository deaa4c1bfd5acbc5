//! The settings that the options of a call make.
ghost use Rattle.std.specs.Prelude.{◌≡◌, ◌≤◌, ◌<◌, ℕ, Option, drop, decimal, length, IfSome};
ghost use Rattle.std.specs.Option.{IfNone};
ghost use Rattle.tw_types.specs.Types as types;
ghost use Rattle.tower.specs.Requests as requests;
ghost use Rattle.tower.specs.Requests.{is_as_built, is_empty, is_unset_or, greatest_bound, AreOptions};
ghost use Rattle.tower.specs.Given.{settings_seen, text_seen, value_text, SpellWidths, SetWidths, SetNumber};

use crate::options::{Key, options_of};
use crate::words::Words;
use tw_types::Widths;

/// What the options of a call set.
#[derive(Debug, Clone, Copy, PartialEq, Eq)]
pub struct Settings<'w> {
    /// The widths of words and addresses.
    pub widths: Option<Widths>,
    /// The name of the function that is compiled, run, or whose states are encoded.
    pub entry: Option<&'w str>,
    /// The number that the bound of that function has.
    pub bound: Option<u8>,
    /// Whether the inverse file is printed.
    pub inverse: bool,
    /// Whether the program is run back.
    pub back: bool,
    /// The level of the gates.
    pub level: Option<&'w str>,
    /// Whether nested conditions are flattened, `on` or `off`.
    pub flatten: Option<&'w str>,
    /// Whether the setup of a `with` is freed of controls, `on` or `off`.
    pub narrow: Option<&'w str>,
    /// The side at which states are encoded, `in` or `out`.
    pub side: Option<&'w str>,
}

/// Whether an option is not given, or its value is this text.
fn is_unset_or(text: &str, value: Option<&str>) -> bool
    ensures { result ≡ is_unset_or text.now (text_seen value.entry) }
{
    match value {
        None => true,
        Some(value) => value == text,
    }
}

impl<'w> Settings<'w> {
    /// Whether no option is given.
    pub fn is_empty(&self) -> bool
        ensures { result ≡ is_empty (settings_seen self.now) }
    {
        self.widths.is_none()
            && self.entry.is_none()
            && self.bound.is_none()
            && !self.inverse
            && !self.back
            && self.level.is_none()
            && self.flatten.is_none()
            && self.narrow.is_none()
            && self.side.is_none()
    }

    /// Whether these are the settings of the circuits that are built: level `mcx`, no flattening, no narrowing.
    pub fn is_as_built(&self) -> bool
        ensures { result ≡ is_as_built (settings_seen self.now) }
    {
        is_unset_or("mcx", self.level)
            && is_unset_or("off", self.flatten)
            && is_unset_or("off", self.narrow)
    }
}

/// The number that a value is, of at most `most`.
fn number_to(word: &str, most: u64) -> Option<u64>
    ensures some { IfSome result (λ n. (word.now ≡ decimal n) × (n ≤ most)) }
    ensures none { IfNone result ((n : ℕ) → n ≤ most → ¬ (word.now ≡ decimal n)) }
{
    let number = tw_text::whole_decimal(word.as_bytes())?;
    if number <= most { Some(number) } else { None }
}

/// The widths that two values are.
fn widths_of(word: &str, addr: &str) -> Option<Widths>
    ensures some { IfSome result (SpellWidths word.now addr.now) }
    ensures none { IfNone result ((widths : types.Widths) → ¬ SpellWidths word.now addr.now widths) }
{
    let word = number_to(word, u32::MAX as u64)?;
    let addr = number_to(addr, u32::MAX as u64)?;
    Widths::new(word as u32, addr as u32)
}

/// The widths that the values of `--word` and `--addr` set. `None` if they are not in range, or only one of them is given.
fn set_widths(word: Option<&str>, addr: Option<&str>) -> Option<Option<Widths>>
    ensures some { IfSome result (SetWidths (value_text word.entry) (value_text addr.entry)) }
    ensures none { IfNone result ((widths : Option types.Widths) → ¬ SetWidths (value_text word.entry) (value_text addr.entry) widths) }
{
    match (word, addr) {
        (None, None) => Some(None),
        (Some(word), Some(addr)) => Some(Some(widths_of(word, addr)?)),
        (Some(_), None) => None,
        (None, Some(_)) => None,
    }
}

/// The number that the value of `--bound` sets. `None` if it is not in range.
fn set_bound(value: Option<&str>) -> Option<Option<u8>>
    ensures some { IfSome result (SetNumber greatest_bound (value_text value.entry)) }
    ensures none { IfNone result ((bound : Option ℕ) → ¬ SetNumber greatest_bound (value_text value.entry) bound) }
{
    let Some(text) = value else {
        return Some(None);
    };
    let number = number_to(text, u8::MAX as u64)?;
    Some(Some(number as u8))
}

/// The settings that the arguments after the command make. `None` if they are not options, or a number is not in range.
pub fn settings_of(words: &Words) -> Option<Settings<'_>>
    requires { 0 < length words.now }
    ensures some { IfSome result (λ settings. AreOptions (drop 1 words.now) (settings_seen settings)) }
    ensures none { IfNone result ((settings : requests.Settings) → ¬ AreOptions (drop 1 words.now) settings) }
{
    let given = options_of(words)?;
    let widths = set_widths(given.value(Key::Word), given.value(Key::Addr))?;
    let bound = set_bound(given.value(Key::Bound))?;
    Some(Settings {
        widths,
        entry: given.value(Key::Entry),
        bound,
        inverse: given.value(Key::Inverse).is_some(),
        back: given.value(Key::Back).is_some(),
        level: given.value(Key::Level),
        flatten: given.value(Key::Flatten),
        narrow: given.value(Key::Narrow),
        side: given.value(Key::Side),
    })
}
