//! The options of a command: keys, each followed by a value or alone.
ghost use Rattle.std.specs.Prelude.{◌≡◌, ◌≢◌, ◌<◌, [], length, drop, set, IfSome};
ghost use Rattle.std.specs.Option.{IfNone};
ghost use Rattle.tower.specs.Requests.{is_flag, key_place};
ghost use Rattle.tower.specs.Given.{key_among, keys, choice_size, value_given, IsChoiceAt, IsNoChoiceAt, AreGiven, AreNotGiven};

use crate::words::Words;

/// The key of an option.
#[derive(Debug, Clone, Copy, PartialEq, Eq)]
pub enum Key {
    /// The width of a word.
    Word,
    /// The width of an address.
    Addr,
    /// The function that is compiled, run, or whose states are encoded.
    Entry,
    /// The number of its bound.
    Bound,
    /// The inverse file is printed.
    Inverse,
    /// The program is run back.
    Back,
    /// The level of the gates.
    Level,
    /// Whether nested conditions are flattened.
    Flatten,
    /// Whether the setup of a `with` is freed of controls.
    Narrow,
    /// The side of the function at which states are encoded.
    Side,
}

/// The number of keys.
const KEY_COUNT: usize = 10;

impl Key {
    /// The key with this text.
    fn from_text(word: &str) -> Option<Key>
        ensures { result ≡ key_among word.now keys }
    {
        match word {
            "--word" => Some(Key::Word),
            "--addr" => Some(Key::Addr),
            "--entry" => Some(Key::Entry),
            "--bound" => Some(Key::Bound),
            "--inverse" => Some(Key::Inverse),
            "--back" => Some(Key::Back),
            "--level" => Some(Key::Level),
            "--flatten" => Some(Key::Flatten),
            "--narrow" => Some(Key::Narrow),
            "--side" => Some(Key::Side),
            _ => None,
        }
    }

    /// Whether the key is a whole option; otherwise the next argument is its value.
    fn is_flag(self) -> bool
        ensures { result ≡ is_flag self }
    {
        self == Key::Inverse || self == Key::Back
    }

    /// The number of arguments that an option with this key takes.
    fn size(self) -> usize
        ensures { result ≡ choice_size self }
    {
        if self.is_flag() { 1 } else { 2 }
    }

    /// The place of the key in a table of all keys.
    fn place(self) -> usize
        ensures place { result ≡ key_place self }
        ensures within { result < KEY_COUNT }
    {
        self as usize
    }
}

/// An option: its key, and its value, which is empty for a flag.
#[derive(Clone, Copy)]
struct Choice<'w> {
    key: Key,
    value: &'w str,
}

/// The option whose key is the argument at a place. `None` if no option is there.
fn choice_at(words: &Words, place: usize) -> Option<Choice<'_>>
    requires { place < length words.now }
    ensures some { IfSome result (λ choice. IsChoiceAt (drop place words.now) choice.key choice.value.now) }
    ensures none { IfNone result (IsNoChoiceAt (drop place words.now)) }
{
    let key = Key::from_text(words.word(place))?;
    if key.is_flag() {
        return Some(Choice { key, value: "" });
    }
    if words.len() - place < 2 {
        return None;
    }
    Some(Choice {
        key,
        value: words.word(place + 1),
    })
}

/// The values that were given to the keys, at most one to each.
#[derive(Clone, Copy)]
pub struct Given<'w> {
    values: [Option<&'w str>; KEY_COUNT],
}

impl<'w> Given<'w> {
    /// The value that was given to a key.
    pub fn value(&self, key: Key) -> Option<&'w str>
        ensures { result ≡ value_given self.now.values key }
    {
        self.values[key.place()]
    }

    /// These values with one more option. `None` if its key was given before.
    fn with(mut self, choice: Choice<'w>) -> Option<Given<'w>>
        ensures some { IfSome result (λ given. (value_given self.entry.values choice.entry.key ≡ None)
            × (key_place choice.entry.key < length self.entry.values)
            × (given.values ≡ set self.entry.values (key_place choice.entry.key) (Some choice.entry.value))) }
        ensures none { IfNone result (value_given self.entry.values choice.entry.key ≢ None) }
    {
        let place = choice.key.place();
        let before = self.values[place];
        if before.is_some() {
            return None;
        }
        self.values[place] = Some(choice.value);
        Some(self)
    }
}

/// The options after the command. `None` if the arguments are not options of which each is given at most once.
pub fn options_of(words: &Words) -> Option<Given<'_>>
    requires { 0 < length words.now }
    ensures some { IfSome result (λ given. AreGiven (drop 1 words.now) [] given.values) }
    ensures none { IfNone result (AreNotGiven (drop 1 words.now)) }
{
    let mut given = Given {
        values: [None; KEY_COUNT],
    };
    let mut place = 1;
    while place < words.len() {
        let choice = choice_at(words, place)?;
        given = given.with(choice)?;
        place += choice.key.size();
    }
    Some(given)
}
