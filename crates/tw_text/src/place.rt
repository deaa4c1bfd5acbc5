//! Places in a text.
ghost use Rattle.std.specs.Prelude.{◌≡◌, ◌<◌, ◌≤◌, ◌+◌, length};
ghost use Rattle.std.specs.Str.{chars};
ghost use Rattle.tw_text.specs.Places.{first_place, after_char, after_chars};

use crate::cut::first_char;

/// A place in a text: the line and the column of a character. Both count from 1. A column counts characters, not bytes.
#[derive(Debug, Clone, Copy, PartialEq, Eq)]
pub struct Pos {
    pub line: u32,
    pub col: u32,
}

impl Pos {
    /// The place after a character that is at this place.
    pub fn after(self, c: char) -> Pos
        requires line { self.line < 4294967295 }
        requires col { self.col < 4294967295 }
        ensures { result ≡ after_char self c }
    {
        if c == '\n' {
            Pos {
                line: self.line + 1,
                col: 1,
            }
        } else {
            Pos {
                line: self.line,
                col: self.col + 1,
            }
        }
    }

    /// The place after a text that begins here. Line and column each grow by at most the length of the text in bytes.
    pub fn after_text(self, text: &str) -> Pos
        requires line { self.line + length text.now < 4294967296 }
        requires col { self.col + length text.now < 4294967296 }
        requires counted { 1 ≤ self.col }
        ensures place { result ≡ after_chars self (chars text.now) }
        ensures line { result.line ≤ self.line + length text.now }
        ensures col { result.col ≤ self.col + length text.now }
        ensures counts { 1 ≤ result.col }
    {
        let mut place = self;
        let mut rest = text;
        while let Some((c, following)) = first_char(rest) {
            place = place.after(c);
            rest = following;
        }
        place
    }
}

/// The place after a text that begins at line 1, column 1.
pub fn place_after(text: &str) -> Pos
    requires { length text.now < 4294967295 }
    ensures { result ≡ after_chars first_place (chars text.now) }
{
    Pos { line: 1, col: 1 }.after_text(text)
}
