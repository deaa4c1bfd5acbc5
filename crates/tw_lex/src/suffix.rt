//! What is left of a text.

ghost use Rattle.std.specs.Prelude.{◌≡◌, ◌+◌, ◌<◌, ◌≤◌, length};

use tw_text::Pos;

/// A suffix of a text, and its place in the text.
#[derive(Debug, Clone, Copy)]
pub struct Suffix<'t> {
    pub text: &'t str,
    pub at: Pos,
    ghost line: { at.line + length text.now < 4294967296 },
    ghost col: { at.col + length text.now < 4294967296 },
    ghost counted: { 1 ≤ at.col },
}

impl<'t> Suffix<'t> {
    /// A whole text.
    pub fn of(text: &'t str) -> Suffix<'t>
        requires { length text.now < 4294967295 }
        ensures text { result.text.now ≡ text.now }
        ensures place { result.at ≡ record { line = 1; col = 1 } }
    {
        Suffix {
            text,
            at: Pos { line: 1, col: 1 },
        }
    }

    /// The suffix after so many characters of this one's first line.
    pub fn past(self, count: usize, rest: &'t str) -> Suffix<'t>
        requires { count + length rest.now ≤ length self.text.now }
        ensures text { result.text.now ≡ rest.now }
        ensures place { result.at ≡ record { line = self.entry.at.line; col = self.entry.at.col + count } }
    {
        Suffix {
            text: rest,
            at: Pos {
                line: self.at.line,
                col: self.at.col + count as u32,
            },
        }
    }

    /// The suffix after a newline.
    pub fn next_line(self, rest: &'t str) -> Suffix<'t>
        requires { length rest.now < length self.text.now }
        ensures text { result.text.now ≡ rest.now }
        ensures place { result.at ≡ record { line = self.entry.at.line + 1; col = 1 } }
    {
        Suffix {
            text: rest,
            at: Pos {
                line: self.at.line + 1,
                col: 1,
            },
        }
    }
}
