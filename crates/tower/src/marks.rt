//! The parts of an input: a source, and what follows it after a line `%%`.
ghost use Rattle.std.specs.Prelude.{◌≡◌, ◌≤◌, true, if◌then◌else◌, None, drop, length};
ghost use Rattle.std.specs.Option.{option_copied};
ghost use Rattle.tower.specs.Marks.{after_end, after_mark, parted};

use tw_text::after;

/// The bytes after a newline. `None` if they begin with another byte. At their end there need be none.
fn after_end(bytes: &[u8]) -> Option<&[u8]>
    ensures { option_copied result ≡ after_end bytes.now }
{
    match bytes {
        [] => Some(bytes),
        [b'\n', rest @ ..] => Some(rest),
        _ => None,
    }
}

/// The bytes after a line `%%` that begins at a place. `None` if no such line begins there, or if the place begins no line.
fn after_mark_at(bytes: &[u8], place: usize, begins: bool) -> Option<&[u8]>
    requires { place ≤ length bytes.now }
    ensures { option_copied result ≡ (if begins then after_mark (drop place bytes.now) else None) }
{
    if !begins {
        return None;
    }
    after_end(after(&bytes[place..], b"%%")?)
}

/// The bytes before the first line `%%`, and those after it. Without such a line, all bytes and none.
pub fn split_at_mark(bytes: &[u8]) -> (&[u8], &[u8])
    ensures { (result.0.now, result.1.now) ≡ parted true bytes.now }
{
    let mut place = 0;
    let mut begins = true;
    while place < bytes.len() {
        if let Some(rest) = after_mark_at(bytes, place, begins) {
            return (&bytes[..place], rest);
        }
        begins = bytes[place] == b'\n';
        place += 1;
    }
    (bytes, &[])
}
