//! Texts of lines of bits: how many lines they have, or why they are refused.
ghost use Rattle.std.specs.Prelude.{◌≡◌, ◌==◌, ◌||◌, ℕ, Bool, List, ◌++◌, length, Err, IfSome, IfOk, IfErr};
ghost use Rattle.std.specs.List.{list_all};
ghost use Rattle.std.specs.Option.{IfNone};
ghost use Rattle.tw_sim.specs.BitLines.{bit_line, AreLinesOf, AreRefused, HasNoLine, too_many};

use thiserror::Error;
use tw_text::{Counted, Pos, Refusal, STATES_LIMIT};

/// Why lines of bits are not simulated.
#[derive(Debug, Clone, Copy, PartialEq, Eq, Error)]
pub enum LinesFault {
    /// This line is the first that is not a character `0` or `1` for each wire, then a newline. Lines count from 1.
    #[error("a line of bits is wrong")]
    BitsLength { line: u32 },
    /// The number of lines passes its limit.
    #[error("there are too many lines of bits")]
    Over(Refusal),
    /// Out of memory.
    #[error("out of memory")]
    Memory,
}

/// The refusal of more states, or lines of bits, than the limit. The limit and one more are counted.
pub fn too_many() -> Refusal
    ensures { result ≡ too_many }
{
    let at = Pos { line: 1, col: 1 };
    Refusal::passed(Counted::States, STATES_LIMIT + 1, at)
}

/// Whether each byte is the character of a bit.
fn are_digits(bytes: &[u8]) -> bool
    ensures { result ≡ list_all (λ byte. byte == 48 || byte == 49) bytes.now }
{
    bytes.iter().all(|byte| *byte == b'0' || *byte == b'1')
}

/// The text after a line of this number of bits.
fn behind_line(wires: usize, text: &[u8]) -> Option<&[u8]>
    ensures some { IfSome result (λ rest. (bits : List Bool) × (length bits ≡ wires) × (text.now ≡ bit_line bits ++ rest.now)) }
    ensures none { IfNone result (HasNoLine wires text.now) }
{
    if text.len() <= wires || text[wires] != b'\n' {
        return None;
    }
    if are_digits(&text[..wires]) {
        Some(&text[wires + 1..])
    } else {
        None
    }
}

/// Checks that a text is lines of this number of bits, and that the number of lines is within its limit.
pub fn check_lines(wires: usize, text: &[u8]) -> Result<(), LinesFault>
    ensures right { IfOk result (λ done. (states : List (List Bool)) × AreLinesOf wires text.now states) }
    ensures refused { IfErr result (λ why. AreRefused wires text.now why) }
{
    let mut rest = text;
    for line in 0..STATES_LIMIT {
        if rest.is_empty() {
            return Ok(());
        }
        match behind_line(wires, rest) {
            Some(behind) => rest = behind,
            None => {
                return Err(LinesFault::BitsLength {
                    line: line as u32 + 1,
                });
            }
        }
    }
    if rest.is_empty() {
        Ok(())
    } else {
        Err(LinesFault::Over(too_many()))
    }
}
