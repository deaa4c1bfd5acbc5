//! The pieces of a gate file's text, composed on the stack.
ghost use Rattle.std.specs.Prelude.{◌≡◌, ℕ, ◌+◌, ◌*◌, ◌≤◌, [], ◌∷◌, ◌++◌, length, codes, decimal};
ghost use Rattle.arrayvec.specs.ArrayString.{array_string_len};
ghost use Rattle.tw_gate.specs.Gates.{plain, X};
ghost use Rattle.tw_text.specs.declared.limits.TheConstants.{CONTROLS_LIMIT};
ghost use Rattle.tw_gatetext.specs.Text.{level_word, x_words, spaced, line, header, HasFewControls};

use arrayvec::ArrayString;
use itoa::Buffer;
use tw_gate::{Gate, Level};

/// The longest line takes fewer bytes.
pub type Line = ArrayString<1024>;

/// The five header lines take fewer bytes.
pub type Header = ArrayString<256>;

/// The header lines of a file.
pub fn header(level: Level, wires: u32, gates: u64, t_count: u64) -> Header
    ensures { result.bytes ≡ header level wires gates t_count }
{
    let mut text = Header::new();
    text.push_str("tower-gates 1\nlevel ");
    text.push_str(level_word(level));
    text.push_str("\nwires ");
    text.push_str(Buffer::new().format(wires));
    text.push_str("\ngates ");
    text.push_str(Buffer::new().format(gates));
    text.push_str("\nt-count ");
    text.push_str(Buffer::new().format(t_count));
    text.push_str("\n");
    text
}

fn level_word(level: Level) -> &'static str
    ensures word { result.now ≡ level_word level }
    ensures short { length result.now ≤ 3 }
{
    match level {
        Level::Mcx => "mcx",
        Level::Tof => "tof",
        Level::T => "t",
    }
}

/// Appends the line of a gate.
pub fn push_line(text: &mut Line, gate: &Gate)
    requires few { HasFewControls (plain gate.now) }
    requires room { array_string_len text.old ≤ 100 }
    ensures { text.new.bytes ≡ text.old.bytes ++ line (plain gate.now) }
{
    match *gate {
        Gate::X { controls, target } => push_x_line(text, controls, target),
        Gate::H(wire) => push_wire_line(text, "h", wire),
        Gate::T(wire) => push_wire_line(text, "t", wire),
        Gate::Tdg(wire) => push_wire_line(text, "tdg", wire),
    }
}

fn push_wire_line(text: &mut Line, word: &str, wire: u32)
    requires short { length word.now ≤ 3 }
    requires room { array_string_len text.old ≤ 100 }
    ensures { text.new.bytes ≡ text.old.bytes ++ (word.now ++ (spaced (wire ∷ []) ++ codes "\n")) }
{
    text.push_str(word);
    push_number(text, wire);
    text.push_str("\n");
}

fn push_x_line(text: &mut Line, controls: &[u32], target: u32)
    requires few { length controls.now ≤ CONTROLS_LIMIT }
    requires room { array_string_len text.old ≤ 100 }
    ensures { text.new.bytes ≡ text.old.bytes ++ line (X controls.now target) }
{
    push_x_words(text, controls.len());
    for control in controls {
        push_number(text, *control);
    }
    push_number(text, target);
    text.push_str("\n");
}

/// Appends the keyword and the count that begin the line of an X gate.
fn push_x_words(line: &mut Line, controls: usize)
    requires { array_string_len line.old ≤ 100 }
    ensures text { line.new.bytes ≡ line.old.bytes ++ x_words controls }
    ensures short { array_string_len line.new ≤ array_string_len line.old + 24 }
{
    match controls {
        0 => line.push_str("x"),
        1 => line.push_str("cx"),
        2 => line.push_str("ccx"),
        _ => {
            line.push_str("mcx ");
            line.push_str(Buffer::new().format(controls));
        }
    }
}

/// Appends a space and a number.
fn push_number(line: &mut Line, n: u32)
    requires { array_string_len line.old ≤ 1000 }
    ensures text { line.new.bytes ≡ line.old.bytes ++ (codes " " ++ decimal n) }
    ensures short { array_string_len line.new ≤ array_string_len line.old + 11 }
{
    line.push_str(" ");
    line.push_str(Buffer::new().format(n));
}
