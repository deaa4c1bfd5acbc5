//! The inverse of a gate file, from its text: the lines of its gates in reverse order.
ghost use Rattle.std.specs.Prelude.{◌≡◌, ◌≢◌, ◌<◌, ◌++◌, if◌then◌else◌, List, ℕ, length, codes};
ghost use Rattle.std.specs.List.{AllByRecursion};
ghost use Rattle.tw_io.specs.Devices.{Wrote};
ghost use Rattle.tw_gate.specs.Gates.{PlainGate, inverse_gate, inverse};
ghost use Rattle.tw_gatetext.specs.Text.{File, line, lines, file_text};
ghost use Rattle.tw_gatetext.specs.Files.{IsTextOf};
ghost use Rattle.tw_gatetext.specs.Valid.{IsValid};
ghost use Rattle.tw_gatetext.specs.Inverting.{EndsLine, HasNoNewline, HaveSmallNumbers, Put};

use crate::file::FileText;
use crate::writing::write_end;
use memchr::memrchr;
use std::alloc::Global;
use tw_io::{Sink, WriteFault, write_all};
use tw_text::after;

/// The most bytes of a chunk, which is written as one piece.
const CHUNK: usize = 65_536;

/// Appends a piece to a chunk that is not full. Whether it did so: memory may run out.
fn append(chunk: &mut Vec<u8>, piece: &[u8]) -> bool
    ensures { chunk.new.items ≡ (if result then chunk.old.items ++ piece.now else chunk.old.items) }
{
    chunk.len() < CHUNK && chunk.extend_from_slice(piece).is_ok()
}

/// Puts a piece behind a chunk. If it can't be appended, the chunk and the piece are written, and the chunk is empty then.
fn put<K: Sink>(sink: &mut K, chunk: &mut Vec<u8>, piece: &[u8]) -> Result<(), WriteFault>
    ensures { Put K.taken K.faults sink.old sink.new result chunk.old.items chunk.new.items piece.now }
{
    if append(chunk, piece) {
        return Ok(());
    }
    write_all(sink, chunk)?;
    chunk.clear();
    write_all(sink, piece)
}

/// Puts the line of the inverse of the gate of a line.
fn put_inverse<K: Sink>(sink: &mut K, chunk: &mut Vec<u8>, text: &[u8]) -> Result<(), WriteFault>
    ensures { (gate : PlainGate) → text.now ≡ line gate → Put K.taken K.faults sink.old sink.new result chunk.old.items chunk.new.items (line (inverse_gate gate)) }
{
    if let Some(wire) = after(text, b"t ") {
        put(sink, chunk, b"tdg ")?;
        return put(sink, chunk, wire);
    }
    if let Some(wire) = after(text, b"tdg ") {
        put(sink, chunk, b"t ")?;
        return put(sink, chunk, wire);
    }
    put(sink, chunk, text)
}

/// The place of the first byte of the last line of a text.
fn last_line_at(text: &[u8]) -> usize
    requires { 0 < length text.now }
    ensures within { result < length text.now }
    ensures place { (front line : List ℕ) → EndsLine front → HasNoNewline line → text.now ≡ front ++ (line ++ codes "\n") → result ≡ length front }
{
    match memrchr(b'\n', &text[..text.len() - 1]) {
        Some(end) => end + 1,
        None => 0,
    }
}

/// Writes the lines of the inverses of gates, the last one first.
fn write_reversed<K: Sink>(alloc: Global, sink: &mut K, text: &[u8]) -> Result<(), WriteFault>
    ensures wrote { (gates : List PlainGate) → HaveSmallNumbers gates → text.now ≡ lines gates → Wrote K.taken K.faults sink.old sink.new result (lines (inverse gates)) }
{
    let mut chunk = Vec::new(alloc);
    let mut rest = text;
    while !rest.is_empty() {
        let (others, line) = rest.split_at(last_line_at(rest));
        put_inverse(sink, &mut chunk, line)?;
        rest = others;
    }
    write_all(sink, &chunk)
}

/// Writes the inverse of a gate file: the gates in reverse order, with T and its inverse exchanged. The lines are written in
/// chunks.
///
/// At a fault the sink has taken a prefix of the inverse file.
pub fn write_inverse<K: Sink>(
    alloc: Global,
    sink: &mut K,
    text: &FileText,
) -> Result<(), WriteFault>
    ensures wrote { (file : File) → IsValid file → IsTextOf text.now file → Wrote K.taken K.faults sink.old sink.new result (file_text (record file { gates = inverse file.gates })) }
{
    write_all(sink, text.header)?;
    write_reversed(alloc, sink, text.lines)?;
    write_end(sink)
}
