//! Printing piece by piece.

ghost use Rattle.std.specs.Prelude.{◌≡◌, decimal};
ghost use Rattle.tw_print.specs.Progress.{Goes, progress_after};

use tw_io::{Sink, WriteFault, write_all, write_decimal};

/// How far the printing has come.
#[derive(Debug, Clone, Copy, PartialEq, Eq)]
pub enum Progress {
    /// The sink took all pieces so far.
    Going,
    /// The sink failed, and nothing more is written.
    Broken,
}

impl Progress {
    fn after(written: Result<(), WriteFault>) -> Progress
        ensures { result ≡ progress_after written }
    {
        match written {
            Ok(()) => Progress::Going,
            Err(WriteFault) => Progress::Broken,
        }
    }
}

/// Prints a piece of text.
pub fn text<K: Sink>(sink: &mut K, progress: Progress, piece: &str) -> Progress
    ensures { Goes K.taken K.faults sink.old sink.new progress result piece.now }
{
    match progress {
        Progress::Going => Progress::after(write_all(sink, piece.as_bytes())),
        Progress::Broken => Progress::Broken,
    }
}

/// Prints a number in decimal.
pub fn number<K: Sink>(sink: &mut K, progress: Progress, n: u64) -> Progress
    ensures { Goes K.taken K.faults sink.old sink.new progress result (decimal n) }
{
    match progress {
        Progress::Going => Progress::after(write_decimal(sink, n)),
        Progress::Broken => Progress::Broken,
    }
}
