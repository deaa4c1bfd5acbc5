//! Printing types and paths.

ghost use Rattle.std.specs.Prelude.{◌≡◌};
ghost use Rattle.tw_syntax.specs.Names.{path_tree};
ghost use Rattle.tw_syntax.specs.Types.{written_tree};
ghost use Rattle.tw_print.specs.Progress.{Goes};
ghost use Rattle.tw_print.specs.Terms.{type_print, steps_print, path_print};

use crate::progress::{Progress, number, text};
use tw_io::Sink;
use tw_syntax::{Path, Written, WrittenKind};

/// Prints a type.
pub fn print_type<K: Sink>(sink: &mut K, progress: Progress, ty: &Written) -> Progress
    ensures { Goes K.taken K.faults sink.old sink.new progress result (type_print (written_tree ty.now)) }
{
    match &ty.kind {
        WrittenKind::Unit => text(sink, progress, "()"),
        WrittenKind::Uint => text(sink, progress, "uint"),
        WrittenKind::Bool => text(sink, progress, "bool"),
        WrittenKind::Pair(first, second) => {
            let progress = text(sink, progress, "(");
            let progress = print_type(sink, progress, first);
            let progress = text(sink, progress, ", ");
            let progress = print_type(sink, progress, second);
            text(sink, progress, ")")
        }
        WrittenKind::Ptr(to) => {
            let progress = text(sink, progress, "ptr<");
            let progress = print_type(sink, progress, to);
            text(sink, progress, ">")
        }
        WrittenKind::Named(name) => text(sink, progress, name),
    }
}

fn print_steps<K: Sink>(sink: &mut K, progress: Progress, steps: &[u8]) -> Progress
    ensures { Goes K.taken K.faults sink.old sink.new progress result (steps_print steps.now) }
{
    let mut progress = progress;
    for step in steps {
        progress = text(sink, progress, ".");
        progress = number(sink, progress, u64::from(*step));
    }
    progress
}

/// Prints a path.
pub fn print_path<K: Sink>(sink: &mut K, progress: Progress, path: &Path) -> Progress
    ensures { Goes K.taken K.faults sink.old sink.new progress result (path_print (path_tree path.now)) }
{
    let progress = text(sink, progress, path.root.text);
    print_steps(sink, progress, path.steps)
}
