//! The test whether written types are equal but for their places.
ghost use Rattle.std.specs.Prelude.{◌≡◌};
ghost use Rattle.tw_syntax.specs.Types.{written_tree};
ghost use Rattle.tw_syntax.specs.Same.{same_written};

use crate::written::{Written, WrittenKind};

/// Whether two written types are equal but for their places.
pub fn same_written(x: &Written, y: &Written) -> bool
    ensures { result ≡ same_written (written_tree x.now) (written_tree y.now) }
{
    match &x.kind {
        WrittenKind::Unit => match &y.kind {
            WrittenKind::Unit => true,
            _ => false,
        },
        WrittenKind::Uint => match &y.kind {
            WrittenKind::Uint => true,
            _ => false,
        },
        WrittenKind::Bool => match &y.kind {
            WrittenKind::Bool => true,
            _ => false,
        },
        WrittenKind::Pair(a, b) => match &y.kind {
            WrittenKind::Pair(c, d) => same_written(a, c) && same_written(b, d),
            _ => false,
        },
        WrittenKind::Ptr(to) => match &y.kind {
            WrittenKind::Ptr(other) => same_written(to, other),
            _ => false,
        },
        WrittenKind::Named(name) => match &y.kind {
            WrittenKind::Named(other) => name == other,
            _ => false,
        },
    }
}
