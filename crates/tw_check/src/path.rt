//! Paths to parts of values.
ghost use Rattle.std.specs.Prelude.{◌≡◌};
ghost use Rattle.tw_syntax.specs.Names.{path_tree};
ghost use Rattle.tw_check.specs.Right.{overlap};

use tw_syntax::Path;

/// Whether one of two paths leads to a part of the other.
#[tactic(auto, using(crate::proofs::Prefixes::prefixes))]
pub fn overlap(left: &Path, right: &Path) -> bool
    ensures { result ≡ overlap (path_tree left.now) (path_tree right.now) }
{
    left.root.text == right.root.text
        && (right.steps.starts_with(left.steps) || left.steps.starts_with(right.steps))
}
