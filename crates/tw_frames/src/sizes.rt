//! The numbers of bits of types, names, atoms and blocks, as counts that stop at the greatest `u64`.
ghost use Rattle.std.specs.Prelude.{◌≡◌, option_map};
ghost use Rattle.tw_syntax.specs.Names.{path_tree};
ghost use Rattle.tw_syntax.specs.Terms.{atom_tree};
ghost use Rattle.tw_syntax.specs.Types.{written_tree};
ghost use Rattle.tw_types.specs.FromCode.{ty_of};
ghost use Rattle.tw_types.specs.Types.{block_size, size};
ghost use Rattle.tw_resolve.specs.Resolved.{path_type_at, resolved_setting, type_at};
ghost use Rattle.tw_resolve.specs.Setting.{reported};
ghost use Rattle.tw_frames.specs.Found.{setting_of, types_of};
ghost use Rattle.tw_frames.specs.Sizes.{atom_size, name_size, type_size, written_size};

use crate::body::Body;
use tw_resolve::Resolved;
use tw_syntax::{Atom, AtomKind, Path, Written, WrittenKind};
use tw_types::{TargetId, Targets, Ty, Widths};

/// The number of bits of a type.
pub fn bits_of(ty: &Ty<'_>, widths: Widths) -> u64
    ensures { result ≡ reported (size widths (ty_of ty.now)) }
{
    match ty {
        Ty::Unit => 0,
        Ty::Uint => u64::from(widths.word),
        Ty::Bool => 1,
        Ty::Ptr(_) => u64::from(widths.addr),
        Ty::Pair(first, second) => bits_of(first, widths).saturating_add(bits_of(second, widths)),
    }
}

/// The number of bits of a type; 0 if there is none.
fn bits_of_known(ty: &Option<Ty<'_>>, widths: Widths) -> u64
    ensures { result ≡ reported (type_size widths (option_map ty_of ty.now)) }
{
    match ty {
        Some(ty) => bits_of(ty, widths),
        None => 0,
    }
}

/// The number of bits of a written type.
fn bits_of_written(program: &Resolved<'_>, written: &Written<'_>) -> u64
    ensures { result ≡ reported (written_size (resolved_setting program.now) (written_tree written.now)) }
{
    match &written.kind {
        WrittenKind::Unit => 0,
        WrittenKind::Uint => u64::from(program.widths().word),
        WrittenKind::Bool => 1,
        WrittenKind::Pair(first, second) => {
            bits_of_written(program, first).saturating_add(bits_of_written(program, second))
        }
        WrittenKind::Ptr(_) => u64::from(program.widths().addr),
        WrittenKind::Named(name) => bits_of_known(&program.named_type(name), program.widths()),
    }
}

/// The number of bits of a variable of a function; 0 if it has no such variable.
pub fn bits_of_name(body: &Body<'_, '_>, name: &str) -> u64
    ensures { result ≡ reported (name_size (setting_of body.now).widths (types_of body.now) name.now) }
{
    let ty = body.program.type_of(body.fun, name);
    bits_of_known(&ty, body.program.widths())
}

/// The number of bits of a path of a function; 0 if it leads nowhere.
pub fn bits_of_path(body: &Body<'_, '_>, path: &Path<'_>) -> u64
    ensures { result ≡ reported (type_size (setting_of body.now).widths (path_type_at (setting_of body.now) body.now.fun (path_tree path.now))) }
{
    let ty = body.program.type_of_path(body.fun, path);
    bits_of_known(&ty, body.program.widths())
}

/// The number of bits of an atom of a function.
pub fn bits_of_atom(body: &Body<'_, '_>, atom: &Atom<'_>) -> u64
    ensures { result ≡ reported (atom_size (setting_of body.now) (types_of body.now) (atom_tree atom.now)) }
{
    match &atom.kind {
        AtomKind::Place(path) => bits_of_path(body, path),
        AtomKind::Number(_) => u64::from(body.program.widths().word),
        AtomKind::True => 1,
        AtomKind::False => 1,
        AtomKind::Unit => 0,
        AtomKind::Null(_) => u64::from(body.program.widths().addr),
        AtomKind::Zero(written) => bits_of_written(body.program, written),
    }
}

/// The number of bits of a block: enough for an address and for each target.
pub fn bits_of_block(targets: &Targets<'_>, widths: Widths) -> u64
    ensures { result ≡ reported (block_size widths targets.now) }
{
    let mut most: u64 = 0;
    for number in 0..targets.len() {
        most = most.max(bits_of(&targets.ty(TargetId(number)), widths));
    }
    most.max(u64::from(widths.addr))
}
