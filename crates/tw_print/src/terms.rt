//! Printing atoms, expressions and right sides.

ghost use Rattle.std.specs.Prelude.{◌≡◌, ◌++◌, codes, map};
ghost use Rattle.std.specs.Option.{option_map};
ghost use Rattle.tw_syntax.specs.Names.{name_tree};
ghost use Rattle.tw_syntax.specs.Types.{written_tree};
ghost use Rattle.tw_syntax.specs.Terms.{atom_tree, expr_tree, bound_tree, rhs_tree};
ghost use Rattle.tw_print.specs.Progress.{Goes};
ghost use Rattle.tw_print.specs.Terms.{type_print, atom_print, op_print, expr_print, bound_print, call_bound_print, more_names_print, names_print, rhs_print};

use crate::progress::{Progress, number, text};
use crate::types::{print_path, print_type};
use tw_io::Sink;
use tw_syntax::{Atom, AtomKind, Bound, Expr, ExprKind, Name, OpKind, Rhs, Written};

/// Prints a type in angle brackets, after a keyword.
fn print_angled<K: Sink>(sink: &mut K, progress: Progress, word: &str, ty: &Written) -> Progress
    ensures { Goes K.taken K.faults sink.old sink.new progress result (word.now ++ (type_print (written_tree ty.now) ++ codes ">")) }
{
    let progress = text(sink, progress, word);
    let progress = print_type(sink, progress, ty);
    text(sink, progress, ">")
}

fn print_atom<K: Sink>(sink: &mut K, progress: Progress, atom: &Atom) -> Progress
    ensures { Goes K.taken K.faults sink.old sink.new progress result (atom_print (atom_tree atom.now)) }
{
    match &atom.kind {
        AtomKind::Place(path) => print_path(sink, progress, path),
        AtomKind::Number(value) => number(sink, progress, *value),
        AtomKind::True => text(sink, progress, "true"),
        AtomKind::False => text(sink, progress, "false"),
        AtomKind::Unit => text(sink, progress, "()"),
        AtomKind::Null(ty) => print_angled(sink, progress, "null<", ty),
        AtomKind::Zero(ty) => print_angled(sink, progress, "default<", ty),
    }
}

fn op_text(op: OpKind) -> &'static str
    ensures { result.now ≡ op_print op }
{
    match op {
        OpKind::Add => "+",
        OpKind::Sub => "-",
        OpKind::Mul => "*",
        OpKind::Lt => "<",
        OpKind::Eq => "==",
        OpKind::Ne => "!=",
        OpKind::And => "&&",
        OpKind::Or => "||",
    }
}

fn print_expr<K: Sink>(sink: &mut K, progress: Progress, expr: &Expr) -> Progress
    ensures { Goes K.taken K.faults sink.old sink.new progress result (expr_print (expr_tree expr.now)) }
{
    match &expr.kind {
        ExprKind::One(atom) => print_atom(sink, progress, atom),
        ExprKind::Two(first, second) => {
            let progress = text(sink, progress, "(");
            let progress = print_atom(sink, progress, first);
            let progress = text(sink, progress, ", ");
            let progress = print_atom(sink, progress, second);
            text(sink, progress, ")")
        }
        ExprKind::Not(atom) => {
            let progress = text(sink, progress, "not ");
            print_atom(sink, progress, atom)
        }
        ExprKind::Op(op, left, right) => {
            let progress = print_atom(sink, progress, left);
            let progress = text(sink, progress, " ");
            let progress = text(sink, progress, op_text(*op));
            let progress = text(sink, progress, " ");
            print_atom(sink, progress, right)
        }
    }
}

fn print_bound<K: Sink>(sink: &mut K, progress: Progress, bound: &Bound) -> Progress
    ensures { Goes K.taken K.faults sink.old sink.new progress result (bound_print (bound_tree bound.now)) }
{
    match bound {
        Bound::Fixed(value) => number(sink, progress, u64::from(*value)),
        Bound::Same(name) => text(sink, progress, name.text),
        Bound::Less(name, value) => {
            let progress = text(sink, progress, name.text);
            let progress = text(sink, progress, " - ");
            number(sink, progress, u64::from(*value))
        }
    }
}

fn print_call_bound<K: Sink>(sink: &mut K, progress: Progress, bound: &Option<Bound>) -> Progress
    ensures { Goes K.taken K.faults sink.old sink.new progress result (call_bound_print (option_map bound_tree bound.now)) }
{
    match bound {
        None => progress,
        Some(bound) => {
            let progress = text(sink, progress, "[");
            let progress = print_bound(sink, progress, bound);
            text(sink, progress, "]")
        }
    }
}

fn print_more_names<K: Sink>(sink: &mut K, progress: Progress, names: &[Name]) -> Progress
    ensures { Goes K.taken K.faults sink.old sink.new progress result (more_names_print (map name_tree names.now)) }
{
    let mut progress = progress;
    for name in names {
        progress = text(sink, progress, ", ");
        progress = text(sink, progress, name.text);
    }
    progress
}

fn print_names<K: Sink>(sink: &mut K, progress: Progress, names: &[Name]) -> Progress
    ensures { Goes K.taken K.faults sink.old sink.new progress result (names_print (map name_tree names.now)) }
{
    match names {
        [] => progress,
        [first, rest @ ..] => {
            let progress = text(sink, progress, first.text);
            print_more_names(sink, progress, rest)
        }
    }
}

/// Prints the right side of a `let`.
pub fn print_rhs<K: Sink>(sink: &mut K, progress: Progress, rhs: &Rhs) -> Progress
    ensures { Goes K.taken K.faults sink.old sink.new progress result (rhs_print (rhs_tree rhs.now)) }
{
    match rhs {
        Rhs::Expr(expr) => print_expr(sink, progress, expr),
        Rhs::Call {
            callee,
            bound,
            args,
        } => {
            let progress = text(sink, progress, callee.text);
            let progress = print_call_bound(sink, progress, bound);
            let progress = text(sink, progress, "(");
            let progress = print_names(sink, progress, args);
            text(sink, progress, ")")
        }
        Rhs::Alloc(ty) => print_angled(sink, progress, "alloc<", ty),
    }
}
