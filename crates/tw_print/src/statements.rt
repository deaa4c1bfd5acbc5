//! Printing statements.

ghost use Rattle.std.specs.Prelude.{◌≡◌, ◌<◌, ◌++◌, codes};
ghost use Rattle.tw_syntax.specs.Names.{name_tree, path_tree};
ghost use Rattle.tw_syntax.specs.Terms.{rhs_tree};
ghost use Rattle.tw_syntax.specs.Statements.{stmt_tree, stmts_tree, else_tree};
ghost use Rattle.tw_print.specs.Progress.{Goes};
ghost use Rattle.tw_print.specs.Terms.{path_print};
ghost use Rattle.tw_print.specs.Programs.{deeper, indent, arrow_print, let_print, swap_print, stmt_print};

use crate::progress::{Progress, text};
use crate::terms::print_rhs;
use crate::types::print_path;
use tw_io::Sink;
use tw_syntax::{Name, No, Path, Rhs, Stmt, StmtKind};

/// One brace deeper.
fn deeper(depth: u64) -> u64
    ensures { result ≡ deeper depth }
{
    depth.saturating_add(1)
}

/// The spaces that begin a line, if it is not deep.
fn spaces(depth: u64) -> &'static str
    requires { depth < 8 }
    ensures { result.now ≡ indent depth }
{
    match depth {
        0 => "",
        1 => "  ",
        2 => "    ",
        3 => "      ",
        4 => "        ",
        5 => "          ",
        6 => "            ",
        _ => "              ",
    }
}

/// Prints the spaces that begin a line.
fn print_indent<K: Sink>(sink: &mut K, progress: Progress, depth: u64) -> Progress
    ensures { Goes K.taken K.faults sink.old sink.new progress result (indent depth) }
{
    if depth < 8 {
        return text(sink, progress, spaces(depth));
    }
    let mut progress = progress;
    for _ in 0..depth {
        progress = text(sink, progress, "  ");
    }
    progress
}

/// Prints a line, which has its newline.
fn print_line<K: Sink>(sink: &mut K, progress: Progress, depth: u64, line: &str) -> Progress
    ensures { Goes K.taken K.faults sink.old sink.new progress result (indent depth ++ line.now) }
{
    let progress = print_indent(sink, progress, depth);
    text(sink, progress, line)
}

fn arrow(forward: bool) -> &'static str
    ensures { result.now ≡ arrow_print forward }
{
    if forward { " <- " } else { " -> " }
}

/// Prints a `let`, and ends the line.
fn print_let<K: Sink>(
    sink: &mut K,
    progress: Progress,
    forward: bool,
    target: &Name,
    rhs: &Rhs,
) -> Progress
    ensures { Goes K.taken K.faults sink.old sink.new progress result (let_print forward (name_tree target.now) (rhs_tree rhs.now) ++ codes "\n") }
{
    let progress = text(sink, progress, "let ");
    let progress = text(sink, progress, target.text);
    let progress = text(sink, progress, arrow(forward));
    let progress = print_rhs(sink, progress, rhs);
    text(sink, progress, ";\n")
}

/// Prints a swap, and ends the line.
fn print_swap<K: Sink>(sink: &mut K, progress: Progress, left: &Path, right: &Path) -> Progress
    ensures { Goes K.taken K.faults sink.old sink.new progress result (swap_print (path_tree left.now) (path_tree right.now) ++ codes "\n") }
{
    let progress = print_path(sink, progress, left);
    let progress = text(sink, progress, " <-> ");
    let progress = print_path(sink, progress, right);
    text(sink, progress, ";\n")
}

/// Prints a swap through a pointer, and ends the line.
fn print_mem_swap<K: Sink>(sink: &mut K, progress: Progress, left: &Path, right: &Path) -> Progress
    ensures { Goes K.taken K.faults sink.old sink.new progress result ((codes "*" ++ swap_print (path_tree left.now) (path_tree right.now)) ++ codes "\n") }
{
    let progress = text(sink, progress, "*");
    print_swap(sink, progress, left, right)
}

/// Prints a condition, and ends the line.
fn print_condition<K: Sink>(sink: &mut K, progress: Progress, cond: &Path) -> Progress
    ensures { Goes K.taken K.faults sink.old sink.new progress result ((codes "if " ++ (path_print (path_tree cond.now) ++ codes " {")) ++ codes "\n") }
{
    let progress = text(sink, progress, "if ");
    let progress = print_path(sink, progress, cond);
    text(sink, progress, " {\n")
}

/// Prints statements, each on lines of its own.
#[cycle(stmt)]
pub fn print_stmts<K: Sink>(
    sink: &mut K,
    progress: Progress,
    depth: u64,
    stmts: &[Stmt],
) -> Progress
    ensures { Goes K.taken K.faults sink.old sink.new progress result (stmt_print depth (stmts_tree stmts.now)) }
{
    let mut progress = progress;
    for stmt in stmts {
        progress = print_stmt(sink, progress, depth, stmt);
    }
    progress
}

/// Prints an `else`, if there is one.
#[cycle(stmt)]
fn print_else<K: Sink>(sink: &mut K, progress: Progress, depth: u64, no: &Option<No>) -> Progress
    ensures { Goes K.taken K.faults sink.old sink.new progress result (stmt_print depth (else_tree no.now)) }
{
    match no {
        None => progress,
        Some(other) => {
            let progress = print_line(sink, progress, depth, "} else {\n");
            print_stmts(sink, progress, deeper(depth), other.stmts)
        }
    }
}

/// Prints a statement.
#[cycle(stmt)]
fn print_stmt<K: Sink>(sink: &mut K, progress: Progress, depth: u64, stmt: &Stmt) -> Progress
    ensures { Goes K.taken K.faults sink.old sink.new progress result (stmt_print depth (stmt_tree stmt.now)) }
{
    match &stmt.kind {
        StmtKind::Let {
            forward,
            target,
            rhs,
        } => {
            let progress = print_indent(sink, progress, depth);
            print_let(sink, progress, *forward, target, rhs)
        }
        StmtKind::Swap(left, right) => {
            let progress = print_indent(sink, progress, depth);
            print_swap(sink, progress, left, right)
        }
        StmtKind::MemSwap(pointer, value) => {
            let progress = print_indent(sink, progress, depth);
            print_mem_swap(sink, progress, pointer, value)
        }
        StmtKind::If { cond, yes, no } => {
            let progress = print_indent(sink, progress, depth);
            let progress = print_condition(sink, progress, cond);
            let progress = print_stmts(sink, progress, deeper(depth), yes);
            let progress = print_else(sink, progress, depth, no);
            print_line(sink, progress, depth, "}\n")
        }
        StmtKind::With { setup, work } => {
            let inner = deeper(depth);
            let progress = print_line(sink, progress, depth, "with {\n");
            let progress = print_stmts(sink, progress, inner, setup);
            let progress = print_line(sink, progress, depth, "} do {\n");
            let progress = print_stmts(sink, progress, inner, work);
            print_line(sink, progress, depth, "}\n")
        }
        StmtKind::Block(body) => {
            let progress = print_line(sink, progress, depth, "{\n");
            let progress = print_stmts(sink, progress, deeper(depth), body);
            print_line(sink, progress, depth, "}\n")
        }
        StmtKind::Skip => print_line(sink, progress, depth, "skip;\n"),
    }
}
