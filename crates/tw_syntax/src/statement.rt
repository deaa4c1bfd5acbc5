//! Statements.
ghost use Rattle.std.specs.Prelude.{◌≡◌, Some};
ghost use Rattle.tw_syntax.specs.Statements.{stmt_tree, stmts_tree, else_tree, Else, IfStmt, WithStmt, BlockStmt};
ghost use Rattle.tw_syntax.specs.Names.{path_tree};

use crate::name::{Name, Path};
use crate::term::Rhs;
use tw_text::Pos;

/// A statement and its place.
#[derive(Clone, Copy)]
#[cycle(statement)]
pub struct Stmt<'a> {
    pub at: Pos,
    pub kind: StmtKind<'a>,
}

/// The forms of a statement.
#[derive(Clone, Copy)]
#[cycle(statement)]
pub enum StmtKind<'a> {
    /// `forward` is true for an assignment, and false for an un-assignment.
    Let {
        forward: bool,
        target: Name<'a>,
        rhs: Rhs<'a>,
    },
    Swap(Path<'a>, Path<'a>),
    /// A pointer, and what is exchanged with the value that it points to.
    MemSwap(Path<'a>, Path<'a>),
    If {
        cond: Path<'a>,
        yes: &'a [Stmt<'a>],
        no: Option<No<'a>>,
    },
    With {
        setup: &'a [Stmt<'a>],
        work: &'a [Stmt<'a>],
    },
    Block(&'a [Stmt<'a>]),
    Skip,
}

/// An `else`, and the place of this keyword.
#[derive(Clone, Copy)]
#[cycle(statement)]
pub struct No<'a> {
    pub at: Pos,
    pub stmts: &'a [Stmt<'a>],
}

/// The block of these statements, in order.
pub fn block<'a>(at: Pos, body: &'a [Stmt<'a>]) -> Stmt<'a>
    ensures { stmt_tree result ≡ BlockStmt at (stmts_tree body.now) }
{
    Stmt {
        at,
        kind: StmtKind::Block(body),
    }
}

/// The choice between these statements by a condition.
pub fn choice<'a>(at: Pos, cond: Path<'a>, yes: &'a [Stmt<'a>], no: Option<No<'a>>) -> Stmt<'a>
    ensures { stmt_tree result ≡ IfStmt at (path_tree cond.entry) (stmts_tree yes.now) (else_tree no.entry) }
{
    Stmt {
        at,
        kind: StmtKind::If { cond, yes, no },
    }
}

/// The `else` with these statements.
pub fn otherwise<'a>(at: Pos, stmts: &'a [Stmt<'a>]) -> No<'a>
    ensures { else_tree (Some result) ≡ Else at (stmts_tree stmts.now) }
{
    No { at, stmts }
}

/// A setup, the work after it, and the setup undone.
pub fn with_block<'a>(at: Pos, setup: &'a [Stmt<'a>], work: &'a [Stmt<'a>]) -> Stmt<'a>
    ensures { stmt_tree result ≡ WithStmt at (stmts_tree setup.now) (stmts_tree work.now) }
{
    Stmt {
        at,
        kind: StmtKind::With { setup, work },
    }
}
