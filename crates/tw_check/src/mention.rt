//! The variables that statements mention.
ghost use Rattle.std.specs.Prelude.{◌≡◌, [], ◌∷◌, ◌++◌, OnOk};
ghost use Rattle.tw_syntax.specs.Statements.{stmt_tree, stmts_tree, else_tree};
ghost use Rattle.tw_check.specs.Liveness.{names_of};
ghost use Rattle.tw_check.specs.Walks.{texts_of};

use crate::variable::push_variables;
use std::alloc::AllocError;
use tw_syntax::{Name, No, Path, Stmt, StmtKind};

/// About how many variables a statement mentions. A list gets room for so many, and grows if there are more.
const NAMES_OF_STATEMENT: usize = 4;

/// Appends the roots of two paths. An error: out of memory.
fn push_roots<'a>(
    names: &mut Vec<Name<'a>>,
    left: &Path<'a>,
    right: &Path<'a>,
) -> Result<(), AllocError>
    ensures { OnOk result (texts_of names.new.items ≡ texts_of names.old.items ++ (left.now.root.text.now ∷ right.now.root.text.now ∷ [])) }
{
    names.push(left.root)?;
    names.push(right.root)?;
    Ok(())
}

/// Appends all variables that statements mention, in the order of the text. An error: out of memory.
#[cycle(mention)]
pub fn push_mentioned<'a>(names: &mut Vec<Name<'a>>, stmts: &[Stmt<'a>]) -> Result<(), AllocError>
    ensures { OnOk result (texts_of names.new.items ≡ texts_of names.old.items ++ names_of (stmts_tree stmts.now)) }
{
    names.reserve(stmts.len().saturating_mul(NAMES_OF_STATEMENT))?;
    for stmt in stmts {
        push_of_stmt(names, stmt)?;
    }
    Ok(())
}

/// Appends all variables that an `else` mentions, if it is there. An error: out of memory.
#[cycle(mention)]
fn push_of_else<'a>(names: &mut Vec<Name<'a>>, no: &Option<No<'a>>) -> Result<(), AllocError>
    ensures { OnOk result (texts_of names.new.items ≡ texts_of names.old.items ++ names_of (else_tree no.now)) }
{
    match no {
        None => Ok(()),
        Some(other) => push_mentioned(names, other.stmts),
    }
}

/// Appends all variables that a statement mentions. An error: out of memory.
#[cycle(mention)]
fn push_of_stmt<'a>(names: &mut Vec<Name<'a>>, stmt: &Stmt<'a>) -> Result<(), AllocError>
    ensures { OnOk result (texts_of names.new.items ≡ texts_of names.old.items ++ names_of (stmt_tree stmt.now)) }
{
    match &stmt.kind {
        StmtKind::Let { target, rhs, .. } => {
            names.push(*target)?;
            push_variables(names, rhs)
        }
        StmtKind::Swap(left, right) => push_roots(names, left, right),
        StmtKind::MemSwap(pointer, value) => push_roots(names, pointer, value),
        StmtKind::If { cond, yes, no } => {
            names.push(cond.root)?;
            push_mentioned(names, yes)?;
            push_of_else(names, no)
        }
        StmtKind::With { setup, work } => {
            push_mentioned(names, setup)?;
            push_mentioned(names, work)
        }
        StmtKind::Block(body) => push_mentioned(names, body),
        StmtKind::Skip => Ok(()),
    }
}
