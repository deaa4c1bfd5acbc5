//! The statements of a function with their numbers.
ghost use Rattle.std.specs.Prelude.{◌≡◌, IfOk};
ghost use Rattle.tw_syntax.specs.Statements.{else_tree, stmt_tree, stmts_tree};
ghost use Rattle.tw_resolve.specs.Resolved.{resolved_setting};
ghost use Rattle.tw_interp.specs.Numbered.{AreKnown, AreNumbered, IsElse, IsNumbered, numbered_names};
ghost use Rattle.tw_interp.specs.NumberedTrees.{other_tree, step_tree, steps_tree};

use crate::numbered::{Action, Other, Step};
use crate::numbering::Numbering;
use bumpalo::collections::into_bump_slice;
use std::alloc::AllocError;
use tw_syntax::{No, Stmt, StmtKind};

/// The statements with their numbers, in the arena. An error: out of memory.
#[cycle(prepare)]
pub fn prepare<'c, 'a>(
    numbering: &Numbering<'c, 'a>,
    stmts: &[Stmt<'a>],
) -> Result<&'c [Step<'c, 'a>], AllocError>
    ensures tree { IfOk result (λ steps. steps_tree steps.now ≡ stmts_tree stmts.now) }
    ensures number { IfOk result (λ steps. AreKnown (numbered_names (resolved_setting numbering.now.program.now) numbering.now.fun) (stmts_tree stmts.now) → AreNumbered (resolved_setting numbering.now.program.now) numbering.now.fun steps.now) }
{
    let mut steps = Vec::with_capacity(numbering.arena, stmts.len())?;
    for stmt in stmts {
        steps.push(prepare_stmt(numbering, stmt)?)?;
    }
    Ok(into_bump_slice(steps))
}

/// An `else` with its numbers, if there is one. An error: out of memory.
#[cycle(prepare)]
fn prepare_else<'c, 'a>(
    numbering: &Numbering<'c, 'a>,
    no: &Option<No<'a>>,
) -> Result<Option<Other<'c, 'a>>, AllocError>
    ensures tree { IfOk result (λ other. other_tree other ≡ else_tree no.now) }
    ensures number { IfOk result (λ other. AreKnown (numbered_names (resolved_setting numbering.now.program.now) numbering.now.fun) (else_tree no.now) → IsElse (resolved_setting numbering.now.program.now) numbering.now.fun other) }
{
    match no {
        Some(other) => {
            let steps = prepare(numbering, other.stmts)?;
            Ok(Some(Other {
                at: other.at,
                steps,
            }))
        }
        None => Ok(None),
    }
}

/// A statement with its numbers. An error: out of memory.
#[cycle(prepare)]
fn prepare_stmt<'c, 'a>(
    numbering: &Numbering<'c, 'a>,
    stmt: &Stmt<'a>,
) -> Result<Step<'c, 'a>, AllocError>
    ensures tree { IfOk result (λ step. step_tree step ≡ stmt_tree stmt.now) }
    ensures number { IfOk result (λ step. AreKnown (numbered_names (resolved_setting numbering.now.program.now) numbering.now.fun) (stmt_tree stmt.now) → IsNumbered (resolved_setting numbering.now.program.now) numbering.now.fun step) }
{
    let at = stmt.at;
    match &stmt.kind {
        StmtKind::Let {
            forward,
            target,
            rhs,
        } => {
            let target = numbering.var(target);
            let source = numbering.source(rhs)?;
            let forward = *forward;
            let action = Action::Let {
                forward,
                target,
                source,
            };
            Ok(Step { at, action })
        }
        StmtKind::Swap(left, right) => {
            let action = Action::Swap(numbering.path(left), numbering.path(right));
            Ok(Step { at, action })
        }
        StmtKind::MemSwap(pointer, place) => {
            let action = Action::MemSwap {
                pointer: numbering.path(pointer),
                place: numbering.path(place),
                target: numbering.pointed(pointer),
            };
            Ok(Step { at, action })
        }
        StmtKind::If { cond, yes, no } => {
            let cond = numbering.path(cond);
            let yes = prepare(numbering, yes)?;
            let no = prepare_else(numbering, no)?;
            let action = Action::If { cond, yes, no };
            Ok(Step { at, action })
        }
        StmtKind::With { setup, work } => {
            let setup = prepare(numbering, setup)?;
            let work = prepare(numbering, work)?;
            let action = Action::With { setup, work };
            Ok(Step { at, action })
        }
        StmtKind::Block(body) => {
            let action = Action::Block(prepare(numbering, body)?);
            Ok(Step { at, action })
        }
        StmtKind::Skip => Ok(Step {
            at,
            action: Action::Skip,
        }),
    }
}
