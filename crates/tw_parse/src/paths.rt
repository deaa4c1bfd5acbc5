//! Paths.

ghost use Rattle.std.specs.Prelude.{◌≡◌};
ghost use Rattle.tw_syntax.specs.Names.{path_tree};
ghost use Rattle.tw_lex.specs.declared.symbol.Symbol.TheVariants as symbols;
ghost use Rattle.tw_lex.specs.Left.{left_of};
ghost use Rattle.tw_parse.specs.reading.Steps.{Returns, all_at, leads};
ghost use Rattle.tw_parse.specs.reading.Terms.{step_at, path_at};

use crate::error::ParseError;
use crate::take::{leads, take_component, take_name, take_symbol};
use bumpalo::collections::into_bump_slice;
use tw_lex::{Cursor, Symbol};
use tw_syntax::Path;
use tw_text::Arena;

/// A step to a half of a pair.
#[tactic(auto, unfolding(crate::specs::reading::Terms::step_at))]
fn step(cursor: &mut Cursor<'_>) -> Result<u8, ParseError>
    ensures { Returns (λ half. (half, left_of cursor.new)) result (step_at (left_of cursor.old)) }
{
    take_symbol(Symbol::Dot, cursor)?;
    take_component(cursor)
}

/// All steps that stand here.
fn steps<'a>(arena: &'a Arena, cursor: &mut Cursor<'_>) -> Result<&'a [u8], ParseError>
    ensures { Returns (λ x. (x.now, left_of cursor.new)) result (all_at (leads symbols.Dot) step_at (left_of cursor.old)) }
{
    let count = cursor.left();
    let mut steps = Vec::new(arena);
    for _ in 0..count {
        if !leads(Symbol::Dot, cursor) {
            return Ok(into_bump_slice(steps));
        }
        steps.push(step(cursor)?)?;
    }
    Ok(into_bump_slice(steps))
}

/// A path.
#[tactic(auto, unfolding(crate::specs::reading::Terms::path_at))]
pub fn path<'a>(arena: &'a Arena, cursor: &mut Cursor<'a>) -> Result<Path<'a>, ParseError>
    ensures { Returns (λ x. (path_tree x, left_of cursor.new)) result (path_at (left_of cursor.old)) }
{
    let root = take_name(cursor)?;
    let steps = steps(arena, cursor)?;
    Ok(Path { root, steps })
}
