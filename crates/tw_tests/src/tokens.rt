//! The tokens of a text, found at once with ample memory. Commands take them one by one.
use std::test::Fail;
use tw_lex::{Symbol, TokenKind, tokens};
use tw_text::Pos;

#[test]
fn a_text_has_tokens(rt: HostRuntime) -> Result<(), Fail> {
    let wanted = [
        (TokenKind::Name, Pos { line: 1, col: 1 }),
        (TokenKind::Mark(Symbol::Assign), Pos { line: 1, col: 3 }),
        (TokenKind::Number(7), Pos { line: 2, col: 2 }),
    ];
    let found = tokens(rt.alloc(), "λ1<- // c\n 7")?;
    let are_same = found.len() == 3
        && (0..3).all(|i| found[i].kind == wanted[i].0 && found[i].at == wanted[i].1);
    assert!(rt; are_same);
    Ok(())
}
