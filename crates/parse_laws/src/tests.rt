use crate::fault::{Fault, Refusal};
use crate::parse::parse;
use crate::token::Token::{Comma, LParen, Minus, Number, Plus, RParen, Times};
use crate::token::{Token, next};
use crate::tree::{Operator, Sum};
use std::test::*;

#[test]
fn products_bind_tighter_and_all_group_to_the_left(rt: HostRuntime) -> Result<(), Fail> {
    let tokens = [
        Number(1),
        Plus,
        Number(2),
        Times,
        Number(3),
        Plus,
        Number(4),
        Comma,
        LParen,
        RParen,
    ];
    assert!(rt; matches!(next(&tokens), Some((Number(1), _))));
    let all = parse(rt.alloc(), &tokens).ok().ok_or("a list")?;
    assert_eq!(rt; all.tree.len(), 2);
    assert_eq!(rt; all.height, 3);
    match all.tree.get(0) {
        Some(Sum::Binary(Operator::Plus, left, right)) => {
            assert!(rt; matches!(left.get(), Sum::Binary(Operator::Plus, _, _)));
            assert!(rt; matches!(right.get(), Sum::Number(4)));
        }
        _ => assert!(rt; false),
    }
    Ok(())
}

// how many tokens are left from the failing one on
fn failing(rt: HostRuntime, tokens: &[Token]) -> Option<(Fault, usize)> {
    match parse(rt.alloc(), tokens) {
        Err(Refusal::At(fault, rest)) => Some((fault, rest.len())),
        _ => None,
    }
}

#[test]
fn the_first_failing_token_is_named(rt: HostRuntime) {
    // the end comes too early
    assert_eq!(rt; failing(rt, &[]), Some((Fault::Syntax, 0)));
    assert_eq!(rt; failing(rt, &[Number(1), Comma]), Some((Fault::Syntax, 0)));
    // a token that goes on with nothing
    assert_eq!(rt; failing(rt, &[Plus, Number(1)]), Some((Fault::Syntax, 2)));
    assert_eq!(rt;
        failing(rt, &[Number(1), Number(2), Comma]),
        Some((Fault::Syntax, 2))
    );
    assert_eq!(rt;
        failing(rt, &[LParen, Number(1), Comma]),
        Some((Fault::Syntax, 1))
    );
    assert_eq!(rt; failing(rt, &[Number(1), RParen]), Some((Fault::Syntax, 1)));
}

#[test]
fn sixty_four_levels_and_no_more(rt: HostRuntime) -> Result<(), Fail> {
    let mut tokens = vec![in rt.alloc(); Minus; 64]?;
    tokens.push(Number(1))?;
    assert_eq!(rt; failing(rt, &tokens), None);
    // a sign at level 64 can only go on to something too deep
    let mut deeper = vec![in rt.alloc(); Minus; 65]?;
    deeper.push(Number(1))?;
    assert_eq!(rt; failing(rt, &deeper), Some((Fault::TooDeep, 2)));
    // a parenthesis there may close at once
    let mut open = vec![in rt.alloc(); Minus; 64]?;
    open.push(LParen)?;
    open.push(RParen)?;
    assert_eq!(rt; failing(rt, &open), None);
    open.push(Plus)?;
    assert_eq!(rt; failing(rt, &open), Some((Fault::TooDeep, 1)));
    Ok(())
}
