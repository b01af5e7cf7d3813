//! The parser of lists of sums.

ghost use Rattle.std.specs.Prelude.{◌≡◌, ◌≤◌, IfOk, List};
ghost use Rattle.parse_laws.specs.declared.fault.Fault.{Fault as AnyFault};
ghost use Rattle.parse_laws.specs.declared.token.Token.{Token as AnyToken};
ghost use Rattle.parse_laws.specs.declared.tree.Sum.{Sum as AnySum};
ghost use Rattle.parse_laws.specs.declared.tree.Tall.{Tall as AnyTall};
ghost use Rattle.parse_laws.specs.Gives.{Gives};
ghost use Rattle.parse_laws.specs.Parser.{commit, refuse};
ghost use Rattle.parse_laws.specs.Exact.{FailsAt, whole};
ghost use Rattle.parse_laws.specs.Sums.{Spells, height};
ghost use Rattle.parse_laws.specs.Sums as grammar;
ghost use Rattle.parse_laws.specs.SumParser as spec;
ghost use Rattle.parse_laws.specs.Promise.{max_levels, Right, Is, Fails, Ends};

use crate::fault::{Fault, Refusal};
use crate::sum::chain;
use crate::token::{Token, next};
use crate::tree::{Sum, Tall};
use sqlite_items::Items;
use std::alloc::{AllocError, Global};

type Parsed<'a> = Result<(Tall<Sum>, &'a [Token]), Refusal<'a, Token>>;

type ParsedList<'a> = Result<(Tall<Items<Sum>>, &'a [Token]), Refusal<'a, Token>>;

fn alone(alloc: Global, first: Tall<Sum>) -> Result<Tall<Items<Sum>>, AllocError>
    ensures { IfOk result (λ all. all ≡ grammar.alone first) }
{
    let mut tree = Items::new(alloc);
    tree.push(first.tree)?;
    Ok(Tall {
        tree,
        height: first.height,
    })
}

fn is_comma(tokens: &[Token]) -> bool
    ensures { result ≡ spec.comma_comes tokens.now }
{
    matches!(next(tokens), Some((Token::Comma, _)))
}

// A comma, and one more sum.
fn behind_comma<'a>(alloc: Global, tokens: &'a [Token]) -> Parsed<'a>
    ensures gives { Gives result (commit (spec.behind_comma max_levels) refuse tokens.now) }
    ensures low { IfOk result (λ x. x.0.height ≤ max_levels) }
{
    match next(tokens) {
        Some((Token::Comma, rest)) => chain(alloc, 64, 2, rest),
        _ => Err(Refusal::At(Fault::Syntax, tokens)),
    }
}

#[tactic(auto, unfolding(crate::specs::SumParser::list))]
fn list<'a>(alloc: Global, tokens: &'a [Token]) -> ParsedList<'a>
    ensures { Gives result (spec.list max_levels tokens.now) }
{
    let (first, rest) = chain(alloc, 64, 2, tokens)?;
    let all = alone(alloc, first)?;
    more(alloc, all, rest)
}

// The sums behind those read so far.
fn more<'a>(alloc: Global, all: Tall<Items<Sum>>, tokens: &'a [Token]) -> ParsedList<'a>
    ensures { Gives result (spec.more_sums max_levels all tokens.now) }
{
    let mut tree = all.tree;
    let mut height = all.height;
    let mut rest = tokens;
    'turns: while is_comma(rest) {
        let (x, after) = behind_comma(alloc, rest)?;
        tree.push(x.tree)?;
        height = height.max(x.height);
        rest = after;
    }
    Ok((Tall { tree, height }, rest))
}

fn whole<'a>(alloc: Global, tokens: &'a [Token]) -> Result<Tall<Items<Sum>>, Refusal<'a, Token>>
    ensures { Ends result (whole (spec.list max_levels) tokens.now) }
{
    let (all, rest) = list(alloc, tokens)?;
    match rest {
        [] => Ok(all),
        _ => Err(Refusal::At(Fault::Syntax, rest)),
    }
}

/// The list of sums that the tokens spell, with its height, where that is at most 64.
///
/// Else `At` with the tokens from the failing one on: the first with which those so far begin no list
/// that is at most 64 levels deep. The fault is `TooDeep` where they still begin a deeper one, and
/// `Syntax` where they begin none, or where the text ends and is no list. `Memory` where memory runs out.
pub fn parse<'a>(alloc: Global, tokens: &'a [Token]) -> Result<Tall<Items<Sum>>, Refusal<'a, Token>>
    // What is answered is spelled, or the first failing token is named.
    ensures right { Right result tokens.now }
    // What is spelled is answered, unless memory runs out.
    ensures only { (all : AnyTall (List AnySum)) → Spells tokens.now all → all.height ≤ max_levels → Is result all }
    // Where a token fails, it is named, unless memory runs out.
    ensures fails { (f : AnyFault) (rest : List AnyToken) → FailsAt Spells height max_levels tokens.now f rest → Fails result f rest }
{
    whole(alloc, tokens)
}
