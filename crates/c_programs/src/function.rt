//! The parser of functions. Each function reads what the function of its name in `specs/` does.

ghost use Rattle.std.specs.Prelude.{◌≡◌, ◌≤◌};
ghost use Rattle.c_expressions.specs.Gives.{sight, tall_of};
ghost use Rattle.c_statements.specs.Gives.{body_of};
ghost use Rattle.c_programs.specs.Gives.{GivesFunction};
ghost use Rattle.c_programs.specs.Parsers as spec;

use crate::tree::Defined;
use c_declarations::token::Read;
use c_declarations::tree::Head;
use c_expressions::expression::sign;
use c_expressions::tall::Tall;
use c_expressions::token::{Marked, Setting};
use c_lexer::Sign;
use c_statements::body::{Body, function_body};
use c_tree::Function;
use std::alloc::Global;

// The brace behind a body, and the function.
fn body_end<'a>(
    setting: Setting,
    head: Head,
    body: Tall<Body>,
    tokens: &'a [Marked],
) -> Read<'a, Tall<Defined>>
    ensures { GivesFunction result (spec.body_end (sight setting.entry) head (tall_of body_of body) tokens.now) }
{
    let (brace, rest) = sign(setting, Sign::RightBrace, tokens)?;
    let function = Function {
        name: head.name,
        kind: head.kind,
        params: head.params,
        body: body.tree.stmts,
        line: head.line,
        end_line: brace.line,
    };
    let tree = Defined {
        function,
        slots: body.tree.slots,
    };
    let levels = body.levels;
    Ok((Tall { tree, levels }, rest))
}

/// Reads what stands behind the head of a function: its body in braces, which may take `room` levels.
#[tactic(auto, unfolding(crate::specs::Parsers::function_behind))]
pub fn function_behind<'a>(
    alloc: Global,
    setting: Setting,
    room: u8,
    head: Head,
    tokens: &'a [Marked],
) -> Read<'a, Tall<Defined>>
    requires { room ≤ 64 }
    ensures { GivesFunction result (spec.function_behind (sight setting.entry) room head tokens.now) }
{
    let (_, rest) = sign(setting, Sign::LeftBrace, tokens)?;
    let (body, rest) = function_body(alloc, setting, head.kind, room, rest)?;
    body_end(setting, head, body, rest)
}
