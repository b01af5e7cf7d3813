//! The parser of programs. Each function reads what the function of its name in `specs/` does.

ghost use Rattle.std.specs.Prelude.{◌≡◌, ◌≤◌, ◌∷◌, length, Result};
ghost use Rattle.c_tree.specs.Lined.{program_of};
ghost use Rattle.parse_laws.specs.Parser.{commit, loop, moved, refuse};
ghost use Rattle.c_expressions.specs.Gives.{sight, tall_of};
ghost use Rattle.c_programs.specs.Gives.{GivesProgram, GivesReading, reading_of, views};
ghost use Rattle.c_programs.specs.Gives as gives;
ghost use Rattle.c_programs.specs.Parsers as spec;

use crate::outer::{ReadProgram, ints_added, outer};
use crate::token::{Free, Opening, after_what, all_free, goes, outer_opening, setting};
use crate::tree::{Reading, empty_program};
use c_declarations::token::Read;
use c_expressions::tall::Tall;
use c_expressions::token::Marked;
use c_tree::Program;
use parse_laws::fault::{Fault, Refusal};
use parse_laws::token::next;
use std::alloc::Global;

// One more of what stands outside functions, or a definition.
fn turn<'a>(
    alloc: Global,
    text: &[u8],
    room: u8,
    reading: Reading,
    tokens: &'a [Marked],
) -> Read<'a, Reading>
    requires room { room ≤ 64 }
    requires few { length tokens.now ≤ 65536 }
    ensures { GivesReading result (commit (spec.turn (views text.now) room (reading_of reading)) refuse tokens.now) }
{
    let Some((token, rest)) = next(tokens) else {
        return Err(Refusal::At(Fault::Syntax, tokens));
    };
    let begins = outer_opening(token.what);
    let Reading { defined, program } = reading;
    if begins == Opening::Definition {
        let defined = after_what(defined, token.what);
        return Ok((Reading { defined, program }, rest));
    }
    let here = setting(text, defined);
    let (program, rest) = outer(alloc, here, room, program, token, begins, tokens, rest)?;
    Ok((Reading { defined, program }, rest))
}

// Something outside functions comes.
fn outer_comes(text: &[u8], free: Free, tokens: &[Marked]) -> bool
    ensures { result ≡ spec.outer_comes (gives.sight_of text.now free) tokens.now }
{
    match next(tokens) {
        Some((token, _)) => {
            let here = setting(text, free);
            goes(here.declarations, outer_opening(token.what))
        }
        None => false,
    }
}

// What the text begins with, if that is `int`.
#[tactic(auto, unfolding(crate::specs::Parsers::first_part))]
fn first_part<'a>(
    alloc: Global,
    text: &[u8],
    room: u8,
    program: Tall<Program>,
    tokens: &'a [Marked],
) -> ReadProgram<'a>
    requires { room ≤ 64 }
    ensures { GivesProgram result (spec.first_part (views text.now) room (tall_of program_of program) tokens.now) }
{
    if let Some((token, rest)) = next(tokens) {
        if outer_opening(token.what) == Opening::Int {
            let here = setting(text, all_free());
            return ints_added(alloc, here, room, true, token.line, program, rest);
        }
    }
    Ok((program, tokens))
}

// All that stands behind what was read so far.
fn outer_parts<'a>(
    alloc: Global,
    text: &[u8],
    room: u8,
    reading: Reading,
    tokens: &'a [Marked],
) -> Read<'a, Reading>
    requires room { room ≤ 64 }
    requires few { length tokens.now ≤ 65536 }
    ensures { GivesReading result (loop (spec.turn (views text.now) room) (reading_of reading) tokens.now) }
{
    let mut reading = reading;
    let mut rest = tokens;
    'turns: while outer_comes(text, reading.defined, rest) {
        let (more, after) = turn(alloc, text, room, reading, rest)?;
        reading = more;
        rest = after;
    }
    Ok((reading, rest))
}

/// Reads a program from the tokens of a text, in a file that ends on this line. Its functions may take `room`
/// levels. It ends before a token that begins nothing outside functions.
#[tactic(auto, unfolding(crate::specs::Parsers::program))]
pub fn program<'a>(
    alloc: Global,
    text: &[u8],
    room: u8,
    end: u32,
    tokens: &'a [Marked],
) -> ReadProgram<'a>
    requires room { room ≤ 64 }
    requires few { length tokens.now ≤ 65536 }
    ensures { GivesProgram result (spec.program (views text.now) room end tokens.now) }
{
    let program = empty_program(alloc, end);
    let (program, rest) = first_part(alloc, text, room, program, tokens)?;
    let reading = Reading {
        defined: all_free(),
        program,
    };
    let (reading, rest) = outer_parts(alloc, text, room, reading, rest)?;
    Ok((reading.program, rest))
}
