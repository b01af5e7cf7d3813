//! Texts of programs that may be started.
#![tactic(auto)]

ghost use Rattle.std.specs.Prelude.{IfSome};
ghost use Rattle.c_canonical.specs.ShapedPrograms.{ShapedProgram};
ghost use Rattle.c_tree.specs.Lined.{bare_program, program_of};
ghost use Rattle.state_parts.specs.Accepted.{Accepted};
ghost use Rattle.state_parts.specs.Small.{AreSmall};

use c_canonical::spelled_is_shaped;
use c_check::check;
use c_parser::parse;
use c_tree::{Mode, Program};
use spelled_numbers::spelled_is_small;
use std::alloc::Global;

/// The longest text that is read, in bytes.
pub const LONGEST: usize = 1000000;

/// The program that a text spells, where it breaks no rule of programs that may have monitors. None where
/// the text is longer than [`LONGEST`], spells no program, breaks a rule or has too much of something,
/// and where memory is wanted.
pub fn accepted(alloc: Global, text: &[u8]) -> Option<Program>
    ensures accepted { IfSome result Accepted }
    ensures small { IfSome result AreSmall }
    ensures shaped { IfSome result (λ p. ShapedProgram (bare_program (program_of p))) }
{
    if text.len() > LONGEST {
        return None;
    }
    spelled_is_small();
    spelled_is_shaped();
    let Ok(program) = parse(alloc, text) else {
        return None;
    };
    match check(alloc, &program, Mode::Any) {
        Ok(_) => Some(program),
        Err(_) => None,
    }
}
