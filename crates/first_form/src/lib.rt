//! Programs of the first form: threads that add to ints and lock and unlock mutexes, and a main
//! that creates and joins them. Where no lock of one is nested, its threads never block in a circle.
//!
//! `instrument` takes these programs alone so far. The crate goes when it takes every program whose
//! sets of mutexes are covered.
#![tactic(auto)]

ghost use Rattle.std.specs.Prelude.{◌≡◌, IfOk};
ghost use Rattle.c_tree.specs.Lined.{program_of, bare_program};
ghost use Rattle.first_form.specs.FirstForm.{is_first_form, first_nested};
ghost use Rattle.first_form.specs.Size.{has_first_text};

mod form;
mod law;
mod locks;
mod main_body;
mod names;
mod scope;
mod size;

use c_tree::Program;
use form::{has_balanced_locks, has_first_declarations, has_first_functions, has_good_names};
pub use law::one_lock_at_a_time;
use locks::nested_line;
use scope::Scope;
use size::has_short_text;
use std::alloc::{AllocError, Global};

/// Whether a program is of the first form: its declarations, names, functions and locks are as
/// `specs/FirstForm.antt` says. The one error is want of memory.
pub fn is_first_form(alloc: Global, p: &Program) -> Result<bool, AllocError>
    ensures { IfOk result (λ b. b ≡ is_first_form (bare_program (program_of p.now))) }
{
    if !has_first_declarations(p) || !has_good_names(alloc, p)? {
        return Ok(false);
    }
    let scope = Scope::new(alloc, p)?;
    if !has_first_functions(alloc, &scope, p.functions.as_slice())? {
        return Ok(false);
    }
    has_balanced_locks(alloc, &scope, p.functions.as_slice())
}

/// Whether some text of the first form spells a program: it is of the first form, and that text has at most 65,536
/// tokens. The one error is want of memory.
pub fn has_first_text(alloc: Global, p: &Program) -> Result<bool, AllocError>
    ensures { IfOk result (λ b. b ≡ has_first_text (bare_program (program_of p.now))) }
{
    Ok(is_first_form(alloc, p)? && has_short_text(p))
}

/// The line of the first lock, in the order of the functions, that stands where its function has
/// another lock above that isn't unlocked since, and `None` exactly where no lock is nested. The
/// one error is want of memory.
pub fn first_nested(alloc: Global, p: &Program) -> Result<Option<u32>, AllocError>
    ensures { IfOk result (λ line. line ≡ first_nested (program_of p.now)) }
{
    let scope = Scope::new(alloc, p)?;
    for f in p.functions.as_slice() {
        if let Some(line) = nested_line(alloc, &scope, f.body.as_slice())? {
            return Ok(Some(line));
        }
    }
    Ok(None)
}
