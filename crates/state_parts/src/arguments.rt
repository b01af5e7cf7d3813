// The values of arguments.
ghost use Rattle.std.specs.Prelude.{◌≡◌, ◌++◌, IfOk, option_map};
ghost use Rattle.c_tree.specs.Expressions.{exprs_of};
ghost use Rattle.c_meaning.specs.Numbers.{HaveSmallNumbers};
ghost use Rattle.c_meaning.specs.Places.{evaluated_all};
ghost use Rattle.c_meaning.specs.Shown.{shown};
ghost use Rattle.c_meaning.specs.State as run;
ghost use Rattle.c_frames.specs.Frames.{locals_in};

use crate::view::View;
use c_tree::Expr;
use std::alloc::AllocError;

/// These values and those of expressions, and none where one of them is undefined. The one error is want of memory.
pub fn more_values(
    view: &View,
    es: &[Expr],
    mut all: Vec<i32>,
) -> Result<Option<Vec<i32>>, AllocError>
    requires { HaveSmallNumbers (exprs_of es.now) }
    ensures { IfOk result (λ values. (s : run.State) → s.cells ≡ view.now.cells.now
        → option_map (λ v. v.items) values
        ≡ option_map (λ zs. all.items ++ zs) (evaluated_all (shown view.now.program.now) s (locals_in view.now.names.now view.now.frame.now) (exprs_of es.now))) }
{
    let Some((e, rest)) = es.split_first() else {
        return Ok(Some(all));
    };
    match view.value(e) {
        None => Ok(None),
        Some(z) => {
            all.push(z)?;
            more_values(view, rest, all)
        }
    }
}
