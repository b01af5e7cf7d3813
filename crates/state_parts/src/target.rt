// What an assignment, a read or a call's result changes.
ghost use Rattle.std.specs.Prelude.{◌≡◌, option_map, IfSome};
ghost use Rattle.c_tree.specs.Expressions.{value_of, place_of};
ghost use Rattle.c_meaning.specs.Shown.{shown};
ghost use Rattle.c_meaning.specs.State as run;
ghost use Rattle.c_meaning.specs.Places.{scalar_target, target_at};
ghost use Rattle.c_frames.specs.Frames.{locals_in};
ghost use Rattle.c_tree.specs.Numbering.{scalar_cell};
ghost use Rattle.state_parts.specs.Small.{IsSmallIfAny};
ghost use Rattle.state_parts.specs.Targets.{shown_target, IsTargetOf};

use crate::view::View;
use c_tree::{Name, Place};

/// What an assignment, a read or a call's result changes.
#[derive(Clone, Copy)]
pub enum Target<'a> {
    /// A cell.
    Cell(usize),
    /// A local of this name.
    Local(&'a [u8]),
}

/// The target that a scalar is.
fn scalar_target<'b>(view: &View, name: &'b Name) -> Target<'b>
    ensures is { shown_target result ≡ scalar_target name.now (scalar_cell (shown view.now.program.now) name.now) }
    ensures named { IsTargetOf name.now result }
{
    match view.scalar_cell(name.as_slice()) {
        Some(cell) => Target::Cell(cell),
        None => Target::Local(name.as_slice()),
    }
}

/// The target at a place, and none where the place is undefined.
pub fn find_target<'b>(view: &View, place: &'b Place) -> Option<Target<'b>>
    requires { IsSmallIfAny (value_of place.now.index) }
    ensures named { IfSome result (IsTargetOf place.now.name) }
    ensures is { (s : run.State) → s.cells ≡ view.now.cells.now
        → option_map shown_target result ≡ target_at (shown view.now.program.now) s (locals_in view.now.names.now view.now.frame.now) (place_of place.now) }
{
    match view.value_if_any(&place.index)? {
        None => Some(scalar_target(view, &place.name)),
        Some(index) => Some(Target::Cell(view.element_cell(place.name.as_slice(), index)?)),
    }
}
