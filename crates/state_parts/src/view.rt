// What the expressions of a frame stand for.
ghost use Rattle.std.specs.Prelude.{◌≡◌, None, Some, slice_get};
ghost use Rattle.c_tree.specs.Expressions.{expr_of, value_of, place_of};
ghost use Rattle.c_tree.specs.Numbering.{scalar_cell, element_cell, mutex_of, condition_of};
ghost use Rattle.c_meaning.specs.Shown.{shown};
ghost use Rattle.c_meaning.specs.State as run;
ghost use Rattle.c_meaning.specs.Numbers.{HasSmallNumbers};
ghost use Rattle.c_meaning.specs.Places.{values_of, evaluated, evaluated_if_any, mutex_at, condition_at};
ghost use Rattle.c_frames.specs.Frames.{locals_in};
ghost use Rattle.c_places.specs.Numbers.{AreNumbersOf};
ghost use Rattle.state_parts.specs.Small.{IsSmallIfAny};

use c_frames::{Frame, LocalNames};
use c_meaning::{Scope, value};
use c_places::Numbers;
use c_tree::{Expr, Place, Program};

/// What names stand for, in a frame of a state.
#[derive(Drop)]
pub struct View<'a> {
    /// The program.
    pub program: &'a Program,
    /// The numbers of its objects.
    pub numbers: &'a Numbers,
    /// The values of its cells.
    pub cells: &'a [i32],
    /// The names of the frame's locals.
    pub names: &'a LocalNames,
    /// The frame.
    pub frame: &'a Frame,
    ghost numbered: { ∥ AreNumbersOf (shown program.now) numbers.now ∥₁ },
}

impl<'a> Scope for View<'a> {
    ghost values = { λ view. values_of (shown view.program.now) view.cells.now (locals_in view.names.now view.frame.now) };

    fn scalar(&self, name: &[u8]) -> Option<i32> {
        match self.scalar_cell(name) {
            Some(cell) => self.cell(cell),
            None => self.frame.local(self.names, name),
        }
    }

    fn element(&self, name: &[u8], index: i32) -> Option<i32> {
        self.cell(self.element_cell(name, index)?)
    }
}

impl<'a> View<'a> {
    /// The value of a cell.
    fn cell(&self, cell: usize) -> Option<i32>
        ensures { result ≡ slice_get self.now.cells.now cell }
    {
        self.cells.get(cell).copied()
    }

    /// The cell of a scalar.
    pub fn scalar_cell(&self, name: &[u8]) -> Option<usize>
        ensures { result ≡ scalar_cell (shown self.now.program.now) name.now }
    {
        self.numbers.scalar(name)
    }

    /// The cell of a member of an array.
    pub fn element_cell(&self, name: &[u8], index: i32) -> Option<usize>
        ensures { result ≡ element_cell (shown self.now.program.now) name.now index }
    {
        self.numbers.element(name, index)
    }

    /// The mutex of a name and an index.
    fn mutex_of(&self, name: &[u8], index: Option<i32>) -> Option<usize>
        ensures { result ≡ mutex_of (shown self.now.program.now) name.now index }
    {
        self.numbers.mutex(name, index)
    }

    /// The condition of a name and an index.
    fn condition_of(&self, name: &[u8], index: Option<i32>) -> Option<u128>
        ensures { result ≡ condition_of (shown self.now.program.now) name.now index }
    {
        self.numbers.condition(name, index)
    }

    /// The value of an expression, and none where it is undefined.
    pub fn value(&self, e: &Expr) -> Option<i32>
        requires { HasSmallNumbers (expr_of e.now) }
        ensures { (s : run.State) → s.cells ≡ self.now.cells.now
            → result ≡ evaluated (shown self.now.program.now) s (locals_in self.now.names.now self.now.frame.now) (expr_of e.now) }
    {
        value(self, e)
    }

    /// The value of an expression that may be left out, and none where it is undefined.
    pub fn value_if_any(&self, e: &Option<Expr>) -> Option<Option<i32>>
        requires { IsSmallIfAny (value_of e.now) }
        ensures { (s : run.State) → s.cells ≡ self.now.cells.now
            → result ≡ evaluated_if_any (shown self.now.program.now) s (locals_in self.now.names.now self.now.frame.now) (value_of e.now) }
    {
        match e {
            None => Some(None),
            Some(e) => match self.value(e) {
                None => None,
                Some(z) => Some(Some(z)),
            },
        }
    }

    /// The mutex at a place, and none where the place is undefined.
    pub fn mutex(&self, place: &Place) -> Option<usize>
        requires { IsSmallIfAny (value_of place.now.index) }
        ensures { (s : run.State) → s.cells ≡ self.now.cells.now
            → result ≡ mutex_at (shown self.now.program.now) s (locals_in self.now.names.now self.now.frame.now) (place_of place.now) }
    {
        self.mutex_of(place.name.as_slice(), self.value_if_any(&place.index)?)
    }

    /// The condition at a place, and none where the place is undefined.
    pub fn condition(&self, place: &Place) -> Option<u128>
        requires { IsSmallIfAny (value_of place.now.index) }
        ensures { (s : run.State) → s.cells ≡ self.now.cells.now
            → result ≡ condition_at (shown self.now.program.now) s (locals_in self.now.names.now self.now.frame.now) (place_of place.now) }
    {
        self.condition_of(place.name.as_slice(), self.value_if_any(&place.index)?)
    }
}
