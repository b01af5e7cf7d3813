// What is declared with a name.
ghost use Rattle.std.specs.Prelude.{◌≡◌};
ghost use Rattle.c_tree.specs.Lined.{function_of, bare_cell, bare_array, bare_object, bare_function};
ghost use Rattle.c_places.specs.Tables.{Named, of_cell, of_array, of_object, of_function};

use c_tree::{Array, Cell, Function, Object};

/// What has a name, and a length where it is an array.
pub trait HasName {
    ghost named: { Self → Named };

    /// Its name.
    fn name(&self) -> &[u8]
        ensures { result.now ≡ (Self.named self.now).name };

    /// How many members an array has; none for a single thing.
    fn len(&self) -> Option<u32>
        ensures { result ≡ (Self.named self.now).len };
}

impl HasName for Cell {
    ghost named = { λ c. of_cell (bare_cell c) };

    fn name(&self) -> &[u8] {
        self.name.as_slice()
    }

    fn len(&self) -> Option<u32> {
        None
    }
}

impl HasName for Array {
    ghost named = { λ a. of_array (bare_array a) };

    fn name(&self) -> &[u8] {
        self.name.as_slice()
    }

    fn len(&self) -> Option<u32> {
        Some(self.len)
    }
}

impl HasName for Object {
    ghost named = { λ o. of_object (bare_object o) };

    fn name(&self) -> &[u8] {
        self.name.as_slice()
    }

    fn len(&self) -> Option<u32> {
        self.len
    }
}

impl HasName for Function {
    ghost named = { λ f. of_function (bare_function (function_of f)) };

    fn name(&self) -> &[u8] {
        self.name.as_slice()
    }

    fn len(&self) -> Option<u32> {
        None
    }
}
