//! Parts of the tree with the levels that they take.

ghost use Rattle.std.specs.Prelude.{◌≡◌, ◌-◌};

/// A part, and how many levels it takes, its own among them.
#[derive(Debug, Drop)]
pub struct Tall<T> {
    /// The part.
    pub tree: T,
    /// The levels: an expression takes at least one, a place or a call without one takes none.
    pub levels: u8,
}

impl<T> Tall<T> {
    /// How many levels stand below its own.
    pub fn below(&self) -> u8
        ensures { result ≡ self.now.levels - 1 }
    {
        self.levels.saturating_sub(1)
    }
}
