// The mutexes of a table.

ghost use Rattle.std.specs.Prelude.{◌<◌, ◌+◌, unwrap_or};

use c_tree::Name;

/// A mutex, or an array of them.
#[derive(Debug, Drop)]
pub struct Mutex {
    /// Its name.
    pub name: Name,
    /// How many members an array has; none for a single mutex.
    pub len: Option<u32>,
    /// The number of the mutex, or of the first member.
    pub first: u32,
    ghost fits: { first + unwrap_or len 1 < 4294967296 },
}
