// A state of a run.
use c_meaning::Did;
use c_tree::Values;
use state_parts::tables::Tables;
use state_parts::threads::Thread;

/// What comes of an event.
#[derive(Clone, Copy, Debug, PartialEq, Eq)]
pub enum Stepped {
    /// What was done.
    Done(Did),
    /// The event can't happen now.
    NotEnabled,
    /// What happens is left undefined, and the run ends here.
    Undefined,
    /// Memory was wanted, and nothing was done.
    Memory,
}

/// A state of a run of a program: what its cells hold, what was read and printed, who owns which mutex and holds which
/// tokens, and where each thread stands.
#[derive(Drop)]
pub struct State {
    pub(crate) tables: Tables,
    pub(crate) cells: Vec<i32>,
    pub(crate) input: Values,
    pub(crate) read: usize,
    pub(crate) output: Vec<u8>,
    pub(crate) main_ended: bool,
    pub(crate) owners: Vec<Option<u32>>,
    pub(crate) tokens: Vec<Vec<u32>>,
    pub(crate) threads: Vec<Thread>,
}
