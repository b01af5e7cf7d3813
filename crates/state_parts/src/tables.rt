// What a program's names stand for.
use c_frames::LocalNames;
use c_places::Numbers;

/// What a program's names stand for: it stays through a run.
#[derive(Drop)]
pub struct Tables {
    /// The numbers of its objects.
    pub numbers: Numbers,
    /// The names of each function's locals.
    pub names: Vec<LocalNames>,
}
