// Answers that come before the work of a command is done.
ghost use Rattle.std.specs.Prelude.{◌≡◌};

use crate::answer::Answer;
use std::alloc::AllocError;

/// Why a command goes no further.
#[derive(Drop)]
pub enum Refusal {
    /// This is to be answered.
    Told(Answer),
    /// There isn't enough memory.
    Memory,
}

impl From<AllocError> for Refusal {
    ghost use Rattle.answers.specs.declared.refusal.Refusal.TheVariants.{Memory};

    ghost from_gives = { λ _ refusal. refusal ≡ Memory };

    fn from(_: AllocError) -> Refusal {
        Refusal::Memory
    }
}
