// Why there is no flow.
ghost use Rattle.std.specs.Prelude.{◌≡◌};

use held_counts::HeldKind;
use std::alloc::AllocError;
use thiserror::Error;

/// Why there are no points and edges.
#[derive(Clone, Copy, Debug, PartialEq, Eq, Error)]
pub enum FlowError {
    /// There are more than 4,096 points.
    #[error("more than 4,096 points")]
    TooManyPoints,
    /// What is held is refused: the first refusal in text order.
    #[error("what is held is refused on line {line}")]
    Held {
        /// Why it is refused.
        kind: HeldKind,
        /// The line, from 1.
        line: u32,
    },
    /// There isn't enough memory.
    #[error("out of memory")]
    Memory,
}

impl From<AllocError> for FlowError {
    ghost use Rattle.outline_pieces.specs.declared.error.FlowError.TheVariants.{Memory};

    ghost from_gives = { λ _ e. e ≡ Memory };

    fn from(_: AllocError) -> FlowError {
        FlowError::Memory
    }
}
