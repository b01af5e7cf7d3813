// Why it isn't known whether a program is covered.
ghost use Rattle.std.specs.Prelude.{◌≡◌};

use siphon_enum::EnumError;
use std::alloc::AllocError;
use thiserror::Error;

/// Why it isn't known whether a program is covered.
#[derive(Clone, Copy, Debug, PartialEq, Eq, Error)]
pub enum CoverageError {
    /// A strong component of the hold-and-wait graph has more than 14 resources: of such ones the one with
    /// the least member, as a mask.
    #[error("a component has more than 14 resources")]
    ComponentTooLarge {
        /// The resources of the component.
        resources: u64,
    },
    /// There are more minimal sets than the limit.
    #[error("there are more than {limit} minimal sets")]
    TooManySiphons {
        /// The limit.
        limit: u32,
    },
    /// There isn't enough memory.
    #[error("out of memory")]
    Memory,
}

impl From<AllocError> for CoverageError {
    ghost use Rattle.program_nets.specs.declared.error.CoverageError.TheVariants.{Memory};

    ghost from_gives = { λ _ e. e ≡ Memory };

    fn from(_: AllocError) -> CoverageError {
        CoverageError::Memory
    }
}
