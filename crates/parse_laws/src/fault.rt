//! Why a list of tokens is refused.

ghost use Rattle.std.specs.Prelude.{◌≡◌};
ghost use Rattle.parse_laws.specs.declared.fault.Refusal.TheVariants.{Memory};

use std::alloc::{AllocError, AllocFailed};

/// Why the tokens up to a place begin no text of a grammar that has few enough levels.
#[derive(Clone, Copy, Debug, PartialEq, Eq)]
pub enum Fault {
    /// They begin none of any depth.
    Syntax,
    /// They begin only texts with too many levels.
    TooDeep,
}

/// Why a parser stopped.
#[derive(Debug, Drop)]
pub enum Refusal<'a, T> {
    /// Memory ran out.
    Memory,
    /// A fault, and the tokens from the failing one on; none are left where the text ends too early.
    At(Fault, &'a [T]),
}

impl<'a, T> From<AllocError> for Refusal<'a, T> {
    ghost from_gives = { λ _ e. e ≡ Memory };

    fn from(_e: AllocError) -> Refusal<'a, T> {
        Refusal::Memory
    }
}

impl<'a, T, V: Drop> From<AllocFailed<V>> for Refusal<'a, T> {
    ghost from_gives = { λ _ e. e ≡ Memory };

    fn from(_e: AllocFailed<V>) -> Refusal<'a, T> {
        Refusal::Memory
    }
}
