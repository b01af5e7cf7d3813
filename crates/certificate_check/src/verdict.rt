// What a check answers.
ghost use Rattle.std.specs.Prelude.{◌≡◌};

use std::alloc::AllocError;
use thiserror::Error;

/// What is found of a certificate.
#[derive(Clone, Copy, Debug, PartialEq, Eq)]
pub enum Verdict {
    /// This line doesn't hold, and each one before it does.
    LineFails {
        /// The place of the line in the certificate, from 1.
        index: u32,
    },
    /// Each line holds, and no line covers this candidate, the first such one by size and then by
    /// the masks as numbers.
    NotCovered {
        /// The members of the candidate: bit `r` says whether resource `r` is one.
        resources: u64,
    },
    /// Each line holds, and each candidate is covered by one.
    Valid,
}

/// Why a certificate isn't judged.
#[derive(Clone, Copy, Debug, PartialEq, Eq, Error)]
pub enum CheckFault {
    /// Each line holds, and a strong component of hold-and-wait has more than 14 resources: of such
    /// ones the one with the least member.
    #[error("a strong component of more than 14 resources")]
    ComponentTooLarge {
        /// The members of the component: bit `r` says whether resource `r` is one.
        resources: u64,
    },
    /// There isn't enough memory.
    #[error("out of memory")]
    Memory,
}

impl From<AllocError> for CheckFault {
    ghost use Rattle.certificate_check.specs.declared.verdict.CheckFault.TheVariants.{Memory};

    ghost from_gives = { λ _ e. e ≡ Memory };

    fn from(_: AllocError) -> CheckFault {
        CheckFault::Memory
    }
}
