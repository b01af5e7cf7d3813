// What a walk has found.
ghost use Rattle.std.specs.Prelude.{◌≡◌, ◌<◌, ◌∷◌, ◌++◌, [], length, nat_lt, not, OnOk};
ghost use Rattle.contexts.specs.Outlines.{context_limit};
ghost use Rattle.context_items.specs.Marks as spec;
ghost use Rattle.context_walk.specs.declared.marks.ContextError.TheVariants.{Memory};
ghost use Rattle.context_walk.specs.Found.{marks_in, contexts_of};

use std::alloc::{AllocError, Global};
use thiserror::Error;

/// What a walk has resolved, in its order.
#[derive(Clone, Copy, Debug, PartialEq, Eq)]
pub enum Mark {
    /// A lock, a trylock, an unlock, a wait, a take or a give is of this resource.
    Resource(u8),
    /// A function is entered as this context.
    Enters(u8),
}

/// The contexts of a program.
#[derive(Debug, Drop)]
pub struct Contexts {
    /// What was resolved, in the order of the walk: what stands in a context comes behind its entry.
    pub marks: Vec<Mark>,
    /// The place of each context's function.
    pub functions: Vec<usize>,
}

/// Why a program has no contexts. Lines are counted from 1.
#[derive(Clone, Copy, Debug, PartialEq, Eq, Error)]
pub enum ContextError {
    /// The index of a mutex isn't constant in a context, or is out of range, at this line.
    #[error("line {line}: lock is not constant in its context")]
    LockNotResolved {
        /// The line of the statement.
        line: u32,
    },
    /// There are more than 256 contexts.
    #[error("more than 256 contexts")]
    TooManyContexts,
    /// There isn't enough memory.
    #[error("out of memory")]
    Memory,
}

impl From<AllocError> for ContextError {
    ghost from_gives = { λ _ e. e ≡ Memory };

    fn from(_: AllocError) -> ContextError {
        ContextError::Memory
    }
}

impl Contexts {
    /// No contexts.
    pub(crate) fn new(alloc: Global) -> Contexts
        ensures marks { marks_in result ≡ [] }
        ensures contexts { contexts_of result ≡ [] }
    {
        Contexts {
            marks: Vec::new(alloc),
            functions: Vec::new(alloc),
        }
    }

    /// Whether there are as many contexts as there may be.
    pub(crate) fn is_full(&self) -> bool
        ensures { result ≡ not (nat_lt (length (contexts_of self.now)) context_limit) }
    {
        self.functions.len() >= 256
    }

    /// Enters the function at a place as one context more. The one error is want of memory.
    pub(crate) fn begin(&mut self, function: usize) -> Result<(), AllocError>
        requires { length (contexts_of self.old) < context_limit }
        ensures marks { OnOk result (marks_in self.new ≡ marks_in self.old ++ spec.Enters (length (contexts_of self.old)) ∷ []) }
        ensures contexts { OnOk result (contexts_of self.new ≡ function ∷ contexts_of self.old) }
    {
        self.marks.push(Mark::Enters(self.functions.len() as u8))?;
        self.functions.push(function)?;
        Ok(())
    }

    /// A statement is of this resource. The one error is want of memory.
    pub(crate) fn mark(&mut self, resource: u8) -> Result<(), AllocError>
        ensures marks { OnOk result (marks_in self.new ≡ marks_in self.old ++ spec.Resource resource ∷ []) }
        ensures contexts { OnOk result (contexts_of self.new ≡ contexts_of self.old) }
    {
        self.marks.push(Mark::Resource(resource))?;
        Ok(())
    }
}
