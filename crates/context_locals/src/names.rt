// The locals of a function that can be constant, numbered.
ghost use Rattle.std.specs.Prelude.{◌≡◌, ◌<◌, ◌||◌, ◌&&◌, not, false, ℕ, List, bytes_eq, IfSome, OnOk};
ghost use Rattle.contexts.specs.Constants.{among};
ghost use Rattle.context_locals.specs.Known.{is_in, place_of, count_of};
ghost use Rattle.context_locals.specs.Writes.{writes_in};

use crate::written::Writes;
use c_names::{Scope, enter};
use c_tree::Name;
use indexmap::IndexSet;
use std::alloc::{AllocError, Global};

/// Locals of a function that can be constant in a context, each with a number.
#[derive(Drop)]
pub struct ConstantNames<'p> {
    names: Scope<'p>,
}

impl<'p> ConstantNames<'p> {
    /// No names.
    pub fn new(alloc: Global) -> ConstantNames<'p>
        ensures { (q : List ℕ) → is_in result q ≡ false }
    {
        ConstantNames {
            names: IndexSet::new(alloc),
        }
    }

    /// How many names there are.
    pub fn len(&self) -> usize
        ensures { result ≡ count_of self.now }
    {
        self.names.len()
    }

    /// The number of a name.
    pub fn place(&self, name: &[u8]) -> Option<usize>
        ensures place { result ≡ place_of self.now name.now }
        ensures within { IfSome result (λ k. k < count_of self.now) }
    {
        self.names.get_index_of(name)
    }

    /// Makes a local one of the names, unless nothing of its name can be constant. The one error is
    /// want of memory.
    pub fn add(&mut self, writes: &Writes<'_, 'p>, name: &'p [u8]) -> Result<(), AllocError>
        ensures { OnOk result ((q : List ℕ) → is_in self.new q ≡ (is_in self.old q || (bytes_eq q name.now && not (writes_in writes.now q)))) }
    {
        if writes.has(name) {
            return Ok(());
        }
        enter(&mut self.names, name)
    }

    /// Makes parameters names likewise. The one error is want of memory.
    pub fn add_all(&mut self, writes: &Writes<'_, 'p>, names: &'p [Name]) -> Result<(), AllocError>
        ensures { OnOk result ((q : List ℕ) → is_in self.new q ≡ (is_in self.old q || (among names.now q && not (writes_in writes.now q)))) }
    {
        for name in names {
            self.add(writes, name.as_slice())?;
        }
        Ok(())
    }
}
