// The numbers of a program.
ghost use Rattle.std.specs.Prelude.{◌≡◌, ◌+◌, ◌^◌, ◌<◌, IfOk, length, sum_by, position, bytes_eq};
ghost use Rattle.c_tree.specs.Bare.{Program as Bare};
ghost use Rattle.c_tree.specs.Expressions.{place_of};
ghost use Rattle.c_tree.specs.Numbering.{scalar_cell, element_cell, mutex_of, mutex_count, condition_of, thread_in, thread_count};
ghost use Rattle.c_meaning.specs.Shown.{shown};
ghost use Rattle.c_places.specs.Numbers.{AreNumbersOf};

use crate::creations::{Slot, place_of_slot, slots_of};
use crate::table::{Table, table_of};
use c_tree::{Place, Program};
use std::alloc::{AllocError, Global};

/// The numbers of a program's cells, mutexes, conditions, functions and threads by their names.
#[derive(Drop)]
pub struct Numbers {
    /// The cells of the ints.
    ints: Table,
    /// The cells of the arrays, behind those of the ints.
    arrays: Table,
    /// The mutexes.
    mutexes: Table,
    /// How many mutexes there are.
    mutex_count: usize,
    /// The conditions.
    conditions: Table,
    /// The functions.
    functions: Table,
    /// Where the threads but main are kept, in their order.
    slots: Vec<Slot>,
}

impl Numbers {
    /// The numbers of a program. The one error is want of memory.
    pub fn new(alloc: Global, p: &Program) -> Result<Numbers, AllocError>
        requires cells { length p.now.ints + sum_by (λ a. a.len) p.now.arrays < 2 ^ 64 }
        requires mutexes { mutex_count (shown p.now) < 2 ^ 64 }
        ensures { IfOk result (λ n. AreNumbersOf (shown p.now) n) }
    {
        let mutexes = table_of(alloc, 0, p.mutexes.as_slice())?;
        let mutex_count = mutexes.next as usize;
        Ok(Numbers {
            ints: table_of(alloc, 0, p.ints.as_slice())?,
            arrays: table_of(alloc, p.ints.as_slice().len(), p.arrays.as_slice())?,
            mutexes,
            mutex_count,
            conditions: table_of(alloc, 0, p.conds.as_slice())?,
            functions: table_of(alloc, 0, p.functions.as_slice())?,
            slots: slots_of(alloc, p)?,
        })
    }

    /// The cell of an int.
    pub fn scalar(&self, name: &[u8]) -> Option<usize>
        ensures { (p : Bare) → AreNumbersOf p self.now → result ≡ scalar_cell p name.now }
    {
        self.ints.place(name, None)
    }

    /// The cell of a member of an array.
    pub fn element(&self, name: &[u8], index: i32) -> Option<usize>
        ensures { (p : Bare) → AreNumbersOf p self.now → result ≡ element_cell p name.now index }
    {
        self.arrays.place(name, Some(index))
    }

    /// The number of a mutex, or of a member of an array of them.
    pub fn mutex(&self, name: &[u8], index: Option<i32>) -> Option<usize>
        ensures { (p : Bare) → AreNumbersOf p self.now → result ≡ mutex_of p name.now index }
    {
        self.mutexes.place(name, index)
    }

    /// The number of a condition, or of a member of an array of them.
    pub fn condition(&self, name: &[u8], index: Option<i32>) -> Option<u128>
        ensures { (p : Bare) → AreNumbersOf p self.now → result ≡ condition_of p name.now index }
    {
        self.conditions.number(name, index)
    }

    /// The place of the first function of a name.
    pub fn function(&self, name: &[u8]) -> Option<usize>
        ensures { (p : Bare) → AreNumbersOf p self.now → result ≡ position (λ f. bytes_eq f.name name.now) p.functions }
    {
        self.functions.place(name, None)
    }

    /// The number of the thread that is created in a slot.
    pub fn thread(&self, slot: &Place) -> Option<usize>
        ensures { (p : Bare) → AreNumbersOf p self.now → result ≡ thread_in p (place_of slot.now) }
    {
        let place = place_of_slot(self.slots.as_slice(), slot)?;
        Some(place + 1)
    }

    /// How many mutexes there are.
    pub fn mutexes(&self) -> usize
        ensures { (p : Bare) → AreNumbersOf p self.now → result ≡ mutex_count p }
    {
        self.mutex_count
    }

    /// How many threads there are, main among them.
    pub fn threads(&self) -> usize
        ensures { (p : Bare) → AreNumbersOf p self.now → result ≡ thread_count p }
    {
        self.slots.len() + 1
    }
}
