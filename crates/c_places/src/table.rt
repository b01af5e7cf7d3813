// Tables from names to numbers.
ghost use Rattle.std.specs.Prelude.{◌≡◌, ◌+◌, ◌^◌, ◌<◌, ℕ, List, IfOk, OnOk, map, bytes_eq, length, Some, None, if◌then◌else◌};
ghost use Rattle.std.specs.Option.{option_or};
ghost use Rattle.c_tree.specs.Numbering.{index_within, member};
ghost use Rattle.c_places.specs.Tables.{Named, found, size, range, number_in, sizes, IsTableOf};

use crate::named::HasName;
use indexmap::IndexMap;
use std::alloc::{AllocError, Global};

/// The numbers of a thing and its members.
#[derive(Clone, Copy, Debug)]
pub struct Range {
    /// The first of them.
    pub first: u128,
    /// How many there are, for an array; none for a single thing.
    pub len: Option<u32>,
}

/// The numbers of things by their names: those of the first thing of each name.
#[derive(Drop)]
pub struct Table {
    /// The numbers.
    pub ranges: IndexMap<Vec<u8>, Range>,
    /// The number of what comes next.
    pub next: u128,
}

/// How many numbers a thing takes.
fn size(len: Option<u32>) -> u32
    ensures { result ≡ size len }
{
    len.unwrap_or(1)
}

/// An index within a length: a number that isn't negative and is below it.
fn index_within(len: u32, index: i32) -> Option<u32>
    ensures { result ≡ index_within len index }
{
    if 0 <= index && (index as u32) < len {
        Some(index as u32)
    } else {
        None
    }
}

/// The number of a member of an array, or of a single thing.
fn member(range: Range, index: Option<i32>) -> Option<u128>
    ensures { range.first < 2 ^ 127 → result ≡ member range.first range.len index }
{
    match (range.len, index) {
        (None, None) => Some(range.first),
        (Some(len), Some(index)) => range.first.checked_add(index_within(len, index)? as u128),
        _ => None,
    }
}

/// A number, where 64 bits hold it.
fn narrow(number: u128) -> Option<usize>
    ensures { number < 2 ^ 64 → result ≡ Some number }
{
    if number < 18446744073709551616 {
        Some(number as usize)
    } else {
        None
    }
}

impl Table {
    /// The numbers of the first thing of a name.
    fn range(&self, name: &[u8]) -> Option<Range>
        ensures { result ≡ found self.now name.now }
    {
        self.ranges.get(name).copied()
    }

    /// The number of a member of the array of a name, or of the single thing of that name.
    pub fn number(&self, name: &[u8], index: Option<i32>) -> Option<u128>
        ensures { (first : ℕ) (things : List Named) → IsTableOf first things self.now → result ≡ number_in first things name.now index }
    {
        member(self.range(name)?, index)
    }

    /// The same, of things that take fewer than 2 to the power of 64 numbers.
    pub fn place(&self, name: &[u8], index: Option<i32>) -> Option<usize>
        ensures { (first : ℕ) (things : List Named) → IsTableOf first things self.now → first + sizes things < 2 ^ 64 → result ≡ number_in first things name.now index }
    {
        narrow(self.number(name, index)?)
    }

    /// Numbers one more thing. The one error is want of memory.
    fn add(&mut self, alloc: Global, name: &[u8], len: Option<u32>) -> Result<(), AllocError>
        requires { self.old.next < 2 ^ 127 }
        ensures found { OnOk result ((n : List ℕ) → found self.new n ≡ option_or (found self.old n) (if bytes_eq name.now n then Some (range self.old.next len) else None)) }
        ensures next { OnOk result (self.new.next ≡ self.old.next + size len) }
    {
        if self.range(name).is_none() {
            let range = Range {
                first: self.next,
                len,
            };
            self.ranges.insert(Vec::from_slice(alloc, name)?, range)?;
        }
        self.next += size(len) as u128;
        Ok(())
    }
}

/// The numbers of things in their order, from a first number on. The one error is want of memory.
pub fn table_of<T: HasName>(alloc: Global, first: usize, things: &[T]) -> Result<Table, AllocError>
    ensures numbered { IfOk result (λ table. IsTableOf first (map T.named things.now) table) }
    ensures few { length things.now < 2 ^ 64 }
{
    let mut table = Table {
        ranges: IndexMap::new(alloc),
        next: first as u128,
    };
    for thing in things {
        table.add(alloc, thing.name(), thing.len())?;
    }
    Ok(table)
}
