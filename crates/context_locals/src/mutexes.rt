// The mutexes that places name.
ghost use Rattle.std.specs.Prelude.{◌≡◌, ◌^◌, ◌<◌, ℤ, Option, map, sum_by, IfSome};
ghost use Rattle.c_tree.specs.Expressions.{place_of, value_of};
ghost use Rattle.c_tree.specs.Leaves.{HasLeavesIfAny};
ghost use Rattle.c_tree.specs.Lined.{bare_object};
ghost use Rattle.c_tree.specs.Numbering.{member, index_within, mutex_count, numbered, object_count};
ghost use Rattle.c_meaning.specs.Shown.{shown};
ghost use Rattle.c_meaning.specs.Numbers.{small_numbers};
ghost use Rattle.context_locals.specs.Operands.{member_of, Fits, IsOperandIfAny, IsPlaceOf};

use crate::names::ConstantNames;
use crate::operands::Operand;
use c_tree::{Expr, Object, Place, Program};

/// The numbers of the mutexes of one declaration.
#[derive(Clone, Copy, Debug)]
pub struct Mutexes {
    /// The first of them.
    pub first: u32,
    /// How many there are, for an array; none for a single mutex.
    pub len: Option<u32>,
}

/// An index within a length: a number that isn't negative and is below it.
fn index_within(len: u32, index: i32) -> Option<u32>
    ensures { result ≡ index_within len index }
{
    if 0 <= index && (index as u32) < len {
        Some(index as u32)
    } else {
        None
    }
}

impl Mutexes {
    /// The number of one of them, by its index.
    pub(crate) fn member(self, index: Option<i32>) -> Option<u8>
        requires { Fits self }
        ensures { result ≡ member self.first self.len index }
    {
        match (self.len, index) {
            (None, None) => Some(self.first as u8),
            (Some(len), Some(index)) => Some((self.first + index_within(len, index)?) as u8),
            _ => None,
        }
    }
}

/// The mutexes that are declared with a name.
fn mutexes_named(objects: &[Object], name: &[u8]) -> Option<Mutexes>
    requires { sum_by object_count (map bare_object objects.now) < 2 ^ 8 }
    ensures numbers { (index : Option ℤ) → member_of result index ≡ numbered 0 (map bare_object objects.now) name.now index }
    ensures fits { IfSome result Fits }
{
    let mut first = 0;
    for o in objects {
        if o.name.as_slice() == name {
            return Some(Mutexes { first, len: o.len });
        }
        first += o.len.unwrap_or(1);
    }
    None
}

/// How many mutexes a program has, where there are few.
pub fn mutex_count(p: &Program) -> u8
    requires { mutex_count (shown p.now) < 2 ^ 8 }
    ensures { result ≡ mutex_count (shown p.now) }
{
    let mut count = 0;
    for o in p.mutexes.as_slice() {
        count += o.len.unwrap_or(1);
    }
    count as u8
}

/// Where a statement of a function names a mutex.
#[derive(Clone, Copy, Debug)]
pub struct MutexPlace<'p> {
    pub(crate) mutexes: Option<Mutexes>,
    pub(crate) index: Option<Operand<'p>>,
}

impl<'p> ConstantNames<'p> {
    /// An expression that may be missing, of the function whose names these are.
    pub fn operand_if_any(&self, e: &'p Option<Expr>) -> Option<Operand<'p>>
        requires { HasLeavesIfAny small_numbers (value_of e.now) }
        ensures { IsOperandIfAny self.now (value_of e.now) result }
    {
        match e {
            None => None,
            Some(e) => Some(self.operand(e)),
        }
    }

    /// A place where a statement of this function, in a program, names a mutex.
    pub fn mutex_place(&self, p: &Program, place: &'p Place) -> MutexPlace<'p>
        requires few { mutex_count (shown p.now) < 2 ^ 8 }
        requires small { HasLeavesIfAny small_numbers (value_of place.now.index) }
        ensures { IsPlaceOf (shown p.now) self.now (place_of place.now) result }
    {
        MutexPlace {
            mutexes: mutexes_named(p.mutexes.as_slice(), place.name.as_slice()),
            index: self.operand_if_any(&place.index),
        }
    }
}
