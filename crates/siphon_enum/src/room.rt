// Rooms for minimal sets.
ghost use Rattle.std.specs.Prelude.{◌≡◌, ◌<◌, ◌≤◌, [], length, slice_get, Some, IfOk};
ghost use Rattle.siphon_enum.specs.Rows.{HaveSize};

use gadara_net::Work;
use place_sets::{BitRow, PlaceSet};
use std::alloc::{AllocError, Global};
use std::marker::Model;

/// Room for minimal sets of nets with so many places, and for what finds them.
///
/// A set of resources is a mask: bit `r` says whether resource `r` is a member. Contracts see the
/// number of places, the limit, and the sets that the room holds.
#[derive(Drop)]
pub struct SiphonRoom {
    pub(crate) places: u32,
    pub(crate) limit: u32,
    pub(crate) sets: Vec<u64>,
    /// The least siphon of each set, and behind them that of the set which is judged.
    pub(crate) siphons: Vec<BitRow>,
    /// The least siphons of single resources together.
    pub(crate) union: BitRow,
    pub(crate) work: Work,
}

impl Model for SiphonRoom {
    ghost use Rattle.std.specs.Prelude.{vec_capacity};
    ghost use Rattle.siphon_enum.specs.Rooms.{Room, HasSpace};

    ghost Value = { Room };

    ghost view = { λ room. record { places = room.places; limit = room.limit; sets = room.sets.items } };

    ghost invariant = { λ room. HasSpace ⟦<BitRow as PlaceSet>⟧.bound (record { places = room.places; limit = room.limit; sets = room.sets.items }) (vec_capacity room.sets) room.siphons.items room.union room.work };
}

/// So many sets of places of one size, all of them empty.
fn empty_rows(alloc: Global, places: u32, count: usize) -> Result<Vec<BitRow>, AllocError>
    ensures count { IfOk result (λ rows. length rows.items ≡ count) }
    ensures sizes { IfOk result (λ rows. HaveSize ⟦<BitRow as PlaceSet>⟧.bound places rows.items) }
{
    let mut rows = Vec::with_capacity(alloc, count)?;
    for _ in 0..count {
        rows.push(BitRow::empty(alloc, places)?)?;
    }
    Ok(rows)
}

impl SiphonRoom {
    ghost use Rattle.siphon_enum.specs.Rooms.{Room};

    /// A room that holds no set, for nets with so many places and for at most `limit` sets. There
    /// are at most 4,160 places and 512 sets. The one error is want of memory: no later call on the
    /// room takes any.
    pub fn new(alloc: Global, places: u32, limit: u32) -> Result<SiphonRoom, AllocError>
        requires places { places ≤ 4160 }
        requires limit { limit ≤ 512 }
        ensures { IfOk result (λ room. room ≡ record { places = places; limit = limit; sets = [] }) }
    {
        let sets = Vec::with_capacity(alloc, limit as usize)?;
        let siphons = empty_rows(alloc, places, limit as usize + 1)?;
        let union = BitRow::empty(alloc, places)?;
        let work = Work::new(alloc, places)?;
        Ok(SiphonRoom {
            places,
            limit,
            sets,
            siphons,
            union,
            work,
        })
    }

    /// How many places its nets have.
    pub fn places(&self) -> u32
        ensures { result ≡ self.now.places }
    {
        self.places
    }

    /// How many sets it holds at most.
    pub fn limit(&self) -> u32
        ensures { result ≡ self.now.limit }
    {
        self.limit
    }

    /// How many sets it holds.
    pub fn count(&self) -> u32
        ensures count { result ≡ length self.now.sets }
        ensures within { result ≤ self.now.limit }
    {
        self.sets.len() as u32
    }

    /// The set at place `k`, which is below `count()`.
    pub fn set(&self, k: u32) -> u64
        requires { k < length self.now.sets }
        ensures { slice_get self.now.sets k ≡ Some result }
    {
        self.sets[k as usize]
    }
}
