// A set of places as a sorted list.
ghost use Rattle.std.specs.Prelude.{◌≡◌, ℕ, ◌<◌, ◌≤◌, vec_capacity, All};
ghost use Rattle.std.specs.List.Sorted.{IsStrictlyIncreasing};

use crate::place_set::PlaceSet;
use std::alloc::{AllocError, Global};

/// A set of places as a sorted list, with room for every place.
#[derive(Drop)]
pub struct ListSet {
    size: u32,
    places: Vec<u32>,
    ghost ascending: { IsStrictlyIncreasing places.items },
    ghost below: { All (λ place. place < size) places.items },
    ghost room: { size ≤ vec_capacity places },
}

impl PlaceSet for ListSet {
    ghost use Rattle.place_sets.specs.Lists.{stands_in};
    ghost use Rattle.place_sets.specs.Lists.{absent_above};

    ghost bound = { λ set. set.size };

    ghost places = { λ set. stands_in set.places.items };

    ghost within = { λ set place above. absent_above set.places.items set.size place set.below above };

    fn empty(alloc: Global, size: u32) -> Result<Self, AllocError> {
        let places = Vec::with_capacity(alloc, size as usize)?;
        Ok(ListSet { size, places })
    }

    fn size(&self) -> u32 {
        self.size
    }

    fn has(&self, place: u32) -> bool {
        self.places.binary_search(&place).is_ok()
    }

    fn insert(&mut self, place: u32) {
        if let Err(at) = self.places.binary_search(&place) {
            if self.places.insert(at, place).is_err() {
                unreachable!();
            }
        }
    }

    fn clear(&mut self) {
        self.places.clear();
    }

    fn subset(&self, other: &Self) -> bool {
        for place in &self.places {
            if !other.has(*place) {
                return false;
            }
        }
        true
    }

    fn equal(&self, other: &Self) -> bool {
        self.places == other.places
    }

    fn count(&self) -> u32 {
        prove!(self.places.len() <= self.size as usize);
        self.places.len() as u32
    }
}
