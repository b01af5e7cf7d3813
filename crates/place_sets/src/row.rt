// A set of places as a row of words.
ghost use Rattle.std.specs.Prelude.{◌≡◌, ℕ, ◌≤◌, ◌+◌, ◌/◌, false, length};
ghost use Rattle.place_sets.specs.Rows.{is_set};

use crate::place_set::PlaceSet;
use crate::words::{count_places, have_same_places, is_part_of};
use std::alloc::{AllocError, Global};

/// A set of places as a row of words of 64 bits, a bit for each place.
#[derive(Drop)]
pub struct BitRow {
    size: u32,
    words: Vec<u64>,
    ghost long: { length words.items ≡ (size + 63) / 64 },
    ghost within: { (place : ℕ) → size ≤ place → is_set words.items place ≡ false },
}

impl PlaceSet for BitRow {
    ghost use Rattle.place_sets.specs.Rows.{is_set};

    ghost bound = { λ set. set.size };

    ghost places = { λ set. is_set set.words.items };

    ghost within = { λ set. set.within };

    fn empty(alloc: Global, size: u32) -> Result<Self, AllocError> {
        let words = vec![in alloc; 0u64; (size as usize).div_ceil(64)]?;
        Ok(BitRow { size, words })
    }

    fn size(&self) -> u32 {
        self.size
    }

    fn has(&self, place: u32) -> bool {
        let word = self.words[place as usize / 64];
        word >> (place % 64) & 1 == 1
    }

    fn insert(&mut self, place: u32) {
        self.words[place as usize / 64] |= 1 << (place % 64);
    }

    fn clear(&mut self) {
        self.words.fill(0);
    }

    fn subset(&self, other: &Self) -> bool {
        is_part_of(&self.words, &other.words)
    }

    fn equal(&self, other: &Self) -> bool {
        have_same_places(&self.words, &other.words)
    }

    fn count(&self) -> u32 {
        count_places(&self.words, self.size)
    }
}
