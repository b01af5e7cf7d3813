// What a set of places is.
ghost use Rattle.std.specs.Prelude.{◌≡◌, ℕ, ◌<◌, ◌≤◌, Bool, false, ◌↔◌, IsTrue, IfOk};
ghost use Rattle.place_sets.specs.Sets.{IsEmpty, HasGained, IsPartOf, AreSame, count_below};

use std::alloc::{AllocError, Global};

/// A set of the places of a net, which are numbers below its size.
///
/// It is the plain set of the places that were inserted since it was made or cleared.
pub trait PlaceSet: Sized + Drop {
    /// The size: the places are the numbers below it.
    ghost bound: { Self → ℕ };

    /// Which places are in.
    ghost places: { Self → ℕ → Bool };

    /// Answers a set of this size with no place in it, or `AllocError` where there is no memory for it.
    /// No other call takes memory.
    fn empty(alloc: Global, size: u32) -> Result<Self, AllocError>
        ensures bound { IfOk result (λ set. bound set ≡ size) }
        ensures empty { IfOk result (λ set. IsEmpty (places set)) };

    /// Answers the size that the set was made with.
    fn size(&self) -> u32
        ensures size { result ≡ bound self.now };

    /// Whether a place is in, which is below the size.
    fn has(&self, place: u32) -> bool
        requires below { place < bound self.now }
        ensures has { result ≡ places self.now place };

    /// Puts in a place, which is below the size and may be in already.
    fn insert(&mut self, place: u32)
        requires below { place < bound self.old }
        ensures bound { bound self.new ≡ bound self.old }
        ensures gained { HasGained (places self.old) (places self.new) place };

    /// Takes all places out.
    fn clear(&mut self)
        ensures bound { bound self.new ≡ bound self.old }
        ensures empty { IsEmpty (places self.new) };

    /// Whether each place of this set is in the other one, which has the same size.
    fn subset(&self, other: &Self) -> bool
        requires one_size { bound self.now ≡ bound other.now }
        ensures part { IsTrue result ↔ IsPartOf (places self.now) (places other.now) };

    /// Whether this set and the other one, which has the same size, have the same places.
    fn equal(&self, other: &Self) -> bool
        requires one_size { bound self.now ≡ bound other.now }
        ensures same { IsTrue result ↔ AreSame (places self.now) (places other.now) };

    /// Answers how many places are in.
    fn count(&self) -> u32
        ensures count { result ≡ count_below (places self.now) (bound self.now) };

    /// Nothing from the size on is in.
    ghost within: { (set : Self) (place : ℕ) → bound set ≤ place → places set place ≡ false };
}
