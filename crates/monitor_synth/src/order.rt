// Points in the order of their weights.
ghost use Rattle.std.specs.Prelude.{◌≡◌, ℕ, ◌<◌, ◌^◌, length, slice_index, All, Contains, IfOk};
ghost use Rattle.std.specs.List.Sorted.{IsNonDecreasingBy};

use std::alloc::{AllocError, Global};

/// The number at a place, or 0 where there is none.
fn number_at(w: &[u64], place: u32) -> u64
    ensures { result ≡ slice_index w.now place }
{
    w.get(place as usize).copied().unwrap_or(0)
}

/// The places whose number isn't 0.
fn places_above_zero(alloc: Global, w: &[u64]) -> Result<Vec<u32>, AllocError>
    requires { length w.now < 2 ^ 32 }
    ensures below { IfOk result (λ places. All (λ p. p < length w.now) places.items) }
    ensures each { IfOk result
        (λ places. (p : ℕ) → 0 < slice_index w.now p → Contains places.items p) }
{
    let mut places = Vec::new(alloc);
    for (p, number) in w.iter().enumerate() {
        if *number > 0 {
            places.push(p as u32)?;
        }
    }
    Ok(places)
}

/// The places whose number isn't 0, in the order of these numbers: the greatest stands last.
pub fn places_by_number(alloc: Global, w: &[u64]) -> Result<Vec<u32>, AllocError>
    requires { length w.now < 2 ^ 32 }
    ensures below { IfOk result (λ places. All (λ p. p < length w.now) places.items) }
    ensures each { IfOk result
        (λ places. (p : ℕ) → 0 < slice_index w.now p → Contains places.items p) }
    ensures ordered { IfOk result
        (λ places. IsNonDecreasingBy (slice_index w.now) places.items) }
{
    let mut places = places_above_zero(alloc, w)?;
    places.sort_unstable_by_key(|place| number_at(w, *place));
    Ok(places)
}
