// The places of each key in a list of keys, from the last to the first.
ghost use Rattle.std.specs.Prelude.{◌≡◌, ℕ, ◌<◌, ◌^◌, length, slice_get, slice_index, IfOk, Some};
ghost use Rattle.std.specs.List.{All};
ghost use Rattle.gadara_net.specs.Chains.{IsChained};

use std::alloc::{AllocError, Global};

/// For each key, its last place in a list of keys, and for each place the one before it with the
/// same key. Each is one more than the place, or 0 where there is none.
#[derive(Drop)]
pub struct Chains {
    pub(crate) last: Vec<u32>,
    pub(crate) before: Vec<u32>,
}

impl Chains {
    ghost use Rattle.gadara_net.specs.Indexed.{IsIndex};

    /// The index of keys that are below `size`. The one error is want of memory.
    pub fn new(alloc: Global, keys: &[u32], size: u32) -> Result<Chains, AllocError>
        requires few { length keys.now < 2 ^ 32 }
        requires below { All (λ key. key < size) keys.now }
        ensures { IfOk result (λ c. IsIndex c keys.now size) }
    {
        let mut last = vec![in alloc; 0u32; size as usize]?;
        let mut before = Vec::with_capacity(alloc, keys.len())?;
        for (i, key) in keys.iter().enumerate() {
            let key = *key as usize;
            before.push(last[key])?;
            last[key] = i as u32 + 1;
        }
        Ok(Chains { last, before })
    }
}
