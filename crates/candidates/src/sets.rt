// Sets of resources as masks.
ghost use Rattle.std.specs.Prelude.{◌≡◌, ◌≢◌, ℕ, ◌+◌, ◌*◌, ◌/◌, ◌%◌, ◌^◌, ◌<◌, ◌||◌, ◌==◌, ◌↔◌, ◌⊎◌, IsTrue, IsFalse, bit_or};
ghost use Rattle.net_laws.specs.Candidates.{members};
ghost use Rattle.gadara_net.specs.Sets.{HasMembers};

/// Whether the resource, which is below 64, is in the set.
pub fn is_member(resources: u64, resource: u32) -> bool
    requires { resource < 64 }
    ensures { result ≡ members resources resource }
{
    (resources >> resource) & 1 == 1
}

/// The set with one more resource, which is below 64.
pub fn with_member(resources: u64, resource: u32) -> u64
    requires { resource < 64 }
    ensures members { (r : ℕ) → members result r ≡ (members resources r || resource == r) }
    ensures number { IsFalse (members resources resource) → result ≡ resources + 2 ^ resource }
{
    resources | 1 << resource
}

/// The set without a resource, which is below 64.
pub fn without_member(resources: u64, resource: u32) -> u64
    requires { resource < 64 }
    ensures members { (r : ℕ) → IsTrue (members result r) ↔ (IsTrue (members resources r) × (r ≢ resource)) }
    ensures less { IsTrue (members resources resource) → result < resources }
{
    resources & !(1 << resource)
}

/// The resources of both sets.
pub fn union(one: u64, other: u64) -> u64
    ensures { (r : ℕ) → IsTrue (members result r) ↔ (IsTrue (members one r) ⊎ IsTrue (members other r)) }
{
    one | other
}

/// The resources that are in both sets.
pub fn common(one: u64, other: u64) -> u64
    ensures { (r : ℕ) → IsTrue (members result r) ↔ (IsTrue (members one r) × IsTrue (members other r)) }
{
    one & other
}

/// The resources of the one set that aren't in the other one.
pub fn difference(one: u64, other: u64) -> u64
    ensures { (r : ℕ) → IsTrue (members result r) ↔ (IsTrue (members one r) × IsFalse (members other r)) }
{
    one & !other
}

/// The least resource of a set that has some.
pub fn lowest(resources: u64) -> u32
    requires { HasMembers resources }
    ensures below { result < 64 }
    ensures member { IsTrue (members resources result) }
    ensures least { (r : ℕ) → r < result → IsFalse (members resources r) }
{
    resources.trailing_zeros()
}
