// Sets of resources as masks.
ghost use Rattle.std.specs.Prelude.{◌≡◌, ℕ, ◌<◌, ◌||◌, ◌&&◌, ◌==◌, ◌↔◌, IsTrue};
ghost use Rattle.net_laws.specs.Candidates.{members};
ghost use Rattle.gadara_net.specs.Sets.{HasMembers};

/// Whether the resource, which is below 64, is in the set.
pub fn is_member(resources: u64, resource: u32) -> bool
    requires { resource < 64 }
    ensures { result ≡ members resources resource }
{
    (resources >> resource) & 1 == 1
}

/// Whether some resource is in the set.
pub fn has_members(resources: u64) -> bool
    ensures { IsTrue result ↔ HasMembers resources }
{
    resources != 0
}

/// Whether the members of the set are below a number.
pub fn are_below(resources: u64, count: u32) -> bool
    ensures { IsTrue result ↔ ((r : ℕ) → IsTrue (members resources r) → r < count) }
{
    for r in count..64 {
        if is_member(resources, r) {
            return false;
        }
    }
    true
}

/// The set with one more resource, which is below 64.
pub fn with_member(resources: u64, resource: u32) -> u64
    requires { resource < 64 }
    ensures { (r : ℕ) → members result r ≡ (members resources r || resource == r) }
{
    resources | 1 << resource
}

/// The resources of both sets.
pub fn union(one: u64, other: u64) -> u64
    ensures { (r : ℕ) → members result r ≡ (members one r || members other r) }
{
    one | other
}

/// Whether two sets have a resource in common.
pub fn have_common(one: u64, other: u64) -> bool
    ensures { IsTrue result ↔
        ((r : ℕ) × IsTrue (members one r) × IsTrue (members other r)) }
{
    has_members(one & other)
}
