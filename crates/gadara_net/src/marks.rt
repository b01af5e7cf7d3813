// Points of a least siphon that are found, in the order in which they are.
ghost use Rattle.std.specs.Prelude.{◌≡◌, ℕ, ◌<◌, ◌≤◌, ◌+◌, length, IsTrue, IsFalse, Bool, slice_set, false};
ghost use Rattle.net_laws.specs.Net.{Net};
ghost use Rattle.net_laws.specs.Siphons.{InSiphon};
ghost use Rattle.net_laws.specs.Candidates.{members};
ghost use Rattle.gadara_net.specs.Marks.{takes_one, gives_one, HasBit, AreMarked, HaveGrown};

use crate::sets::is_member;
use edges::EdgeOp;
use place_sets::PlaceSet;

/// Whether a token of a member of the set is taken.
pub fn takes_member(op: EdgeOp, resources: u64) -> bool
    requires { HasBit op }
    ensures { result ≡ takes_one (members resources) op }
{
    match op {
        EdgeOp::Acquire(r) | EdgeOp::Try(r) | EdgeOp::Reacquire(r) => is_member(resources, r),
        EdgeOp::Plain | EdgeOp::Release(_) => false,
    }
}

/// Whether a token of a member of the set is given back.
pub fn gives_member(op: EdgeOp, resources: u64) -> bool
    requires { HasBit op }
    ensures { result ≡ gives_one (members resources) op }
{
    match op {
        EdgeOp::Release(r) => is_member(resources, r),
        EdgeOp::Plain | EdgeOp::Acquire(_) | EdgeOp::Try(_) | EdgeOp::Reacquire(_) => false,
    }
}

/// Marks a point, and puts it at the end of the row where it is new. Answers the new end.
pub fn mark<S: PlaceSet>(point: u32, out: &mut S, row: &mut [u32], end: usize) -> usize
    requires within { point < length row.old }
    requires bound { length row.old ≤ S.bound out.old }
    requires room { S.places out.old point ≡ false → end < length row.old }
    ensures bound { S.bound out.new ≡ S.bound out.old }
    ensures marked { IsTrue (S.places out.new point) }
    ensures grown { HaveGrown (S.places out.old) (S.places out.new) row.old row.new end result }
    ensures sound { (n : Net) (R : ℕ → Bool) → InSiphon n R point →
        AreMarked n R (S.places out.old) row.old end →
        AreMarked n R (S.places out.new) row.new result }
{
    if out.has(point) {
        return end;
    }
    out.insert(point);
    row[end] = point;
    end + 1
}
