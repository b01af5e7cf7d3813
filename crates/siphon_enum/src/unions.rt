// The least siphons of single resources together: a bound for those of all sets.
ghost use Rattle.std.specs.Prelude.{◌≡◌, ℕ, ◌≤◌, length, IsTrue};
ghost use Rattle.gadara_net.specs.Flows.{flow_net};
ghost use Rattle.siphon_enum.specs.Rows.{HoldsSingles, place_count};

use gadara_net::{Net, Work};
use place_sets::PlaceSet;

/// Puts in each place of the other set, which is as large.
fn unite<S: PlaceSet>(set: &mut S, other: &S)
    requires { S.bound other.now ≡ S.bound set.old }
    ensures size { S.bound set.new ≡ S.bound set.old }
    ensures kept { (place : ℕ) → IsTrue (S.places set.old place) → IsTrue (S.places set.new place) }
    ensures gained { (place : ℕ) → IsTrue (S.places other.now place) →
        IsTrue (S.places set.new place) }
{
    for place in 0..other.size() {
        if other.has(place) {
            set.insert(place);
        }
    }
}

/// Leaves in `union` the places of the least siphons of all single resources. What is left in
/// `scratch` isn't said.
pub fn unite_singles<S: PlaceSet>(net: &Net, union: &mut S, scratch: &mut S, work: &mut Work)
    requires size { S.bound union.old ≡ place_count (flow_net net.now) }
    requires scratch { S.bound scratch.old ≡ place_count (flow_net net.now) }
    requires room { length net.now.points ≤ work.old }
    ensures size { S.bound union.new ≡ S.bound union.old }
    ensures scratch { S.bound scratch.new ≡ S.bound scratch.old }
    ensures room { work.new ≡ work.old }
    ensures singles { HoldsSingles (flow_net net.now) (length net.now.tokens) (S.places union.new) }
{
    net.keeps_flow();
    union.clear();
    for r in 0..net.resources() {
        net.least_siphon(1 << r, scratch, work);
        unite(union, scratch);
    }
}
