// What is asked of one point, and of the tokens.
ghost use Rattle.std.specs.Prelude.{◌≡◌, ℕ, ◌<◌, ◌≤◌, ◌↔◌, IsTrue, length, slice_index};
ghost use Rattle.flow_checks.specs.Checks.{AreAtMostOne, IsPointOf, AreTokens};

use edges::Point;

/// Whether the first of these counts are at most 1.
fn are_at_most_one(counts: &[u32], first: u32) -> bool
    ensures { IsTrue result ↔ AreAtMostOne counts.now first }
{
    for r in 0..counts.len() {
        if r < first as usize && counts[r] > 1 {
            return false;
        }
    }
    true
}

/// Whether a point is of a thread, has a count for each resource, and holds no mutex twice.
pub fn is_point_of(point: &Point, threads: u32, mutexes: u32, resources: usize) -> bool
    ensures { IsTrue result ↔ IsPointOf point.now threads mutexes resources }
{
    point.thread < threads
        && point.held.len() == resources
        && are_at_most_one(point.held.as_slice(), mutexes)
}

/// Whether each resource has tokens, and each of the mutexes one.
pub fn are_tokens(tokens: &[u32], mutexes: u32) -> bool
    ensures { IsTrue result ↔ AreTokens tokens.now mutexes }
{
    for r in 0..tokens.len() {
        if tokens[r] == 0 || r < mutexes as usize && tokens[r] != 1 {
            return false;
        }
    }
    true
}
