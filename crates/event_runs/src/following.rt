//! How far back runs follow one another.

ghost use Rattle.std.specs.Prelude.{◌≡◌, ◌<◌, ◌≤◌, length, IsTrue};
ghost use Rattle.event_runs.specs.Following.{Follows, FollowEach};

use crate::lists::NumberLists;
use crate::runs::Run;

/// How many runs a chain goes through at most.
const MOST_RUNS: u32 = 32;

/// The place of a run from which on each run follows the one before it, up to the run at a place.
pub fn first_followed(runs: &[Run], parents: &NumberLists, last: usize) -> usize
    requires within { last < length runs.now }
    requires alike { length parents.now ≡ length runs.now }
    ensures order { result ≤ last }
    ensures follow { FollowEach runs.now parents.now result last }
{
    let mut first = last;
    for _ in 1..MOST_RUNS {
        if !follows(runs, parents, first) {
            break;
        }
        first -= 1;
    }
    first
}

/// Whether the run at a place follows the one before it.
fn follows(runs: &[Run], parents: &NumberLists, place: usize) -> bool
    requires within { place < length runs.now }
    requires alike { length parents.now ≡ length runs.now }
    ensures { IsTrue result → Follows runs.now parents.now place }
{
    match parents.get(place) {
        [parent] => place > 0 && runs[place].start.checked_sub(1) == Some(*parent),
        _ => false,
    }
}
