//! Whether an event may have its parents at some positions.

ghost use Rattle.std.specs.Prelude.{◌≡◌, ◌<◌, true};
ghost use Rattle.std.specs.List.{All};
ghost use Rattle.std.specs.List.Sorted.{IsStrictlyIncreasing};
ghost use Rattle.ew_model.specs.Positions.{AreParents};

use ew_model::limits::MOST_PARENTS;

/// Whether an event behind so many may have its parents at these positions.
pub fn are_parents(positions: &[u32], count: u32) -> bool
    ensures { result ≡ true → AreParents count positions.now }
{
    positions.len() <= MOST_PARENTS as usize && are_rising(positions) && are_below(positions, count)
}

fn are_rising(positions: &[u32]) -> bool
    ensures { result ≡ true → IsStrictlyIncreasing positions.now }
{
    for place in 1..positions.len() {
        if positions[place - 1] >= positions[place] {
            return false;
        }
    }
    true
}

fn are_below(positions: &[u32], count: u32) -> bool
    ensures { result ≡ true → All (λ p. p < count) positions.now }
{
    positions.iter().all(|position| *position < count)
}
