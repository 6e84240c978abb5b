//! Heads, by their places.

ghost use Rattle.std.specs.Prelude.{◌≤◌, ◌<◌, length};
ghost use Rattle.std.specs.List.{AllWithin};
ghost use Rattle.fugue_place.specs.Ways.{AreInOrder};

use sorted_search::count_passing;

/// How many of the heads stand at a place or before it.
pub fn heads_to(heads: &[u32], at: u32) -> usize
    requires { AreInOrder heads.now }
    ensures bound { result ≤ length heads.now }
    ensures to { AllWithin (λ h. h ≤ at) heads.now 0 result }
    ensures behind { AllWithin (λ h. at < h) heads.now result (length heads.now) }
{
    count_passing(heads, |head| *head <= at)
}
