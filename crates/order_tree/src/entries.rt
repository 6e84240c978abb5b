//! The runs of a leaf.

ghost use Rattle.std.specs.Prelude.{◌≡◌, ℕ, ◌+◌, ◌-◌, ◌<◌, ◌≤◌, ◌^◌, Some, length, Contains};
ghost use Rattle.order_tree.specs.Pairs.{IsRising, EndsWith, first_label, next_label, up_to, counted_after, total, IsPlace};
ghost use Rattle.order_tree.specs.Parts.{first_or_zero, last_known};
ghost use Rattle.order_tree.specs.Counts.{count_of};

use crate::count::{Count, effect_in, part_at, part_known_after};
use crate::part::{entries_up_to, free_before, place_of};
use ew_model::run::Run;

/// The run at a label.
pub fn run_in<R: Run>(entries: &[(u64, R)], label: u64) -> &R
    requires rising { IsRising entries.now }
    requires held { (r : R) × Contains entries.now (label, r) }
    ensures { Contains entries.now (label, result.now) }
{
    let k = place_of(entries, label);
    &entries[k].1
}

/// The last run up to a label, with its own, where the first run is up to it.
pub fn last_in<R: Run>(entries: &[(u64, R)], label: u64) -> (u64, &R)
    requires rising { IsRising entries.now }
    requires some { 0 < length entries.now }
    requires first { first_or_zero entries.now ≤ label }
    ensures { EndsWith (up_to entries.now label) result.0 result.1.now }
{
    let many = entries_up_to(entries, label);
    let last = &entries[many - 1];
    (last.0, &last.1)
}

/// The label of the run with the i-th of the characters counted, and the character's number in it.
pub fn place_in<R: Run>(entries: &[(u64, R)], count: Count, i: u32) -> (u64, u32)
    requires rising { IsRising entries.now }
    requires within { i < total (count_of R.Run count) entries.now }
    ensures { IsPlace (count_of R.Run count) entries.now i result.0 result.1 }
{
    let (k, rest) = part_at(entries, count, i);
    (entries[k].0, rest)
}

/// How many characters of the text are in runs up to a label.
pub fn effect_up_to_in<R: Run>(entries: &[(u64, R)], label: u64) -> u32
    requires rising { IsRising entries.now }
    requires small { total R.effect entries.now < 2 ^ 32 }
    ensures { result ≡ total R.effect (up_to entries.now label) }
{
    let k = entries_up_to(entries, label);
    effect_in(&entries[..k])
}

/// The least greater label of a run with a known character, which there is.
pub fn known_after_in<R: Run>(entries: &[(u64, R)], label: u64) -> u64
    requires rising { IsRising entries.now }
    requires some { label < last_known R.known entries.now }
    ensures { first_label (counted_after R.known entries.now label) ≡ Some result }
{
    let k = part_known_after(entries, label);
    entries[k].0
}

/// The greatest label that is free before the next run, where `most` is that behind all of these.
pub fn last_free_in<R: Run>(entries: &[(u64, R)], label: u64, most: u64) -> u64
    requires { IsRising entries.now }
    ensures { result + 1 ≡ next_label (most + 1) entries.now label }
{
    let k = entries_up_to(entries, label);
    free_before(entries, k, most)
}
