//! The branches of a node: which of them a search goes into.

ghost use Rattle.std.specs.Prelude.{◌≡◌, ℕ, ◌+◌, ◌-◌, ◌<◌, ◌≤◌, ◌^◌, Some, length, Contains};
ghost use Rattle.order_tree.specs.Pairs.{IsRising, EndsWith, first_label, next_label, up_to, counted_after, total, IsPlace};
ghost use Rattle.order_tree.specs.Parts.{first_or_zero, all_pairs, last_known};
ghost use Rattle.order_tree.specs.Shape.{AllBelow};
ghost use Rattle.order_tree.specs.Counts.{count_of};

use crate::branch::Branch;
use crate::count::{Count, effect_in, part_at, part_known_after};
use crate::part::{free_before, place_of};
use ew_model::run::Run;

/// The branch with the run at a label.
pub fn kid_with<R: Run>(kids: &[Branch<R>], depth: u32, label: u64) -> &Branch<R>
    requires below { AllBelow depth kids.now }
    requires one { 0 < length kids.now }
    requires rising { IsRising (all_pairs (λ k. k.pairs) kids.now) }
    requires held { (r : R) × Contains (all_pairs (λ k. k.pairs) kids.now) (label, r) }
    ensures lower { result.now.depth + 1 ≡ depth }
    ensures rising { IsRising result.now.pairs }
    ensures held { (r : R) × Contains result.now.pairs (label, r) }
    ensures back { (r : R) → Contains result.now.pairs (label, r) → Contains (all_pairs (λ k. k.pairs) kids.now) (label, r) }
{
    let k = place_of(kids, label);
    &kids[k]
}

/// The branch with the last run up to a label, where the first run is up to it.
pub fn kid_last<R: Run>(kids: &[Branch<R>], depth: u32, label: u64) -> &Branch<R>
    requires below { AllBelow depth kids.now }
    requires one { 0 < length kids.now }
    requires rising { IsRising (all_pairs (λ k. k.pairs) kids.now) }
    requires first { first_or_zero (all_pairs (λ k. k.pairs) kids.now) ≤ label }
    ensures lower { result.now.depth + 1 ≡ depth }
    ensures rising { IsRising result.now.pairs }
    ensures first { first_or_zero result.now.pairs ≤ label }
    ensures back { (own : ℕ) (run : R) → EndsWith (up_to result.now.pairs label) own run → EndsWith (up_to (all_pairs (λ k. k.pairs) kids.now) label) own run }
{
    let k = place_of(kids, label);
    &kids[k]
}

/// The branch with the i-th of the characters counted, and the character's number there.
pub fn kid_at<R: Run>(kids: &[Branch<R>], depth: u32, count: Count, i: u32) -> (&Branch<R>, u32)
    requires below { AllBelow depth kids.now }
    requires rising { IsRising (all_pairs (λ k. k.pairs) kids.now) }
    requires within { i < total (count_of R.Run count) (all_pairs (λ k. k.pairs) kids.now) }
    ensures lower { result.0.now.depth + 1 ≡ depth }
    ensures rising { IsRising result.0.now.pairs }
    ensures within { result.1 < total (count_of R.Run count) result.0.now.pairs }
    ensures back { (label place : ℕ) → IsPlace (count_of R.Run count) result.0.now.pairs result.1 label place → IsPlace (count_of R.Run count) (all_pairs (λ k. k.pairs) kids.now) i label place }
{
    let (k, rest) = part_at(kids, count, i);
    (&kids[k], rest)
}

/// The branch with the last runs up to a label, and how many characters of the text are before it.
pub fn kid_up_to<R: Run>(kids: &[Branch<R>], depth: u32, label: u64) -> (&Branch<R>, u32)
    requires below { AllBelow depth kids.now }
    requires one { 0 < length kids.now }
    requires rising { IsRising (all_pairs (λ k. k.pairs) kids.now) }
    requires small { total R.effect (all_pairs (λ k. k.pairs) kids.now) < 2 ^ 32 }
    ensures lower { result.0.now.depth + 1 ≡ depth }
    ensures rising { IsRising result.0.now.pairs }
    ensures small { total R.effect result.0.now.pairs < 2 ^ 32 }
    ensures sum { result.1 + total R.effect (up_to result.0.now.pairs label) ≡ total R.effect (up_to (all_pairs (λ k. k.pairs) kids.now) label) }
    ensures fits { result.1 + total R.effect (up_to result.0.now.pairs label) < 2 ^ 32 }
{
    let k = place_of(kids, label);
    let before = effect_in(&kids[..k]);
    (&kids[k], before)
}

/// The first branch with a known character behind a label, which there is.
pub fn kid_known_after<R: Run>(kids: &[Branch<R>], depth: u32, label: u64) -> &Branch<R>
    requires below { AllBelow depth kids.now }
    requires rising { IsRising (all_pairs (λ k. k.pairs) kids.now) }
    requires some { label < last_known R.known (all_pairs (λ k. k.pairs) kids.now) }
    ensures lower { result.now.depth + 1 ≡ depth }
    ensures rising { IsRising result.now.pairs }
    ensures some { label < last_known R.known result.now.pairs }
    ensures back { (next : ℕ) → first_label (counted_after R.known result.now.pairs label) ≡ Some next → first_label (counted_after R.known (all_pairs (λ k. k.pairs) kids.now) label) ≡ Some next }
{
    let k = part_known_after(kids, label);
    &kids[k]
}

/// The branch with the last runs up to a label, and the greatest label that is free behind it, where `most` is that behind all.
pub fn kid_before<R: Run>(
    kids: &[Branch<R>],
    depth: u32,
    label: u64,
    most: u64,
) -> (&Branch<R>, u64)
    requires below { AllBelow depth kids.now }
    requires one { 0 < length kids.now }
    requires rising { IsRising (all_pairs (λ k. k.pairs) kids.now) }
    ensures lower { result.0.now.depth + 1 ≡ depth }
    ensures rising { IsRising result.0.now.pairs }
    ensures next { next_label (result.1 + 1) result.0.now.pairs label ≡ next_label (most + 1) (all_pairs (λ k. k.pairs) kids.now) label }
{
    let k = place_of(kids, label);
    (&kids[k], free_before(kids, k + 1, most))
}
