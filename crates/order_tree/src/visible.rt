//! Characters that are visible in what is prepared, by their numbers.

ghost use Rattle.std.specs.Prelude.{◌≡◌, ℕ, ◌+◌, ◌<◌, ◌^◌, length, Contains};
ghost use Rattle.order_tree.specs.Pairs.{IsRising, lower, total, IsPlace};
ghost use Rattle.order_tree.specs.Parts.{all_pairs};
ghost use Rattle.order_tree.specs.Shape.{AllBelow};

use crate::branch::Branch;
use crate::count::visible_part;
use ew_model::run::Run;

/// A character that is visible in what is prepared: its run with its label, its place among the run's characters that are
/// visible there, and how many characters of the text are in runs with lower labels.
#[derive(Clone, Copy)]
pub struct Visible<'a, R> {
    pub label: u64,
    pub run: &'a R,
    pub place: u32,
    pub before: u32,
}

/// The i-th of them in a leaf.
pub fn visible_in<R: Run>(entries: &[(u64, R)], i: u32) -> Visible<'_, R>
    requires rising { IsRising entries.now }
    requires within { i < total R.prepared entries.now }
    requires small { total R.effect entries.now < 2 ^ 32 }
    ensures place { IsPlace R.prepared entries.now i result.label result.place }
    ensures run { Contains entries.now (result.label, result.run.now) }
    ensures before { result.before ≡ total R.effect (lower entries.now result.label) }
{
    let (k, place, before) = visible_part(entries, i);
    let entry = &entries[k];
    Visible {
        label: entry.0,
        run: &entry.1,
        place,
        before,
    }
}

/// The branch with the i-th of them, how many characters of the text are before the branch, and the character's number there.
pub fn kid_visible<R: Run>(kids: &[Branch<R>], depth: u32, i: u32) -> (&Branch<R>, u32, u32)
    requires below { AllBelow depth kids.now }
    requires rising { IsRising (all_pairs (λ k. k.pairs) kids.now) }
    requires within { i < total R.prepared (all_pairs (λ k. k.pairs) kids.now) }
    requires small { total R.effect (all_pairs (λ k. k.pairs) kids.now) < 2 ^ 32 }
    ensures lower { result.0.now.depth + 1 ≡ depth }
    ensures rising { IsRising result.0.now.pairs }
    ensures within { result.2 < total R.prepared result.0.now.pairs }
    ensures small { total R.effect result.0.now.pairs < 2 ^ 32 }
    ensures place { (label place : ℕ) → IsPlace R.prepared result.0.now.pairs result.2 label place → IsPlace R.prepared (all_pairs (λ k. k.pairs) kids.now) i label place }
    ensures held { (label : ℕ) (r : R) → Contains result.0.now.pairs (label, r) → Contains (all_pairs (λ k. k.pairs) kids.now) (label, r) }
    ensures before { (label : ℕ) (r : R) → Contains result.0.now.pairs (label, r) → result.1 + total R.effect (lower result.0.now.pairs label) ≡ total R.effect (lower (all_pairs (λ k. k.pairs) kids.now) label) }
    ensures fits { (label : ℕ) → result.1 + total R.effect (lower result.0.now.pairs label) < 2 ^ 32 }
{
    let (k, rest, before) = visible_part(kids, i);
    (&kids[k], before, rest)
}
