//! What is kept of a node after an edit, and its second half where it was cut in two.

ghost use Rattle.std.specs.Prelude.{◌≡◌, ℕ, ◌+◌, ◌-◌, ◌*◌, ◌^◌, ◌<◌, ◌≤◌, ◌&&◌, nat_lt, nat_le, Option, is_some, if◌then◌else◌, All, List, [], ◌∷◌, ◌++◌, length, take, drop, unwrap_or, vec_capacity, IfSome};
ghost use Rattle.order_tree.specs.Pairs.{IsRising, first_label, SumsFit};
ghost use Rattle.order_tree.specs.Parts.{all_pairs, sums_of, summary_of, IsMoved};
ghost use Rattle.order_tree.specs.Blocks.{items_of};
ghost use Rattle.order_tree.specs.Shape.{AllBelow};
ghost use Rattle.order_tree.specs.Rights.{pairs_of_right, IsLike, HasParts, HasSpare, with_right};

use crate::branch::Branch;
use crate::edit::put;
use crate::leaf::Way;
use crate::part::{free_before, place_of, summary_after, summary_in};
use crate::spares::{MOST_PARTS, Spares};
use crate::summary::{Summary, Sums};
use ew_model::run::Run;

/// What is kept of a leaf.
pub fn leaf_summary<R: Run>(entries: &[(u64, R)]) -> Summary
    requires some { 1 ≤ length entries.now }
    requires fit { SumsFit R.Run entries.now }
    ensures { result ≡ summary_of R.Run entries.now }
{
    summary_in(entries)
}

/// What is kept of a node above branches.
pub fn inner_summary<R: Run>(depth: u32, kids: &[Branch<R>]) -> Summary
    requires below { AllBelow depth kids.now }
    requires some { 1 ≤ length kids.now }
    requires fit { SumsFit R.Run (all_pairs (λ k. k.pairs) kids.now) }
    ensures { result ≡ summary_of R.Run (all_pairs (λ k. k.pairs) kids.now) }
{
    summary_in(kids)
}

/// What is kept of a leaf after an edit, and its second half as a leaf.
pub fn leaf_halves<R: Run>(
    entries: &[(u64, R)],
    tail: Option<Vec<(u64, R)>>,
    old: Sums,
    lost: Sums,
    gained: Sums,
) -> (Summary, Option<Branch<R>>)
    requires some { 1 ≤ length entries.now }
    requires tail { IfSome tail (HasParts 1) }
    requires fit { SumsFit R.Run (entries.now ++ items_of tail) }
    requires moved { IsMoved old lost gained (sums_of R.Run (entries.now ++ items_of tail)) }
    ensures summary { result.0 ≡ summary_of R.Run entries.now }
    ensures pairs { pairs_of_right result.1 ≡ items_of tail }
    ensures like { IsLike 1 result.1 }
    ensures halves { is_some result.1 ≡ is_some tail }
{
    match tail {
        None => (summary_after(entries, old, lost, gained), None),
        Some(tail) => (leaf_summary(entries), Some(Branch::leaf(tail))),
    }
}

/// The same of a node above branches.
pub fn inner_halves<R: Run>(
    depth: u32,
    kids: &[Branch<R>],
    tail: Option<Vec<Branch<R>>>,
    old: Sums,
    lost: Sums,
    gained: Sums,
) -> (Summary, Option<Branch<R>>)
    requires some { 1 ≤ length kids.now }
    requires tail { IfSome tail (HasParts 2) }
    requires below { AllBelow depth (kids.now ++ items_of tail) }
    requires fit { SumsFit R.Run (all_pairs (λ k. k.pairs) (kids.now ++ items_of tail)) }
    requires moved { IsMoved old lost gained (sums_of R.Run (all_pairs (λ k. k.pairs) (kids.now ++ items_of tail))) }
    ensures summary { result.0 ≡ summary_of R.Run (all_pairs (λ k. k.pairs) kids.now) }
    ensures pairs { pairs_of_right result.1 ≡ all_pairs (λ k. k.pairs) (items_of tail) }
    ensures like { IsLike depth result.1 }
    ensures halves { is_some result.1 ≡ is_some tail }
{
    match tail {
        None => (summary_after(kids, old, lost, gained), None),
        Some(tail) => (inner_summary(depth, kids), Some(Branch::inner(depth, tail))),
    }
}

/// The branch that an edit goes into, and its way there.
pub fn way_down<R: Run>(depth: u32, kids: &[Branch<R>], way: Way) -> (usize, Way)
    requires below { AllBelow depth kids.now }
    requires one { 0 < length kids.now }
    requires rising { IsRising (all_pairs (λ k. k.pairs) kids.now) }
    requires above { way.above + 1 < 2 ^ 32 }
    ensures within { result.0 < length kids.now }
    ensures before { All (λ p. p.0 < way.label) (all_pairs (λ k. k.pairs) (take result.0 kids.now)) }
    ensures behind { All (λ p. way.label < p.0) (all_pairs (λ k. k.pairs) (drop (result.0 + 1) kids.now)) }
    ensures label { result.1.label ≡ way.label }
    ensures most { result.1.most + 1 ≡ unwrap_or (first_label (all_pairs (λ k. k.pairs) (drop (result.0 + 1) kids.now))) (way.most + 1) }
    ensures above { result.1.above ≡ (if nat_lt (length kids.now) 16 then 0 else way.above + 1) }
{
    let k = place_of(kids, way.label);
    let most = free_before(kids, k + 1, way.most);
    let above = if kids.len() < MOST_PARTS {
        0
    } else {
        way.above + 1
    };
    (k, Way { most, above, ..way })
}

/// Puts the second half of a branch that was cut in two at its place, with a spare block where the node is full.
pub fn settle<R: Run + Drop>(
    kids: &mut Vec<Branch<R>>,
    at: usize,
    right: Option<Branch<R>>,
    spares: &mut Spares<R>,
) -> Option<Vec<Branch<R>>>
    requires at_most { at ≤ length kids.old.items }
    requires some { 2 ≤ length kids.old.items }
    requires few { length kids.old.items ≤ 16 }
    requires room { 16 ≤ vec_capacity kids.old }
    requires spares { HasSpare right (length kids.old.items) spares.old }
    ensures kids { kids.new.items ++ items_of result ≡ with_right kids.old.items at right }
    ensures some { 2 ≤ length kids.new.items }
    ensures few { length kids.new.items ≤ 16 }
    ensures room { 16 ≤ vec_capacity kids.new }
    ensures tail { IfSome result (HasParts 2) }
    ensures halves { is_some result ≡ (is_some right && nat_le 16 (length kids.old.items)) }
    ensures spares { spares.new + (if is_some result then 1 else 0) ≡ spares.old }
{
    match right {
        None => None,
        Some(right) => {
            let block = if kids.len() < MOST_PARTS {
                None
            } else {
                Some(spares.take())
            };
            put(kids, at, right, block)
        }
    }
}
