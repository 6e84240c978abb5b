//! New labels for the runs about a place.

ghost use Rattle.std.specs.Prelude.{◌≡◌, ℕ, ◌+◌, ◌-◌, ◌*◌, ◌<◌, ◌≤◌, ◌^◌, length, map, take, drop, slice_index_or, unwrap_or, All, Contains, IfSome};
ghost use Rattle.order_tree.specs.Pairs.{Tree, IsRising, first_label};
ghost use Rattle.order_tree.specs.Parts.{all_pairs};
ghost use Rattle.order_tree.specs.Shape.{AllBelow};

use crate::branch::Branch;
use crate::part::{free_before, place_of};
use ew_model::run::Run;
use ew_model::steps::Steps;
use std::sync::ledger::Ledger;

/// How far new labels lie apart at least, where runs are those of one leaf. With each level more of the part of the tree that
/// gets new labels it is four times as far, so that a part that got them serves the longer the greater it is.
const LEAST_STEP: u64 = 1 << 26;

/// New labels that were given about a place: that of the run at the place, and of each run that got one the old label, the new,
/// and the run, in order.
#[derive(Drop)]
pub struct Relabelled<R: Run> {
    pub own: u64,
    pub given: Vec<(u64, (u64, R))>,
}

/// What came of the search for a part of the tree that has room for new labels.
#[derive(Drop)]
pub enum Tried<R: Run> {
    /// New labels were given: of each run the old label, the new, and the run.
    Given(Vec<(u64, (u64, R))>),
    /// No new labels were given. So many runs there are.
    Crowded(usize),
    /// There is no memory to note them.
    NoMemory,
}

/// How far apart the new labels of so many runs lie that are spread evenly above `low` and up to `most`, with the room behind the
/// last. None where that is too near for a part of the tree with so many levels.
pub fn step_for(low: u64, most: u64, count: usize, depth: u32) -> Option<u64>
    requires few { count < 2 ^ 32 }
    ensures wide { IfSome result (λ step. 2 ≤ step) }
    ensures fits { IfSome result (λ step. low + (count + 1) * step < most + 1) }
{
    let step = most.saturating_sub(low) / (count as u64 + 1);
    if step < 2 || step < least_step(depth) {
        None
    } else {
        Some(step)
    }
}

/// The least step in a part of the tree with so many levels.
fn least_step(depth: u32) -> u64 {
    LEAST_STEP.saturating_mul(4u64.saturating_pow(depth.saturating_sub(1)))
}

/// The branch that a label is in, and the greatest label that is free behind it, where `most` is that behind all.
pub fn place_about<R: Run>(kids: &[Branch<R>], depth: u32, label: u64, most: u64) -> (usize, u64)
    requires below { AllBelow depth kids.now }
    requires one { 0 < length kids.now }
    requires rising { IsRising (all_pairs (λ k. k.pairs) kids.now) }
    ensures within { result.0 < length kids.now }
    ensures before { All (λ p. p.0 < label) (all_pairs (λ k. k.pairs) (take result.0 kids.now)) }
    ensures behind { All (λ p. label < p.0) (all_pairs (λ k. k.pairs) (drop (result.0 + 1) kids.now)) }
    ensures most { result.1 + 1 ≡ unwrap_or (first_label (all_pairs (λ k. k.pairs) (drop (result.0 + 1) kids.now))) (most + 1) }
{
    let k = place_of(kids, label);
    (k, free_before(kids, k + 1, most))
}

/// The number of runs in these branches.
fn count_in<R: Run, L: Ledger>(kids: &[Branch<R>], visits: &mut Steps<L>) -> usize
    requires { length (all_pairs (λ k. k.pairs) kids.now) < 2 ^ 32 }
    ensures count { result ≡ length (all_pairs (λ k. k.pairs) kids.now) }
    ensures onward { length (all_pairs (λ k. k.pairs) kids.now) + 16 * visits.old ≤ 16 * visits.new }
    ensures cost { visits.new + length kids.now ≤ visits.old + 2 * length (all_pairs (λ k. k.pairs) kids.now) }
{
    let mut count = 0;
    for kid in kids {
        count += kid.count(visits);
    }
    count
}

/// The number of runs in all these branches but one.
fn count_others<R: Run, L: Ledger>(kids: &[Branch<R>], k: usize, visits: &mut Steps<L>) -> usize
    requires within { k < length kids.now }
    requires few { length (all_pairs (λ k. k.pairs) kids.now) < 2 ^ 32 }
    ensures count { (d : Tree R) → result + length (slice_index_or kids.now k d).pairs ≡ length (all_pairs (λ k. k.pairs) kids.now) }
    ensures onward { result + 16 * visits.old ≤ 16 * visits.new }
    ensures cost { visits.new + length kids.now ≤ visits.old + 2 * result + 1 }
{
    let before = count_in(&kids[..k], visits);
    before + count_in(&kids[k + 1..], visits)
}

/// The number of runs in all the branches of a node but one.
pub fn count_beside<R: Run, L: Ledger>(
    kids: &Vec<Branch<R>>,
    k: usize,
    visits: &mut Steps<L>,
) -> usize
    requires within { k < length kids.now.items }
    requires few { length (all_pairs (λ k. k.pairs) kids.now.items) < 2 ^ 32 }
    ensures count { (d : Tree R) → result + length (slice_index_or kids.now.items k d).pairs ≡ length (all_pairs (λ k. k.pairs) kids.now.items) }
    ensures onward { result + 16 * visits.old ≤ 16 * visits.new }
    ensures cost { visits.new + length kids.now.items ≤ visits.old + 2 * result + 1 }
{
    count_others(kids.as_slice(), k, visits)
}

/// The new label of the run that had this one.
pub fn own_of<R: Run>(given: &[(u64, (u64, R))], label: u64) -> u64
    requires { Contains (map (λ g. g.0) given.now) label }
    ensures { (run : R) × Contains given.now (label, (result, run)) }
{
    for (old, (own, _)) in given {
        if *old == label {
            return *own;
        }
    }
    unreachable!()
}
