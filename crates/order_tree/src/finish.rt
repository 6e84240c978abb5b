//! What is left to do at a node after an edit below it.

ghost use Rattle.std.specs.Prelude.{◌≡◌, ℕ, ◌+◌, ◌*◌, ◌^◌, ◌<◌, ◌≤◌, None, ◌++◌, length, vec_capacity, IfOk, OnErr};
ghost use Rattle.order_tree.specs.Pairs.{IsRising, SumsFit};
ghost use Rattle.order_tree.specs.Parts.{all_pairs, sums_of, summary_of, IsMoved};
ghost use Rattle.order_tree.specs.Shape.{AllBelow};
ghost use Rattle.order_tree.specs.Edits.{IsPlaced, IsFree, StaysFit};
ghost use Rattle.order_tree.specs.Rights.{pairs_of_right, IsLike, IsLeft, IsBranchEdit, with_right, above_kids, leaf_of};

use crate::branch::{Branch, Edited};
use crate::edit::Edit;
use crate::halves::{inner_halves, leaf_halves, settle};
use crate::leaf::{Way, edit_leaf};
use crate::spares::Spares;
use crate::summary::{Summary, Sums};
use ew_model::NoMem;
use ew_model::run::Run;

/// Does an edit in a leaf with these sums, and answers what is kept of it now.
pub fn edit_entries<R: Run + Drop>(
    entries: &mut Vec<(u64, R)>,
    sums: Sums,
    edit: Edit<R>,
    way: Way,
    spares: &mut Spares<R>,
) -> Result<(Summary, Edited<R>), NoMem>
    requires some { 1 ≤ length entries.old.items }
    requires few { length entries.old.items ≤ 16 }
    requires room { 16 ≤ vec_capacity entries.old }
    requires rising { IsRising entries.old.items }
    requires placed { IsPlaced R.Run edit way.label entries.old.items }
    requires label { IsFree edit (way.most + 1) entries.old.items way.label }
    requires fits { StaysFit R.Run edit way.label entries.old.items }
    requires spares { spares.old ≡ 0 }
    requires kept { sums ≡ sums_of R.Run entries.old.items }
    ensures summary { IfOk result (λ d. d.0 ≡ summary_of R.Run entries.new.items) }
    ensures some { 1 ≤ length entries.new.items }
    ensures few { length entries.new.items ≤ 16 }
    ensures room { 16 ≤ vec_capacity entries.new }
    ensures edited { IfOk result (λ d. IsBranchEdit R.Run edit (way.most + 1) way.label way.above (leaf_of entries.old.items) (leaf_of entries.new.items) d.1.right d.1.own d.1.lost d.1.gained spares.new) }
    ensures err { OnErr result (entries.new.items ≡ entries.old.items) }
{
    let done = edit_leaf(entries, edit, way, spares)?;
    let list = entries.as_slice();
    let (summary, right) = leaf_halves(list, done.tail, sums, done.lost, done.gained);
    let edited = Edited {
        own: done.own,
        lost: done.lost,
        gained: done.gained,
        right,
    };
    Ok((summary, edited))
}

/// Puts the second half of a branch at its place after an edit there, and answers what is kept of the node now, and what was done.
pub fn finish<R: Run + Drop>(
    depth: u32,
    above: u32,
    kids: &mut Vec<Branch<R>>,
    at: usize,
    sums: Sums,
    done: Edited<R>,
    spares: &mut Spares<R>,
) -> (Summary, Edited<R>)
    requires at_most { at ≤ length kids.old.items }
    requires some { 2 ≤ length kids.old.items }
    requires few { length kids.old.items ≤ 16 }
    requires room { 16 ≤ vec_capacity kids.old }
    requires spares { IsLeft (above_kids (length kids.old.items) above) done.right spares.old }
    requires below { AllBelow depth (with_right kids.old.items at done.right) }
    requires fit { SumsFit R.Run (all_pairs (λ k. k.pairs) (with_right kids.old.items at done.right)) }
    requires moved { IsMoved sums done.lost done.gained (sums_of R.Run (all_pairs (λ k. k.pairs) (with_right kids.old.items at done.right))) }
    ensures pairs { all_pairs (λ k. k.pairs) kids.new.items ++ pairs_of_right result.1.right ≡ all_pairs (λ k. k.pairs) (with_right kids.old.items at done.right) }
    ensures summary { result.0 ≡ summary_of R.Run (all_pairs (λ k. k.pairs) kids.new.items) }
    ensures below { AllBelow depth kids.new.items }
    ensures some { 2 ≤ length kids.new.items }
    ensures few { length kids.new.items ≤ 16 }
    ensures room { 16 ≤ vec_capacity kids.new }
    ensures like { IsLike depth result.1.right }
    ensures spares { IsLeft above result.1.right spares.new }
    ensures own { result.1.own ≡ done.own }
    ensures lost { result.1.lost ≡ done.lost }
    ensures gained { result.1.gained ≡ done.gained }
{
    let (own, lost, gained) = (done.own, done.lost, done.gained);
    let tail = settle(kids, at, done.right, spares);
    let (summary, right) = inner_halves(depth, kids.as_slice(), tail, sums, lost, gained);
    let edited = Edited {
        own,
        lost,
        gained,
        right,
    };
    (summary, edited)
}
