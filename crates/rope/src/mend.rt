//! A node put right after a removal below it: an empty leaf goes, and the last branch of a poor node moves to a neighbour.

ghost use Rattle.std.specs.Prelude.{◌≡◌, ◌+◌, ◌<◌, ◌≤◌, ◌^◌, ◌++◌, length, take, drop, slice_index_or, vec_capacity};
ghost use Rattle.rope.specs.Blocks.{IsRoomy};
ghost use Rattle.rope.specs.Nodes.{Seen, all_chars};
ghost use Rattle.rope.specs.Shape.{AllBelow, IsSound};
ghost use Rattle.rope.specs.Rights.{with_right};

use crate::branch::Branch;
use crate::halves::put_in;

/// Puts the branches of a node right, of which one may have too few parts.
pub fn mend(depth: u32, kids: &mut Vec<Branch>, k: usize)
    requires within { k < length kids.old.items }
    requires some { 2 ≤ length kids.old.items }
    requires few { length kids.old.items ≤ 16 }
    requires room { 16 ≤ vec_capacity kids.old }
    requires before { AllBelow depth (take k kids.old.items) }
    requires behind { AllBelow depth (drop (k + 1) kids.old.items) }
    requires lower { (d : Seen) → (slice_index_or kids.old.items k d).depth + 1 ≡ depth }
    requires small { length (all_chars kids.old.items) < 2 ^ 32 }
    ensures chars { all_chars kids.new.items ≡ all_chars kids.old.items }
    ensures below { AllBelow depth kids.new.items }
    ensures some { 1 ≤ length kids.new.items }
    ensures few { length kids.new.items ≤ 16 }
    ensures room { 16 ≤ vec_capacity kids.new }
{
    if kids[k].is_sound() {
        return;
    }
    let poor = kids.remove(k);
    if let Some((kid, block)) = poor.into_last() {
        give(depth, kids, k, kid, block);
    }
}

/// Gives the last branch of a poor node, which stood at k, to the neighbour before it, or to the one behind where it was the first.
fn give(depth: u32, kids: &mut Vec<Branch>, k: usize, kid: Branch, block: Vec<Branch>)
    requires within { k ≤ length kids.old.items }
    requires some { 1 ≤ length kids.old.items }
    requires few { length kids.old.items < 16 }
    requires room { 16 ≤ vec_capacity kids.old }
    requires below { AllBelow depth kids.old.items }
    requires lower { kid.depth + 2 ≡ depth }
    requires sound { IsSound kid }
    requires block { IsRoomy block }
    requires small { length (all_chars kids.old.items) + length kid.chars < 2 ^ 32 }
    ensures chars { all_chars kids.new.items ≡ all_chars (take k kids.old.items) ++ (kid.chars ++ all_chars (drop k kids.old.items)) }
    ensures below { AllBelow depth kids.new.items }
    ensures some { 1 ≤ length kids.new.items }
    ensures few { length kids.new.items ≤ 16 }
    ensures room { 16 ≤ vec_capacity kids.new }
{
    if k > 0 {
        let right = kids[k - 1].adopt_last(kid, block);
        put_right(kids, k, right);
    } else {
        let right = kids[0].adopt_first(kid, block);
        put_right(kids, 1, right);
    }
}

/// Puts the second half of a branch that was cut in two where there is room.
fn put_right(kids: &mut Vec<Branch>, at: usize, right: Option<Branch>)
    requires at_most { at ≤ length kids.old.items }
    requires few { length kids.old.items < 16 }
    requires room { 16 ≤ vec_capacity kids.old }
    ensures items { kids.new.items ≡ with_right kids.old.items at right }
    ensures some { length kids.old.items ≤ length kids.new.items }
    ensures few { length kids.new.items ≤ 16 }
    ensures room { 16 ≤ vec_capacity kids.new }
{
    if let Some(right) = right {
        put_in(kids, at, right);
    }
}
