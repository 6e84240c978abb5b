//! A branch put into a node, which is cut in two where it is full.

ghost use Rattle.std.specs.Prelude.{◌≡◌, ◌+◌, ◌<◌, ◌≤◌, ◌^◌, ◌&&◌, nat_le, Option, is_some, if◌then◌else◌, [], ◌++◌, length, take, drop, insert, vec_capacity, IfSome, IfOk, IsOk, OnErr};
ghost use Rattle.rope.specs.Blocks.{HasPlace, items_of};
ghost use Rattle.rope.specs.Nodes.{all_chars};
ghost use Rattle.rope.specs.Shape.{AllBelow};
ghost use Rattle.rope.specs.Rights.{chars_of_right, IsLike, with_right, HasSpare, IsLeft};
ghost use Rattle.rope.specs.Typed.{typed, with_more};

use crate::branch::Branch;
use crate::leaf::{Leaf, MOST_CHARS};
use crate::spares::{MOST_KIDS, Spares};
use crate::typed::put_typed;
use ew_model::NoMem;
use ew_model::text_op::TextOp;

/// How many characters stay at least in a leaf that is cut in two.
const LEAST_KEPT: u32 = 16;

/// How many stay at most where it is cut before its end, so that as many as the least go out of a full one.
const MOST_KEPT: u32 = 48;

/// Puts a branch into a node of this depth at a place. Where the node is full, its second half goes into the block, and is the answer.
pub fn put_kid(
    depth: u32,
    kids: &mut Vec<Branch>,
    at: usize,
    kid: Branch,
    block: Option<Vec<Branch>>,
) -> Option<Branch>
    requires at_most { at ≤ length kids.old.items }
    requires some { 1 ≤ length kids.old.items }
    requires place { HasPlace kids.old.items block }
    requires room { 16 ≤ vec_capacity kids.old }
    requires below { AllBelow depth (insert kids.old.items at kid) }
    requires small { length (all_chars (insert kids.old.items at kid)) < 2 ^ 32 }
    ensures chars { all_chars kids.new.items ++ chars_of_right result ≡ all_chars (insert kids.old.items at kid) }
    ensures below { AllBelow depth kids.new.items }
    ensures some { 2 ≤ length kids.new.items }
    ensures few { length kids.new.items ≤ 16 }
    ensures room { 16 ≤ vec_capacity kids.new }
    ensures like { IsLike depth result }
    ensures tail { is_some result ≡ is_some block }
{
    match put(kids, at, kid, block) {
        None => None,
        Some(tail) => Some(Branch::inner(depth, tail)),
    }
}

/// Puts the second part of a branch that was cut in two at its place, with a spare block where the node is full.
pub fn settle(
    depth: u32,
    kids: &mut Vec<Branch>,
    at: usize,
    right: Option<Branch>,
    spares: &mut Spares,
) -> Option<Branch>
    requires at_most { at ≤ length kids.old.items }
    requires some { 2 ≤ length kids.old.items }
    requires few { length kids.old.items ≤ 16 }
    requires room { 16 ≤ vec_capacity kids.old }
    requires spares { HasSpare right (length kids.old.items) spares.old.nodes }
    requires below { AllBelow depth (with_right kids.old.items at right) }
    requires small { length (all_chars (with_right kids.old.items at right)) < 2 ^ 32 }
    ensures chars { all_chars kids.new.items ++ chars_of_right result ≡ all_chars (with_right kids.old.items at right) }
    ensures below { AllBelow depth kids.new.items }
    ensures some { 2 ≤ length kids.new.items }
    ensures few { length kids.new.items ≤ 16 }
    ensures room { 16 ≤ vec_capacity kids.new }
    ensures like { IsLike depth result }
    ensures halves { is_some result ≡ (is_some right && nat_le 16 (length kids.old.items)) }
    ensures nodes { spares.new.nodes + (if is_some result then 1 else 0) ≡ spares.old.nodes }
    ensures leaves { spares.new.leaves ≡ spares.old.leaves }
{
    match right {
        None => None,
        Some(kid) => {
            let block = if kids.len() < MOST_KIDS {
                None
            } else {
                Some(spares.take_block())
            };
            put_kid(depth, kids, at, kid, block)
        }
    }
}

/// Puts a branch into a node at a place. Where the node is full, its second half goes into the block.
fn put(
    kids: &mut Vec<Branch>,
    at: usize,
    kid: Branch,
    block: Option<Vec<Branch>>,
) -> Option<Vec<Branch>>
    requires at_most { at ≤ length kids.old.items }
    requires place { HasPlace kids.old.items block }
    requires room { 16 ≤ vec_capacity kids.old }
    ensures items { kids.new.items ++ items_of result ≡ insert kids.old.items at kid }
    ensures tail { is_some result ≡ is_some block }
    ensures many { IfSome result (λ tail. (8 ≤ length tail.items) × (length tail.items ≤ 9) × (16 ≤ vec_capacity tail) × (8 ≤ length kids.new.items)) }
    ensures few { length kids.new.items ≤ 16 }
    ensures room { 16 ≤ vec_capacity kids.new }
{
    match block {
        None => {
            put_in(kids, at, kid);
            None
        }
        Some(mut tail) => {
            move_tail(kids, MOST_KIDS / 2, &mut tail);
            if at <= MOST_KIDS / 2 {
                put_in(kids, at, kid);
            } else {
                put_in(&mut tail, at - MOST_KIDS / 2, kid);
            }
            Some(tail)
        }
    }
}

/// Puts a branch where there is room.
pub fn put_in(kids: &mut Vec<Branch>, at: usize, kid: Branch)
    requires at_most { at ≤ length kids.old.items }
    requires few { length kids.old.items < 16 }
    requires room { 16 ≤ vec_capacity kids.old }
    ensures items { kids.new.items ≡ insert kids.old.items at kid }
    ensures len { length kids.new.items ≡ length kids.old.items + 1 }
    ensures room { 16 ≤ vec_capacity kids.new }
{
    let Ok(()) = kids.insert(at, kid) else {
        unreachable!()
    };
}

/// Moves the branches from a place on into an empty block.
fn move_tail(from: &mut Vec<Branch>, at: usize, to: &mut Vec<Branch>)
    requires at_most { at ≤ length from.old.items }
    requires empty { to.old.items ≡ [] }
    requires room { length from.old.items ≤ vec_capacity to.old }
    ensures from { from.new.items ≡ take at from.old.items }
    ensures to { to.new.items ≡ drop at from.old.items }
    ensures from_room { vec_capacity from.old ≤ vec_capacity from.new }
    ensures to_room { vec_capacity to.old ≤ vec_capacity to.new }
{
    while from.len() > at {
        if let Some(kid) = from.pop() {
            to.push_reserved(kid);
        }
    }
    to.reverse();
}

/// Puts the characters of typed operations into a leaf. Where there is no room for them, its second part is the answer; for it, and
/// for so many full nodes right above, leaves and blocks are held before the first change.
pub fn insert_in_leaf(
    leaf: &mut Leaf,
    at: u32,
    ops: &[TextOp],
    above: u32,
    spares: &mut Spares,
) -> Result<Option<Branch>, NoMem>
    requires within { at ≤ length leaf.old }
    requires typed { 0 < length (typed ops.now) }
    requires few { length ops.now ≤ 32 }
    ensures chars { IfOk result (λ right. leaf.new ++ chars_of_right right ≡ with_more leaf.old at (typed ops.now)) }
    ensures some { IfOk result (λ _. 0 < length leaf.new) }
    ensures like { IfOk result (λ right. IsLike 1 right) }
    ensures left { IfOk result (λ right. IsLeft above right spares.new.nodes) }
    ensures err { OnErr result (leaf.new ≡ leaf.old) }
    ensures leaves { spares.old.leaves ≤ spares.new.leaves + 1 }
    ensures nodes { spares.old.nodes ≤ spares.new.nodes }
    ensures sure { 1 ≤ spares.old.leaves → above ≤ spares.old.nodes → IsOk result }
{
    if leaf.len() as usize + ops.len() <= MOST_CHARS {
        put_typed(leaf, at, ops);
        return Ok(None);
    }
    spares.hold(1, above)?;
    let mut tail = spares.take_leaf();
    insert_cutting(leaf, at, ops, &mut tail);
    Ok(Some(Branch::leaf(tail)))
}

/// Cuts a leaf that has no room for the characters of typed operations in two, or leaves it whole where they come behind it, and puts
/// them into one of the parts. The second part goes into the empty leaf.
fn insert_cutting(leaf: &mut Leaf, at: u32, ops: &[TextOp], tail: &mut Leaf)
    requires at_most { at ≤ length leaf.old }
    requires over { 64 < length leaf.old + length ops.now }
    requires short { length leaf.old ≤ 64 }
    requires typed { 0 < length (typed ops.now) }
    requires few { length ops.now ≤ 32 }
    requires empty { tail.old ≡ [] }
    ensures chars { leaf.new ++ tail.new ≡ with_more leaf.old at (typed ops.now) }
    ensures left { 0 < length leaf.new }
    ensures right { 0 < length tail.new }
{
    let kept = kept_of(leaf.len(), at);
    leaf.move_tail(kept, tail);
    if at <= kept && kept as usize + ops.len() <= MOST_CHARS {
        put_typed(leaf, at, ops);
    } else {
        put_typed(tail, at - kept, ops);
    }
}

/// How many characters stay in a leaf of so many that is cut in two for an insertion at an index.
// Mostly those before the index: characters typed on at the end of a text leave full leaves behind, and no part of a full leaf gets
// tiny.
fn kept_of(len: u32, at: u32) -> u32
    requires many { 32 < len }
    requires at_most { at ≤ len }
    ensures within { result ≤ len }
    ensures first { at < result → result ≡ 16 }
    ensures last { result < at → result ≡ 48 }
{
    if at == len {
        len
    } else {
        at.clamp(LEAST_KEPT, MOST_KEPT)
    }
}
