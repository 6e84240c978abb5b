//! Characters that operations insert one behind another, so that they go in by one way down.

ghost use Rattle.std.specs.Prelude.{◌≡◌, ◌+◌, ◌<◌, ◌≤◌, [], ◌∷◌, IsTrue, IfSome, length, take};
ghost use Rattle.rope.specs.Typed.{typed, with_more, IsTyped};

use crate::leaf::Leaf;
use ew_model::text_op::TextOp;

/// How many characters go in by one way down at most.
pub const MOST_TYPED: usize = 32;

/// How many of the operations, of which the first is an insertion, insert one behind another: thirty-two at most.
pub fn typed_length(at: u32, ops: &[TextOp]) -> usize
    requires some { 0 < length ops.now }
    requires first { IsTyped at (take 1 ops.now) }
    ensures some { 1 ≤ result }
    ensures within { result ≤ length ops.now }
    ensures most { result ≤ 32 }
    ensures typed { IsTyped at (take result ops.now) }
{
    let most = looked_at(ops);
    for many in 1..most {
        if !is_insertion_at(ops[many], at, many) {
            return many;
        }
    }
    most
}

/// How many operations are looked at: all, but thirty-two at most.
fn looked_at(ops: &[TextOp]) -> usize
    ensures some { 0 < length ops.now → 1 ≤ result }
    ensures within { result ≤ length ops.now }
    ensures most { result ≤ 32 }
{
    ops.len().min(MOST_TYPED)
}

/// Whether an operation is an insertion at a place so many behind the first.
fn is_insertion_at(op: TextOp, first: u32, many: usize) -> bool
    requires { many ≤ 32 }
    ensures { IsTrue result → IsTyped (first + many) (op ∷ []) }
{
    match op {
        TextOp::Ins { at, .. } => at as usize == first as usize + many,
        _ => false,
    }
}

/// Where the operations insert one behind another, of which there are thirty-two at most.
pub fn typed_at(ops: &[TextOp]) -> Option<u32>
    ensures some { IfSome result (λ _. 0 < length ops.now) }
    ensures few { IfSome result (λ _. length ops.now ≤ 32) }
    ensures typed { IfSome result (λ at. IsTyped at ops.now) }
{
    if ops.is_empty() {
        return None;
    }
    let TextOp::Ins { at, .. } = ops[0] else {
        return None;
    };
    if typed_length(at, ops) < ops.len() {
        return None;
    }
    Some(at)
}

/// Puts the characters that operations insert into a leaf, one behind another from an index on.
pub fn put_typed(leaf: &mut Leaf, at: u32, ops: &[TextOp])
    requires within { at ≤ length leaf.old }
    requires room { length leaf.old + length ops.now ≤ 64 }
    ensures chars { leaf.new ≡ with_more leaf.old at (typed ops.now) }
    ensures long { length leaf.new ≡ length leaf.old + length (typed ops.now) }
{
    let mut place = at;
    for op in ops {
        place = put_op(leaf, place, *op);
    }
}

/// Puts the character of an insertion into a leaf at an index. Answers the index behind it.
fn put_op(leaf: &mut Leaf, at: u32, op: TextOp) -> u32
    requires within { at ≤ length leaf.old }
    requires room { length leaf.old < 64 }
    ensures chars { leaf.new ≡ with_more leaf.old at (typed (op ∷ [])) }
    ensures place { result ≡ at + length (typed (op ∷ [])) }
    ensures long { length leaf.new ≡ length leaf.old + length (typed (op ∷ [])) }
{
    match op {
        TextOp::Ins { ch, .. } => {
            leaf.insert(at, ch);
            at + 1
        }
        _ => at,
    }
}
