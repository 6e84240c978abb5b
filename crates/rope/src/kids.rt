//! The branches of a node: which of them a change or a search goes into, and what they have together.

ghost use Rattle.std.specs.Prelude.{◌≡◌, ◌+◌, ◌<◌, ◌≤◌, ◌^◌, length, take, slice_index_or, nat_lt, if◌then◌else◌, IsTrue, false};
ghost use Rattle.rope.specs.Nodes.{Seen, all_chars, all_leaves};
ghost use Rattle.rope.specs.Blocks.{IsRoomy, HasPlace};
ghost use Rattle.rope.specs.Counts.{wide_chars, utf8_bytes};
ghost use Rattle.rope.specs.Shape.{AllBelow};

use crate::branch::Branch;
use crate::leaf::MOST_CHARS;
use crate::spares::MOST_KIDS;

/// How many characters some branches have, how many leaves, how many of the characters take two code units of UTF-16, and how many bytes
/// of UTF-8 the characters take.
#[derive(Clone, Copy, Debug, PartialEq, Eq)]
pub struct Sizes {
    pub chars: u32,
    pub leaves: u32,
    pub wide: u32,
    pub bytes: u64,
}

/// The branch with the character at an index, and the character's index there.
pub fn kid_at(kids: &[Branch], at: u32) -> (usize, u32)
    requires { at < length (all_chars kids.now) }
    ensures within { result.0 < length kids.now }
    ensures before { at ≡ length (all_chars (take result.0 kids.now)) + result.1 }
    ensures inside { (d : Seen) → result.1 < length (slice_index_or kids.now result.0 d).chars }
{
    let mut rest = at;
    for (k, kid) in kids.iter().enumerate() {
        if rest < kid.len() {
            return (k, rest);
        }
        rest -= kid.len();
    }
    unreachable!()
}

/// The branch into which a character at an index is put, and its index there. Where two branches meet the one behind is taken, or
/// the one before, where that is a leaf with room.
pub fn kid_open(kids: &[Branch], at: u32) -> (usize, u32)
    requires some { 0 < length kids.now }
    requires in_range { at ≤ length (all_chars kids.now) }
    ensures within { result.0 < length kids.now }
    ensures before { at ≡ length (all_chars (take result.0 kids.now)) + result.1 }
    ensures inside { (d : Seen) → result.1 ≤ length (slice_index_or kids.now result.0 d).chars }
{
    let last = kids.len() - 1;
    let mut rest = at;
    for (k, kid) in kids.iter().enumerate() {
        if k == last || takes(kid, rest) {
            return (k, rest);
        }
        rest -= kid.len();
    }
    unreachable!()
}

/// Whether a character at an index is put into the branch: before its end, or at the end of a leaf that has room.
fn takes(branch: &Branch, at: u32) -> bool
    ensures yes { IsTrue result → at ≤ length branch.now.chars }
    ensures no { result ≡ false → length branch.now.chars ≤ at }
{
    let len = branch.len();
    at < len || at == len && branch.leaves() == 1 && (len as usize) < MOST_CHARS
}

/// How many full nodes stand right above the branches of a node, where so many stand right above it.
pub fn above_kids(kids: &[Branch], above: u32) -> u32
    requires { above + 1 < 2 ^ 32 }
    ensures { result ≡ (if nat_lt (length kids.now) 16 then 0 else above + 1) }
{
    if kids.len() < MOST_KIDS { 0 } else { above + 1 }
}

/// What the branches have together.
pub fn sizes_in(depth: u32, kids: &[Branch]) -> Sizes
    requires below { AllBelow depth kids.now }
    requires small { length (all_chars kids.now) < 2 ^ 32 }
    ensures chars { result.chars ≡ length (all_chars kids.now) }
    ensures leaves { result.leaves ≡ all_leaves kids.now }
    ensures wide { result.wide ≡ wide_chars (all_chars kids.now) }
    ensures bytes { result.bytes ≡ utf8_bytes (all_chars kids.now) }
{
    let mut sizes = Sizes {
        chars: 0,
        leaves: 0,
        wide: 0,
        bytes: 0,
    };
    for kid in kids {
        sizes.chars += kid.len();
        sizes.leaves += kid.leaves();
        sizes.wide += kid.wide();
        sizes.bytes += kid.bytes();
    }
    sizes
}

/// The block, where one more branch needs it.
pub fn needed(kids: &[Branch], block: Vec<Branch>) -> Option<Vec<Branch>>
    requires few { length kids.now ≤ 16 }
    requires block { IsRoomy block }
    ensures { HasPlace kids.now result }
{
    if kids.len() < MOST_KIDS {
        None
    } else {
        Some(block)
    }
}
