//! Edits of the parts of a node.

ghost use Rattle.std.specs.Prelude.{◌≡◌, ℕ, ◌+◌, ◌-◌, ◌<◌, ◌≤◌, ◌^◌, Option, is_some, [], ◌∷◌, ◌++◌, length, take, drop, insert, vec_capacity, IfSome};
ghost use Rattle.order_tree.specs.Blocks.{HasPlace, items_of};

use crate::spares::MOST_PARTS;

/// An edit at a label.
#[derive(Drop)]
pub enum Edit<R> {
    /// A run behind the label.
    Insert(R),
    /// The label's run is cut at a place, and its second part gets the label that is given, or one that is free behind the run.
    Split { at: u32, given: Option<u64> },
}

/// Puts a part into a node at a place. Where the node is full, its second half goes into the block.
pub fn put<T: Drop>(parts: &mut Vec<T>, at: usize, part: T, block: Option<Vec<T>>) -> Option<Vec<T>>
    requires at_most { at ≤ length parts.old.items }
    requires place { HasPlace parts.old.items block }
    requires room { 16 ≤ vec_capacity parts.old }
    ensures items { parts.new.items ++ items_of result ≡ insert parts.old.items at part }
    ensures tail { is_some result ≡ is_some block }
    ensures many { IfSome result (λ tail. (8 ≤ length tail.items) × (length tail.items ≤ 9) × (16 ≤ vec_capacity tail) × (8 ≤ length parts.new.items)) }
    ensures few { length parts.new.items ≤ 16 }
    ensures room { 16 ≤ vec_capacity parts.new }
{
    match block {
        None => {
            put_in(parts, at, part);
            None
        }
        Some(mut tail) => {
            move_tail(parts, MOST_PARTS / 2, &mut tail);
            if at <= MOST_PARTS / 2 {
                put_in(parts, at, part);
            } else {
                put_in(&mut tail, at - MOST_PARTS / 2, part);
            }
            Some(tail)
        }
    }
}

/// Puts a part where there is room.
fn put_in<T: Drop>(parts: &mut Vec<T>, at: usize, part: T)
    requires at_most { at ≤ length parts.old.items }
    requires few { length parts.old.items < 16 }
    requires room { 16 ≤ vec_capacity parts.old }
    ensures items { parts.new.items ≡ insert parts.old.items at part }
    ensures len { length parts.new.items ≡ length parts.old.items + 1 }
    ensures room { 16 ≤ vec_capacity parts.new }
{
    let Ok(()) = parts.insert(at, part) else {
        unreachable!()
    };
}

/// Moves the parts from a place on into an empty block.
fn move_tail<T>(from: &mut Vec<T>, at: usize, to: &mut Vec<T>)
    requires at_most { at ≤ length from.old.items }
    requires empty { to.old.items ≡ [] }
    requires room { length from.old.items ≤ vec_capacity to.old }
    ensures from { from.new.items ≡ take at from.old.items }
    ensures to { to.new.items ≡ drop at from.old.items }
    ensures from_room { vec_capacity from.old ≤ vec_capacity from.new }
    ensures to_room { vec_capacity to.old ≤ vec_capacity to.new }
{
    while from.len() > at {
        if let Some(part) = from.pop() {
            to.push_reserved(part);
        }
    }
    to.reverse();
}
