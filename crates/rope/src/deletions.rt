//! Characters that deletions take out of one place, so that they go by one way down for each leaf.

ghost use Rattle.std.specs.Prelude.{◌+◌, ◌<◌, ◌≤◌, [], ◌∷◌, IfSome, length, take};
ghost use Rattle.rope.specs.Deletions.{DeletesFrom};

use ew_model::text_op::TextOp;

/// The place from which the first of the operations delete characters, and how many do. The first deletes at an index, and each further one
/// at the index of the one before it, or right before that.
pub fn first_deletions(at: u32, ops: &[TextOp]) -> (u32, usize)
    requires some { 0 < length ops.now }
    requires first { DeletesFrom at (take 1 ops.now) }
    ensures some { 1 ≤ result.1 }
    ensures within { result.1 ≤ length ops.now }
    ensures deletes { DeletesFrom result.0 (take result.1 ops.now) }
{
    let mut place = at;
    for many in 1..ops.len() {
        let Some(next) = next_place(ops[many], place) else {
            return (place, many);
        };
        place = next;
    }
    (place, ops.len())
}

/// The index of an operation that deletes at a place or right before it.
fn next_place(op: TextOp, place: u32) -> Option<u32>
    ensures deletes { IfSome result (λ at. DeletesFrom at (op ∷ [])) }
    ensures low { IfSome result (λ at. at ≤ place) }
    ensures high { IfSome result (λ at. place ≤ at + 1) }
{
    match op {
        TextOp::Del { at } if at <= place && place - at <= 1 => Some(at),
        _ => None,
    }
}
