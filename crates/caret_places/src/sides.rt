//! The index of the caret behind each character.

ghost use Rattle.std.specs.Prelude.{◌≡◌, ◌+◌, ◌<◌, ◌^◌, IfOk, if◌then◌else◌};
ghost use Rattle.ew_model.specs.Verdicts.{IsGood};
ghost use Rattle.transform.specs.Placing.{order_ids, AreAt};
ghost use Rattle.transform.specs.Places.{are_deleted};
ghost use Rattle.caret_places.specs.Indexes.{sides_of};

use event_graph::Graph;
use ew_model::NoMem;
use std::alloc::Global;

/// The index of the caret behind the character of the event at each position, where all characters stand in this order and these are
/// deleted. Of an event that inserts no character it is 0.
pub fn sides(
    alloc: Global,
    graph: &Graph,
    order: &[u32],
    deleted: &[bool],
) -> Result<Vec<u32>, NoMem>
    requires good { IsGood graph.now }
    requires order { AreAt graph.now order.now (order_ids graph.now) }
    requires deleted { deleted.now ≡ are_deleted graph.now }
    ensures { IfOk result (λ v. v.items ≡ sides_of graph.now) }
{
    let mut sides = vec![in alloc; 0; graph.count() as usize]?;
    let mut shown = 0;
    for position in order {
        let place = *position as usize;
        let side = side_behind(shown, deleted[place]);
        sides[place] = side;
        shown = side;
    }
    Ok(sides)
}

/// The index behind a character, by how many are shown before it.
fn side_behind(before: u32, deleted: bool) -> u32
    requires { before + 1 < 2 ^ 32 }
    ensures { result ≡ before + (if deleted then 0 else 1) }
{
    if deleted { before } else { before + 1 }
}
