//! The visible characters of a history.

ghost use Rattle.std.specs.Prelude.{◌≡◌, IfOk};
ghost use Rattle.blame.specs.Letters.{AreShown, AreShownAt};
ghost use Rattle.ew_model.specs.Verdicts.{IsGood};
ghost use Rattle.transform.specs.Placing.{order_ids, AreAt};
ghost use Rattle.transform.specs.Places.{are_deleted};

use event_graph::{Graph, Near};
use ew_model::NoMem;
use std::alloc::Global;
use undo::letter;

/// The visible characters, in order, and the positions of the events that inserted them.
#[derive(Drop)]
pub struct Letters {
    pub positions: Vec<u32>,
    pub chars: Vec<char>,
}

/// The characters in the order of the tree, which the events at these positions inserted, but for the deleted ones.
pub fn visible_letters(
    alloc: Global,
    graph: &Graph,
    order: &[u32],
    deleted: &[bool],
) -> Result<Letters, NoMem>
    requires good { IsGood graph.now }
    requires order { AreAt graph.now order.now (order_ids graph.now) }
    requires deleted { deleted.now ≡ are_deleted graph.now }
    ensures positions { IfOk result (λ l. AreShownAt graph.now l.positions.items) }
    ensures chars { IfOk result (λ l. AreShown graph.now l.chars.items) }
{
    let mut positions = Vec::new(alloc);
    let mut chars = Vec::new(alloc);
    let mut near = Near::start();
    for position in order {
        if !deleted[*position as usize] {
            positions.push(*position)?;
            chars.push(letter(graph, *position, &mut near))?;
        }
    }
    Ok(Letters { positions, chars })
}
