//! The making of a history.

ghost use Rattle.std.specs.Prelude.{◌≡◌, ◌≤◌, ◌+◌, ◌%◌, OnOk};
ghost use Rattle.generator.specs.Answers.{Makes};
ghost use Rattle.peer_definitions.specs.Making as model;
ghost use Rattle.peer_definitions.specs.Making.{gives, rounded_peers};
ghost use Rattle.generator.specs.Owning.{ArePeers};
ghost use Rattle.peer_definitions.specs.Touches.{gift_touches, made_touches, rounding_touches};

use crate::draws::Draws;
use crate::peers::Peers;
use crate::told::told;
use ew_model::NoMem;
use ew_model::limits::Limits;
use ew_model::steps::Steps;
use replica::EditFault;
use std::alloc::Global;
use std::sync::ledger::Ledger;

/// After so many edits a peer gives its events away.
const BETWEEN: u32 = 64;

/// Three peers make so many edits, drawn from a seed, and now and then one gives its events to the next; at the end each does.
/// Answers what is printed of them: the numbers of the first one's history, the SHA-256 of its text, and whether all agree. A
/// refused edit ends it. It takes at most the touches of the gifts.
pub fn make<L: Ledger>(
    alloc: Global,
    limits: Limits,
    seed: u64,
    count: u32,
    steps: &mut Steps<L>,
) -> Result<Vec<u8>, EditFault>
    ensures made { Makes (model.made limits seed count) result }
    ensures most { steps.new ≤ steps.old + made_touches limits seed count }
{
    let mut peers = Peers::new(alloc, limits)?;
    let mut draws = Draws::new(seed);
    for t in 0..count {
        peers.edit(&mut draws, steps)?;
        if t % BETWEEN == BETWEEN - 1 {
            give_in_turn(&mut peers, t / BETWEEN, steps)?;
        }
    }
    round_off(&mut peers, steps)?;
    Ok(told(alloc, &peers)?)
}

/// The peer whose turn it is gives to the next.
fn give_in_turn<L: Ledger>(peers: &mut Peers, turn: u32, steps: &mut Steps<L>) -> Result<(), NoMem>
    requires { ArePeers peers.old.replicas.items }
    ensures given { OnOk result (peers.new.replicas.items ≡ gives (turn % 3) ((turn % 3 + 1) % 3) peers.old.replicas.items) }
    ensures kept { OnOk result (ArePeers peers.new.replicas.items) }
    ensures most { steps.new ≤ steps.old + gift_touches (turn % 3) ((turn % 3 + 1) % 3) peers.old.replicas.items }
{
    let giver = turn % 3;
    peers.give(giver as usize, ((giver + 1) % 3) as usize, steps)
}

/// Each gives to the next, and the first once more.
fn round_off<L: Ledger>(peers: &mut Peers, steps: &mut Steps<L>) -> Result<(), NoMem>
    requires { ArePeers peers.old.replicas.items }
    ensures given { OnOk result (peers.new.replicas.items ≡ rounded_peers peers.old.replicas.items) }
    ensures kept { OnOk result (ArePeers peers.new.replicas.items) }
    ensures most { steps.new ≤ steps.old + rounding_touches peers.old.replicas.items }
{
    peers.give(0, 1, steps)?;
    peers.give(1, 2, steps)?;
    peers.give(2, 0, steps)?;
    peers.give(0, 1, steps)
}
