//! Whether peers hold equal events.

ghost use Rattle.std.specs.Prelude.{◌≡◌};
ghost use Rattle.std.specs.Bool.{MatchBool};
ghost use Rattle.ew_model.specs.Sets.{SameElements};
ghost use Rattle.peer_definitions.specs.Machine.{all_agree};

use crate::peer::Peer;

/// Whether all peers hold equal events: each holds those of the first.
pub fn all_agree(peers: &[Peer]) -> bool
    ensures { result ≡ all_agree peers.now }
{
    match peers.split_first() {
        Some((first, others)) => others.iter().all(|peer| hold_same(first, peer)),
        None => true,
    }
}

/// Whether two peers hold equal events.
fn hold_same(one: &Peer, other: &Peer) -> bool
    ensures { MatchBool result (SameElements one.now.replica.held other.now.replica.held) (SameElements one.now.replica.held other.now.replica.held → ⊥) }
{
    one.replica().agrees(other.replica())
}
