//! Lists of peers.

ghost use Rattle.std.specs.Prelude.{◌≡◌, ◌<◌, length, slice_get, None, IfSome, IfNone};
ghost use Rattle.peer_definitions.specs.Machine.{peer_among};

use crate::peer::Peer;
use ew_model::name::Name;

/// The place of the peer of this name.
pub fn place_of(peers: &[Peer], name: &Name) -> Option<usize>
    ensures found { IfSome result (λ i. (i < length peers.now) × (peer_among peers.now name.now ≡ slice_get peers.now i)) }
    ensures none { IfNone result (peer_among peers.now name.now ≡ None) }
{
    for (i, peer) in peers.iter().enumerate() {
        if peer.is_named(name) {
            return Some(i);
        }
    }
    None
}
