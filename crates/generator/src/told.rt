//! What is printed.

ghost use Rattle.std.specs.Prelude.{◌≡◌, IfOk};
ghost use Rattle.ew_model.specs.Texts.{text_of};
ghost use Rattle.peer_definitions.specs.Making.{digest_line, history_lines, printed};
ghost use Rattle.generator.specs.Owning.{ArePeers};

use crate::peers::Peers;
use ew_model::NoMem;
use history_view::listings::{count_cuts, count_heads};
use history_view::push_number;
use replica::Replica;
use sha2::{Digest, Sha256};
use std::alloc::Global;

/// What is printed of the peers.
pub fn told(alloc: Global, peers: &Peers) -> Result<Vec<u8>, NoMem>
    requires { ArePeers peers.now.replicas.items }
    ensures { IfOk result (λ text. text.items ≡ printed peers.now.replicas.items) }
{
    let mut text = history_lines(alloc, peers.first())?;
    let agree: &[u8] = if peers.agree() {
        b"agree yes\n"
    } else {
        b"agree no\n"
    };
    text.extend_from_slice(agree)?;
    Ok(text)
}

/// The numbers of a history, and the digest of its text.
#[tactic(auto, unfolding(peer_definitions::specs::Making::history_lines))]
fn history_lines(alloc: Global, replica: &Replica) -> Result<Vec<u8>, NoMem>
    ensures { IfOk result (λ text. text.items ≡ history_lines replica.now.held) }
{
    let _limits = replica.limits();
    let mut text = Vec::new(alloc);
    push_number(&mut text, b"events", replica.count())?;
    push_number(&mut text, b"length", replica.len())?;
    push_number(&mut text, b"heads", count_heads(replica)?)?;
    push_number(&mut text, b"cuts", count_cuts(replica.graph()))?;
    text.extend_from_slice(&digest_line(alloc, replica)?)?;
    Ok(text)
}

/// The digest of a replica's text.
fn digest_line(alloc: Global, replica: &Replica) -> Result<Vec<u8>, NoMem>
    ensures { IfOk result (λ text. text.items ≡ digest_line (text_of replica.now.held)) }
{
    let digest = Sha256::digest(&replica.text()?);
    let digits = hex::encode(alloc, &digest)?;
    let line = format!(in alloc; "sha256 {digits}\n")?;
    Ok(line.into_bytes())
}
