//! What the first bytes of a frame tell.

ghost use Rattle.std.specs.Prelude.{◌≡◌, ◌<◌, ◌≤◌, ◌+◌, ◌^◌, length, IfOk, IfSome};
ghost use Rattle.peer_definitions.specs.Cutting.{head_of, most_body};
ghost use Rattle.peer_frames.specs.Reading.{IsHead, kind_byte};

use crate::fault::FrameFault;
use crate::format::{HEAD_LEN, LEAST_HAVE, MOST_COUNT};
use crate::kind::Kind;
use ew_model::limits::Limits;

/// The kind of a frame whose body is there, and the length of the body.
#[derive(Clone, Copy)]
pub(crate) struct BodyPlace {
    pub(crate) kind: Kind,
    pub(crate) len: usize,
}

/// What the first bytes tell: None where the kind, the length or the body isn't all there.
#[tactic(auto, unfolding(peer_definitions::specs::Cutting::head_of))]
pub(crate) fn read_head(limits: &Limits, bytes: &[u8]) -> Result<Option<BodyPlace>, FrameFault>
    ensures head { IsHead bytes.now result (head_of limits.now bytes.now) }
    ensures within { IfOk result (λ found. IfSome found (λ p. 5 + p.len ≤ length bytes.now)) }
    ensures fits { IfOk result (λ found. IfSome found (λ p. p.len < 2 ^ 32)) }
{
    let Some(first) = bytes.first() else {
        return Ok(None);
    };
    let Some(kind) = Kind::of_byte(*first) else {
        return Err(FrameFault::BadKind(*first));
    };
    if bytes.len() < HEAD_LEN {
        return Ok(None);
    }
    let len = u32::from_le_bytes([bytes[1], bytes[2], bytes[3], bytes[4]]);
    if len > longest_body(limits, kind) {
        return Err(FrameFault::TooLong(len));
    }
    let len = len as usize;
    if bytes.len() - HEAD_LEN < len {
        return Ok(None);
    }
    Ok(Some(BodyPlace { kind, len }))
}

/// The most bytes of a body of this kind.
fn longest_body(limits: &Limits, kind: Kind) -> u32
    ensures { result ≡ most_body limits.now (kind_byte kind) }
{
    match kind {
        Kind::Have => LEAST_HAVE + MOST_COUNT * limits.events(),
        _ => limits.body(),
    }
}
