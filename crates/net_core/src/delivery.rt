//! What delivered frames do.

ghost use Rattle.std.specs.Prelude.{◌≡◌, [], ◌∷◌, ◌++◌, IfOk, OnOk, OnErr};
ghost use Rattle.std.specs.List.{AllByRecursion};
ghost use Rattle.peer_definitions.specs.Answering.{answer_to};
ghost use Rattle.peer_frames.specs.Laws.{IsTaken};
ghost use Rattle.net_core.specs.Answers.{IsLeftIn};
ghost use Rattle.net_core.specs.Bytes.{reply_line, reply_lines};
ghost use Rattle.net_core.specs.Laws.{NoneClashes};
ghost use Rattle.peer_definitions.specs.Machine.{delivery_of, frame_line};

use crate::lines::push_count;
use crate::peer::Peer;
use ew_model::NoMem;
use ew_model::name::Name;
use ew_model::steps::Steps;
use peer_frames::Frame;
use std::alloc::Global;
use std::sync::ledger::Ledger;

/// The frames of the answers to delivered ones, and what is printed.
#[derive(Drop)]
pub struct Delivery {
    pub replies: Vec<Frame>,
    pub printed: Vec<u8>,
}

/// Hands the frames to the peer, in order. None of them brings a second event with an id that the peer knows. For want of memory
/// some may have been received.
pub fn deliver<L: Ledger>(
    alloc: Global,
    peer: &mut Peer,
    frames: Vec<Frame>,
    steps: &mut Steps<L>,
) -> Result<Delivery, NoMem>
    requires taken { AllByRecursion (IsTaken peer.old.replica.limits) frames.items }
    requires apart { NoneClashes peer.old.replica frames.items }
    ensures replies { IfOk result (λ d. d.replies.items ≡ (delivery_of peer.old.name peer.old.replica frames.items).replies) }
    ensures printed { IfOk result (λ d. d.printed.items ≡ (delivery_of peer.old.name peer.old.replica frames.items).printed) }
    ensures taken { IfOk result (λ d. AllByRecursion (IsTaken peer.old.replica.limits) d.replies.items) }
    ensures replica { OnOk result (peer.new.replica ≡ (delivery_of peer.old.name peer.old.replica frames.items).replica) }
    ensures left { OnErr result (IsLeftIn peer.old.replica frames.items peer.new.replica) }
    ensures name { peer.new.name ≡ peer.old.name }
    ensures caret { peer.new.caret ≡ peer.old.caret }
{
    let mut delivery = Delivery {
        replies: Vec::new(alloc),
        printed: Vec::new(alloc),
    };
    for frame in frames {
        deliver_frame(alloc, peer, frame, &mut delivery, steps)?;
    }
    Ok(delivery)
}

/// Hands one frame to the peer. Its answer and what is printed go behind the others.
fn deliver_frame<L: Ledger>(
    alloc: Global,
    peer: &mut Peer,
    frame: Frame,
    delivery: &mut Delivery,
    steps: &mut Steps<L>,
) -> Result<(), NoMem>
    requires taken { IsTaken peer.old.replica.limits frame }
    requires apart { NoneClashes peer.old.replica (frame ∷ []) }
    ensures replies { OnOk result (delivery.new.replies.items ≡ delivery.old.replies.items ++ (answer_to peer.old.replica frame).frames) }
    ensures printed { OnOk result (delivery.new.printed.items ≡ delivery.old.printed.items ++ frame_line peer.old.name peer.old.replica frame) }
    ensures replica { OnOk result (peer.new.replica ≡ (answer_to peer.old.replica frame).state) }
    ensures left { OnErr result (IsLeftIn peer.old.replica (frame ∷ []) peer.new.replica) }
    ensures taken { OnOk result (AllByRecursion (IsTaken peer.old.replica.limits) (answer_to peer.old.replica frame).frames) }
    ensures name { peer.new.name ≡ peer.old.name }
    ensures caret { peer.new.caret ≡ peer.old.caret }
{
    let before = peer.replica().count();
    let reply = peer.answer(alloc, frame, steps)?;
    let cut = peer.replica().graph().latest_cut(before);
    push_replies(delivery, &peer.name(), reply.frames, cut)
}

/// Puts the frames of an answer, and what is printed of them, behind the others.
fn push_replies(
    delivery: &mut Delivery,
    name: &Name,
    frames: Vec<Frame>,
    cut: u32,
) -> Result<(), NoMem>
    ensures replies { OnOk result (delivery.new.replies.items ≡ delivery.old.replies.items ++ frames.items) }
    ensures printed { OnOk result (delivery.new.printed.items ≡ delivery.old.printed.items ++ reply_lines name.now cut frames.items) }
{
    for frame in frames {
        print_reply(&mut delivery.printed, name, &frame, cut)?;
        delivery.replies.push(frame)?;
    }
    Ok(())
}

/// Prints what became of received events, where the answer tells it.
fn print_reply(out: &mut Vec<u8>, name: &Name, frame: &Frame, cut: u32) -> Result<(), NoMem>
    ensures { OnOk result (out.new.items ≡ out.old.items ++ reply_line name.now frame.now cut) }
{
    if let Frame::Took {
        accepted,
        waiting,
        repeats,
        refused,
    } = frame
    {
        out.extend_from_slice(name.as_slice())?;
        push_count(out, b"accepted", *accepted)?;
        push_count(out, b"waiting", *waiting)?;
        push_count(out, b"repeats", *repeats)?;
        push_count(out, b"refused", *refused)?;
        push_count(out, b"cut", cut)?;
        out.push(b'\n')?;
    }
    Ok(())
}
