//! How a session is closed, and what is done then.
ghost use Rattle.std.specs.Prelude.{◌≡◌, ◌≢◌, IfOk, length};
ghost use Rattle.command_table.specs.Sessions.{closed_reply};
ghost use Rattle.opened_files.specs.Views.{IsTakenReply, reply_view, reply_status};
ghost use Rattle.serve_plans.specs.Plans.{ClosesAs, frame_refusal};
ghost use Rattle.command_texts.specs.Reasons.{refusal_view};
ghost use Rattle.std.specs.Option.{option_map};

use command_texts::refusal::Refusal;
use ew_model::NoMem;
use ew_model::id::Id;
use ew_model::limits::Limits;
use opened_files::reply::Reply;
use opened_files::store::store_reply;
use peer_frames::FrameFault;
use replica::Replica;
use std::alloc::Global;

/// How a session is closed. Frames are counted from 1.
#[derive(Drop)]
pub enum Closing {
    /// The input ended between two frames.
    End,
    /// The peer said Bye. These bytes answer it, once the events are stored.
    Bye(Vec<u8>),
    /// The peers hold different events with this id.
    Clash(Id),
    /// There is no frame of this number, by this fault.
    BadFrame { number: u32, fault: FrameFault },
    /// The input ended within the frame of this number.
    CutFrame { number: u32 },
    /// The input is longer than it may be.
    TooLong,
}

/// Stores the events where there are more than before, and prints the bytes behind that.
fn close_well(
    alloc: Global,
    name: &str,
    replica: &Replica,
    before: u32,
    out: Vec<u8>,
) -> Result<Reply, NoMem>
    ensures told { IfOk result (λ p. reply_view p ≡ closed_reply name.now before out.items replica.now.held) }
    ensures plan { IfOk result IsTakenReply }
    ensures found { IfOk result (λ p. reply_status p ≢ 3) }
{
    if before < replica.count() {
        store_reply(alloc, name, replica, out)
    } else {
        Ok(Reply::Prints(out))
    }
}

/// Why there is no frame of this number.
fn frame_refusal(number: u32, fault: FrameFault) -> Result<Refusal, NoMem>
    ensures { IfOk result (λ why. frame_refusal number fault ≡ Some (refusal_view why)) }
{
    match fault {
        FrameFault::BadKind(kind) => Ok(Refusal::BadKind { number, kind }),
        FrameFault::TooLong(len) => Ok(Refusal::FrameTooLong { number, len }),
        FrameFault::BadBody => Ok(Refusal::BadBody { number }),
        FrameFault::OutOfMemory => Err(NoMem),
    }
}

/// What is to be done once a session is closed that began with so many events.
pub fn close(
    alloc: Global,
    name: &str,
    limits: &Limits,
    replica: &Replica,
    before: u32,
    closing: Closing,
) -> Result<Reply, NoMem>
    ensures told { IfOk result (λ p. ClosesAs name.now limits.now before replica.now.held closing (reply_view p)) }
    ensures plan { IfOk result IsTakenReply }
    ensures found { IfOk result (λ p. reply_status p ≢ 3) }
{
    match closing {
        Closing::End => close_well(alloc, name, replica, before, Vec::new(alloc)),
        Closing::Bye(out) => close_well(alloc, name, replica, before, out),
        Closing::Clash(id) => Ok(Reply::Refuses(Refusal::Clash(id))),
        Closing::BadFrame { number, fault } => Ok(Reply::Refuses(frame_refusal(number, fault)?)),
        Closing::CutFrame { number } => Ok(Reply::Refuses(Refusal::FrameCut { number })),
        Closing::TooLong => Ok(Reply::Refuses(Refusal::InputTooLong {
            most: limits.input(),
        })),
    }
}
