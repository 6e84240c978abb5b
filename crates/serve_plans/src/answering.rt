//! Answering the frames that are there.
ghost use Rattle.std.specs.Prelude.{◌≡◌, ◌≤◌, ◌+◌, ◌<◌, ◌^◌, ◌-◌, ◌++◌, length, IfErr, IfOk, OnErr, OnOk, Some};
ghost use Rattle.ew_outside.specs.Bytes.{IsFlushed};
ghost use Rattle.ew_outside.specs.Outputs.{Takes};
ghost use Rattle.ew_outside.specs.declared.fault.Fault.TheVariants as fault_is;
ghost use Rattle.std.specs.List.{All};
ghost use Rattle.command_table.specs.Sessions.{bytes_of};
ghost use Rattle.ew_model.specs.Bytes.{AreBytes};
ghost use Rattle.peer_exchange.specs.AnswerTouches.{answer_touches};
ghost use Rattle.peer_definitions.specs.Answering.{answer_to};
ghost use Rattle.peer_definitions.specs.Spelling.{HasSpelling};
ghost use Rattle.serve_plans.specs.Plans.{SinkCauses};
ghost use Rattle.serve_plans.specs.Serving.{AnswersAll, Replies};
ghost use Rattle.serve_plans.specs.SessionTouches.{AnswersTake};

use crate::closing::Closing;
use ew_model::NoMem;
use ew_model::steps::Steps;
use ew_outside::{Failed, Fault, Sink, write_and_flush};
use peer_exchange::{End, Reply, answer};
use peer_frames::{Frame, FrameReader, encode};
use replica::Replica;
use std::alloc::Global;
use std::sync::ledger::Ledger;

/// The bytes of frames, one behind the other.
fn spelled(alloc: Global, frames: &[Frame]) -> Result<Vec<u8>, NoMem>
    requires { All HasSpelling frames.now }
    ensures { IfOk result (λ bytes. bytes.items ≡ bytes_of frames.now) }
{
    let mut bytes = Vec::new(alloc);
    for frame in frames {
        bytes.extend_from_slice(&encode(alloc, frame)?)?;
    }
    Ok(bytes)
}

/// Writes all of the bytes and flushes them. A failure is the sink's.
fn send<K: Sink>(out: &mut K, bytes: &[u8]) -> Result<(), Fault>
    ensures bytes { Takes (K.seen out.old).taken (K.seen out.new).taken bytes.now result }
    ensures flushed { OnOk result (IsFlushed (K.seen out.new).taken (K.seen out.new).flushed) }
    ensures unflushed { OnErr result ((K.seen out.new).flushed ≡ (K.seen out.old).flushed) }
    ensures cause { SinkCauses (K.seen out.old).faults (K.seen out.new).faults result }
    ensures sink { IfErr result (λ fault. fault ≡ fault_is.Sink) }
{
    match write_and_flush(out, bytes) {
        Ok(()) => Ok(()),
        Err(Failed) => Err(Fault::Sink),
    }
}

/// Answers a frame, and says how the session is closed, if it is. The answer to a Bye isn't written yet.
fn answer_frame<K: Sink, L: Ledger>(
    alloc: Global,
    replica: &mut Replica,
    frame: Frame,
    out: &mut K,
    steps: &mut Steps<L>,
) -> Result<Option<Closing>, Fault>
    requires { HasSpelling frame }
    ensures told { Replies (answer_to replica.old frame) replica.new (K.seen out.old).taken (K.seen out.new).taken (K.seen out.old).flushed (K.seen out.new).flushed result }
    ensures cause { SinkCauses (K.seen out.old).faults (K.seen out.new).faults result }
    ensures most { steps.new ≤ steps.old + answer_touches replica.old frame }
{
    let Reply { frames, end } = answer(alloc, replica, frame, steps)?;
    let bytes = spelled(alloc, &frames)?;
    match end {
        None => {
            send(out, &bytes)?;
            Ok(None)
        }
        Some(End::Bye) => Ok(Some(Closing::Bye(bytes))),
        Some(End::Clash(id)) => {
            send(out, &bytes)?;
            Ok(Some(Closing::Clash(id)))
        }
    }
}

/// Answers the whole frames that a reader has, in order, up to one that closes the session.
fn answer_frames<K: Sink, L: Ledger>(
    alloc: Global,
    reader: &mut FrameReader,
    number: &mut u32,
    replica: &mut Replica,
    out: &mut K,
    steps: &mut Steps<L>,
) -> Result<Option<Closing>, Fault>
    requires { number.old + length reader.old.bytes < 2 ^ 32 - 1 }
    ensures told { AnswersAll reader.old.limits replica.old replica.new reader.old.bytes reader.new.bytes (K.seen out.old).taken (K.seen out.new).taken (K.seen out.old).flushed (K.seen out.new).flushed number.old number.new result }
    ensures limits { reader.new.limits ≡ reader.old.limits }
    ensures cause { SinkCauses (K.seen out.old).faults (K.seen out.new).faults result }
    ensures most { AnswersTake reader.old.limits replica.old replica.new reader.old.bytes reader.new.bytes steps.old steps.new result }
{
    'frames: loop {
        match reader.next() {
            Ok(Some(frame)) => {
                *number += 1;
                if let Some(closing) = answer_frame(alloc, replica, frame, out, steps)? {
                    return Ok(Some(closing));
                }
            }
            Ok(None) => return Ok(None),
            Err(fault) => {
                return Ok(Some(Closing::BadFrame {
                    number: *number + 1,
                    fault,
                }));
            }
        }
    }
}

/// Takes a piece of the input, and answers the frames that are whole by then.
pub fn take_piece<K: Sink, L: Ledger>(
    alloc: Global,
    reader: &mut FrameReader,
    piece: &[u8],
    number: &mut u32,
    replica: &mut Replica,
    out: &mut K,
    steps: &mut Steps<L>,
) -> Result<Option<Closing>, Fault>
    requires { number.old + length (reader.old.bytes ++ piece.now) < 2 ^ 32 - 1 }
    ensures told { AnswersAll reader.old.limits replica.old replica.new (reader.old.bytes ++ piece.now) reader.new.bytes (K.seen out.old).taken (K.seen out.new).taken (K.seen out.old).flushed (K.seen out.new).flushed number.old number.new result }
    ensures limits { reader.new.limits ≡ reader.old.limits }
    ensures fits { AreBytes piece.now }
    ensures cause { SinkCauses (K.seen out.old).faults (K.seen out.new).faults result }
    ensures most { AnswersTake reader.old.limits replica.old replica.new (reader.old.bytes ++ piece.now) reader.new.bytes steps.old steps.new result }
{
    reader.feed(piece)?;
    answer_frames(alloc, reader, number, replica, out, steps)
}
