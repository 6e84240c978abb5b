//! Reading a peer's frames, and answering them.
ghost use Rattle.std.specs.Prelude.{◌≡◌, ◌≤◌, length, ◌-◌, ◌<◌, ◌^◌};
ghost use Rattle.ew_outside.specs.Counts.{CountsEnds, RisesOnceAtMost};
ghost use Rattle.serve_plans.specs.Plans.{StreamCauses};
ghost use Rattle.serve_plans.specs.Serving.{EndsWith, IsPieceBehind, Receives, Talks};
ghost use Rattle.serve_plans.specs.SessionTouches.{TalkTakes};

use crate::answering::take_piece;
use crate::closing::Closing;
use ew_model::limits::{INPUT_PIECE, Limits};
use ew_model::steps::Steps;
use ew_outside::{Failed, Fault, Sink, Source};
use peer_frames::FrameReader;
use replica::Replica;
use std::alloc::Global;
use std::sync::ledger::Ledger;

/// The end of the input is between two frames, or within the next.
fn closing_at_end(reader: &FrameReader, number: u32) -> Closing
    requires { number < 2 ^ 32 - 1 }
    ensures { EndsWith reader.now.bytes number result }
{
    if reader.is_empty() {
        Closing::End
    } else {
        Closing::CutFrame { number: number + 1 }
    }
}

/// Reads a piece of at most so many bytes into the front of a buffer. A failure is the source's.
fn read_piece<S: Source>(input: &mut S, buffer: &mut [u8], most: usize) -> Result<usize, Fault>
    requires { most ≤ length buffer.old }
    ensures read { Receives (S.seen input.old).left (S.seen input.new).left (S.seen input.old).faults (S.seen input.new).faults most buffer.new result }
    ensures ends { CountsEnds most (S.seen input.old).ends (S.seen input.new).ends result }
    ensures length { length buffer.new ≡ length buffer.old }
{
    match input.read(&mut buffer[..most]) {
        Ok(count) => Ok(count),
        Err(Failed) => Err(Fault::Source),
    }
}

/// Reads frames and answers each before reading on, until the session is closed. The replica is left with what was received.
pub fn talk<S: Source, K: Sink, L: Ledger>(
    alloc: Global,
    limits: &Limits,
    replica: &mut Replica,
    input: &mut S,
    out: &mut K,
    steps: &mut Steps<L>,
) -> Result<Closing, Fault>
    ensures told { Talks limits.now replica.old replica.new (S.seen input.old).left (S.seen input.new).left (K.seen out.old).taken (K.seen out.new).taken (K.seen out.old).flushed (K.seen out.new).flushed result }
    ensures prompt { IsPieceBehind limits.now replica.old (S.seen input.old).left (S.seen input.new).left (K.seen out.old).taken (K.seen out.new).taken }
    ensures cause { StreamCauses (S.seen input.old).faults (S.seen input.new).faults (K.seen out.old).faults (K.seen out.new).faults result }
    ensures ends { RisesOnceAtMost (S.seen input.old).ends (S.seen input.new).ends }
    ensures most { TalkTakes limits.now replica.old (S.seen input.old).left steps.old steps.new }
{
    let mut reader = FrameReader::new(alloc, *limits)?;
    let mut number = 0u32;
    let mut buffer = [0u8; INPUT_PIECE];
    let mut room = limits.input() as usize;
    'pieces: while room > 0 {
        let most = room.min(INPUT_PIECE);
        let count = read_piece(input, &mut buffer, most)?;
        if count == 0 {
            return Ok(closing_at_end(&reader, number));
        }
        let piece = &buffer[..count];
        if let Some(closing) = take_piece(
            alloc,
            &mut reader,
            piece,
            &mut number,
            replica,
            out,
            steps,
        )? {
            return Ok(closing);
        }
        room -= count;
    }
    if read_piece(input, &mut buffer, 1)? == 0 {
        Ok(closing_at_end(&reader, number))
    } else {
        Ok(Closing::TooLong)
    }
}
