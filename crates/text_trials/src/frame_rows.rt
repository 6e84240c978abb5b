//! Rows of frames: bytes that a reader is given in pieces.

use ew_model::NoMem;
use ew_model::limits::Limits;
use peer_frames::{FrameFault, FrameReader, encode};
use std::alloc::Global;
use std::fmt::Write;
use trial_rows::bytes::bytes_of;
use trial_rows::fault::Fault;
use trial_rows::words::number;

/// The events of a history, for the limit of a Have.
const EVENTS: u32 = 2;

/// The lengths of pieces, after those of one byte.
const LONGER_PIECES: [usize; 4] = [2, 5, 64, 4096];

/// What a reader answered.
#[derive(Drop)]
struct Told {
    /// The frames, written again in hexadecimal digits, each with a space behind it.
    frames: String,
    /// The number of bytes given when each came, in the same way.
    places: String,
    end: End,
    is_empty: bool,
}

/// What is answered where no frame is.
#[derive(Clone, Copy, PartialEq, Eq)]
enum End {
    Waits,
    Fault(FrameFault),
}

/// `668:0300`: what a reader answers to these bytes, where a body has at most so many. They are given in pieces of several lengths,
/// and the answer has the frames, written again, and how many bytes were given when each came.
pub fn answer(alloc: Global, asked: &str) -> Result<String, Fault> {
    let (body, digits) = asked.split_once(':').ok_or(Fault::Unreadable)?;
    let limits = Limits::new(EVENTS, 0, 0, number(body)?).ok_or(Fault::Unreadable)?;
    let bytes = bytes_of(alloc, digits)?;
    Ok(tell_bytes(alloc, limits, bytes.as_slice())?)
}

fn tell_bytes(alloc: Global, limits: Limits, bytes: &[u8]) -> Result<String, NoMem> {
    let told = answers(alloc, limits, bytes, 1)?;
    for len in LONGER_PIECES {
        let other = answers(alloc, limits, bytes, len)?;
        if other.frames != told.frames || other.end != told.end || other.is_empty != told.is_empty {
            return format!(in alloc; "pieces of {len} are answered otherwise");
        }
    }
    let mut out = String::new(alloc);
    write!(&mut out, "{}at {}", told.frames, told.places)?;
    match told.end {
        End::Waits if told.is_empty => write!(&mut out, "done")?,
        End::Waits => write!(&mut out, "more to come")?,
        End::Fault(fault) => write!(&mut out, "{fault}")?,
    }
    Ok(out)
}

/// The answers to bytes that come in pieces of this length, where a reader is asked behind each piece until it has no frame.
fn answers(alloc: Global, limits: Limits, bytes: &[u8], len: usize) -> Result<Told, NoMem> {
    let mut reader = FrameReader::new(alloc, limits)?;
    let mut told = Told {
        frames: String::new(alloc),
        places: String::new(alloc),
        end: End::Waits,
        is_empty: true,
    };
    let mut given = 0u64;
    for piece in bytes.chunks(len.max(1)) {
        reader.feed(piece)?;
        given = given.saturating_add(piece.len() as u64);
        told.end = ask(alloc, &mut reader, given, piece.len(), &mut told)?;
    }
    told.is_empty = reader.is_empty();
    Ok(told)
}

/// Asks until there is no frame. Behind a piece there are at most as many frames as it has bytes.
fn ask(
    alloc: Global,
    reader: &mut FrameReader,
    given: u64,
    most: usize,
    told: &mut Told,
) -> Result<End, NoMem> {
    for _ in 0..most {
        match reader.next() {
            Ok(Some(frame)) => {
                let bytes = encode(alloc, &frame)?;
                let digits = hex::encode(alloc, bytes.as_slice())?;
                write!(&mut told.frames, "{digits} ")?;
                write!(&mut told.places, "{given} ")?;
            }
            Ok(None) => return Ok(End::Waits),
            Err(fault) => return end_of(fault),
        }
    }
    match reader.next() {
        Ok(_) => Ok(End::Waits),
        Err(fault) => end_of(fault),
    }
}

fn end_of(fault: FrameFault) -> Result<End, NoMem> {
    match fault {
        FrameFault::OutOfMemory => Err(NoMem),
        fault => Ok(End::Fault(fault)),
    }
}
