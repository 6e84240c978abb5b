//! Reading a journal's bytes.

ghost use Rattle.std.specs.Prelude.{◌≡◌, ◌<◌, ◌≤◌, ℕ, List, [], ◌∷◌, ◌++◌, length, OnOk, IfOk, IfErr, MatchOption};
ghost use Rattle.ew_model.specs.declared.event.Event.{Event};
ghost use Rattle.peer_definitions.specs.Batches.{BeginWith, batch_bytes};
ghost use Rattle.event_journal.specs.Disk.{StaysWithin};
ghost use Rattle.event_journal.specs.Reading.{IsWhole, IsFirst, IsReading, FailsOnly};

use crate::disk::Disk;
use crate::fault::OpenFault;
use ew_model::NoMem;
use ew_model::event::Event;
use ew_model::limits::{Limits, MOST_EVENTS};
use peer_frames::decode_events;
use std::alloc::Global;

/// The most bytes that are read at a time.
const PIECE: usize = 65_536;

/// The bytes of a batch before its body: the gate, and the length.
const HEAD_LEN: usize = 5;

/// The byte of an open gate.
const OPEN: u8 = 1;

/// All bytes of the disk: no more than it says that there are, and fewer where a read gives none.
pub(crate) fn read_disk<D: Disk>(alloc: Global, disk: &mut D) -> Result<Vec<u8>, OpenFault>
    ensures bytes { IfOk result (λ bytes. IsWhole (D.seen disk.old).bytes bytes.items) }
    ensures same { (D.seen disk.new).bytes ≡ (D.seen disk.old).bytes }
    ensures crash { StaysWithin D.moment D.left_since disk.old disk.new (D.may_leave disk.old) }
    ensures now { (c : List ℕ) → D.may_leave disk.new c → D.may_leave disk.old c }
    ensures quiet { OnOk result ((D.seen disk.new).faults ≡ (D.seen disk.old).faults) }
    ensures cause { IfErr result (λ fault. FailsOnly fault (D.seen disk.old).faults (D.seen disk.new).faults) }
{
    let len = disk.len()? as usize;
    let mut bytes = Vec::new(alloc);
    let mut buffer = [0u8; PIECE];
    while bytes.len() < len {
        let room = (len - bytes.len()).min(PIECE);
        let count = disk.read(bytes.len() as u64, &mut buffer[..room])?;
        if count == 0 {
            return Ok(bytes);
        }
        bytes.extend_from_slice(&buffer[..count])?;
    }
    Ok(bytes)
}

/// What a journal's bytes hold: the events, and the place of the closed gate after them.
#[derive(Drop)]
pub(crate) struct Contents {
    pub(crate) events: Vec<Event>,
    pub(crate) gate: usize,
}

/// What these bytes hold.
pub(crate) fn read_batches(
    alloc: Global,
    bytes: &[u8],
    limits: &Limits,
) -> Result<Contents, OpenFault>
    requires { 2 ≤ length bytes.now }
    ensures read { IsReading limits.now bytes.now result }
    ensures few { IfOk result (λ found. length found.events.items ≤ MOST_EVENTS) }
{
    let mut events: Vec<Event> = Vec::new(alloc);
    let mut gate = 0;
    while bytes[gate] == OPEN {
        let Some(batch) = first_batch(alloc, &bytes[gate..], limits.body())? else {
            return Err(OpenFault::BadBatch {
                offset: gate as u64,
            });
        };
        let count = events.len() + batch.events.len();
        if count > limits.events() as usize {
            return Err(OpenFault::TooMany {
                count: count as u32,
            });
        }
        push_all(&mut events, batch.events)?;
        gate += batch.len;
    }
    Ok(Contents { events, gate })
}

/// A batch, and how many bytes it has.
#[derive(Drop)]
struct Batch {
    events: Vec<Event>,
    len: usize,
}

/// The batch that the bytes begin with, if they begin with one and at least one more byte.
fn first_batch(alloc: Global, bytes: &[u8], most: u32) -> Result<Option<Batch>, NoMem>
    requires { (rest : List ℕ) × (bytes.now ≡ 1 ∷ rest) }
    ensures { IfOk result (λ found. MatchOption found ((batch : List Event) (rest : List ℕ) → BeginWith most bytes.now (batch ∷ []) rest → ⊥) (λ batch. IsFirst most bytes.now batch.events.items batch.len)) }
{
    let [_, first, second, third, fourth, behind @ ..] = bytes else {
        return Ok(None);
    };
    let len = u32::from_le_bytes([*first, *second, *third, *fourth]);
    if len > most || behind.len() <= len as usize {
        return Ok(None);
    }
    match decode_events(alloc, &behind[..len as usize])? {
        Some(events) => {
            if events.is_empty() {
                return Ok(None);
            }
            Ok(Some(Batch {
                events,
                len: HEAD_LEN + len as usize,
            }))
        }
        None => Ok(None),
    }
}

/// Puts the events of a batch behind the others.
fn push_all(events: &mut Vec<Event>, batch: Vec<Event>) -> Result<(), NoMem>
    ensures { OnOk result (events.new.items ≡ events.old.items ++ batch.items) }
{
    for event in batch {
        events.push(event)?;
    }
    Ok(())
}
