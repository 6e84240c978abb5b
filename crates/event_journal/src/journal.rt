//! A journal over a disk.

ghost use Rattle.std.specs.Prelude.{◌≡◌, ◌↔◌, ◌<◌, ◌≤◌, ◌+◌, ◌-◌, ◌*◌, ◌/◌, ◌⊎◌, ℕ, true, false, List, [], ◌∷◌, ◌++◌, length, Ok, Err, Some, IfOk, IfErr, IfSome, OnOk, OnErr};
ghost use Rattle.std.specs.List.{AllByRecursion};
ghost use Rattle.ew_model.specs.declared.event.Event.{Event};
ghost use Rattle.ew_outside.specs.Counts.{Counts, Rises};
ghost use Rattle.ew_model.specs.Bytes.{four_bytes};
ghost use Rattle.peer_definitions.specs.Spelling.{events_body};
ghost use Rattle.peer_definitions.specs.Batches.{IsBatch};
ghost use Rattle.event_journal.specs.Disk.{TellsAlike, StaysWithin};
ghost use Rattle.event_journal.specs.Writing.{with_batch};
ghost use Rattle.event_journal.specs.Journal.{CountsOpening, IsKeptOn, HoldsEvents, IsBadAt, HoldsTooMany, HoldSame};
ghost use Rattle.event_journal.specs.LastingLaw.{Leads};
ghost use Rattle.event_journal.specs.LastingLaw.Step.{Opening, Acknowledged, Unacknowledged};

use crate::disk::Disk;
use crate::fault::{AppendFault, OpenFault};
use crate::reading::{read_batches, read_disk};
use crate::sound::note_events;
use crate::writing::{commit, write_and_sync};
use ew_model::NoMem;
use ew_model::event::Event;
use ew_model::limits::{COUNT_BYTES, Limits, MOST_BYTES, MOST_EVENT_BYTES, MOST_PARENTS};
use peer_frames::encode_events;
use std::alloc::Global;
use std::marker::Model;

const CLOSED: u8 = 0;

/// Batches of events on a disk. Contracts see its limits, the place of the gate that ends it, the number of its events, and whether an
/// append failed.
#[derive(Drop)]
pub struct Journal {
    limits: Limits,
    gate: u64,
    count: u32,
    failed: bool,
}

impl Model for Journal {
    ghost use Rattle.std.specs.Prelude.{◌≤◌, ◌+◌, ◌*◌, ◌^◌};
    ghost use Rattle.event_journal.specs.Journal.{JournalSeen};

    ghost Value = { JournalSeen };

    ghost view = { λ j. record { limits = j.limits; gate = j.gate; count = j.count; failed = j.failed } };

    ghost invariant = { λ j. (j.count ≤ j.limits.events) × (j.gate ≤ 2 ^ 63 + 1024 * j.count) };
}

impl Journal {
    /// Opens the journal of a disk, and gives its events. The disk is synced first, so what is read is what a crash leaves. Where there
    /// are fewer than 2 bytes, a closed gate is written and synced.
    pub fn open<D: Disk>(
        alloc: Global,
        disk: &mut D,
        limits: &Limits,
    ) -> Result<(Journal, Vec<Event>), OpenFault>
        // The events are those of the batches that the disk holds, and the journal is ready for more.
        ensures events { IfOk result (λ found. IfSome (D.seen disk.old).bytes (HoldsEvents limits.now.body found.1.items)) }
        ensures kept { IfOk result (λ found. IsKeptOn found.0 (D.seen disk.new).bytes (D.may_leave disk.new)) }
        ensures told { IfOk result (λ found. IfSome (D.seen disk.new).bytes (HoldsEvents limits.now.body found.1.items)) }
        ensures journal { IfOk result (λ found. (found.0.limits ≡ limits.now) × (found.0.count ≡ length found.1.items) × (found.0.failed ≡ false)) }
        ensures within { IfOk result (λ found. length found.1.items ≤ limits.now.events) }
        // Its bytes stay as they were, but for fewer than 2, which become a closed gate.
        ensures unchanged { OnOk result (IfSome (D.seen disk.old).bytes (λ bytes. 2 ≤ length bytes → (D.seen disk.new).bytes ≡ Some bytes)) }
        ensures begun { OnOk result (IfSome (D.seen disk.old).bytes (λ bytes. length bytes < 2 → (D.seen disk.new).bytes ≡ Some (0 ∷ []))) }
        // The disk tells its bytes exactly where it did before, and whatever is answered, they hold the same batches.
        ensures tells { TellsAlike (D.seen disk.old).bytes (D.seen disk.new).bytes }
        ensures same { IfSome (D.seen disk.old).bytes (λ bytes. IfSome (D.seen disk.new).bytes (HoldSame limits.now.body bytes)) }
        // A crash at any moment of the call leaves batches that a crash just before it could have left: this is the law's step.
        ensures any_moment { IfSome (D.seen disk.old).bytes (λ _. StaysWithin D.moment D.left_since disk.old disk.new (λ c. (d : List ℕ) × D.may_leave disk.old d × Leads limits.now.body Opening d c)) }
        // The count of faults rises where the disk failed, and only there.
        ensures faults { CountsOpening (D.seen disk.old).faults (D.seen disk.new).faults result }
        // Why it isn't opened.
        ensures failed { result ≡ Err OpenFault.Failed → Rises (D.seen disk.old).faults (D.seen disk.new).faults }
        ensures bad { (offset : ℕ) → result ≡ Err (OpenFault.BadBatch offset) → IfSome (D.seen disk.old).bytes (IsBadAt limits.now offset) }
        ensures many { (count : ℕ) → result ≡ Err (OpenFault.TooMany count) → IfSome (D.seen disk.old).bytes (HoldsTooMany limits.now count) }
        ensures bad_same { (offset : ℕ) → result ≡ Err (OpenFault.BadBatch offset) → (D.seen disk.new).bytes ≡ (D.seen disk.old).bytes }
        ensures many_same { (count : ℕ) → result ≡ Err (OpenFault.TooMany count) → (D.seen disk.new).bytes ≡ (D.seen disk.old).bytes }
        ensures memory_same { result ≡ Err OpenFault.OutOfMemory → (D.seen disk.new).bytes ≡ (D.seen disk.old).bytes }
    {
        disk.sync()?;
        let bytes = read_disk(alloc, disk)?;
        if bytes.len() < 2 {
            write_and_sync(disk, 0, &[CLOSED])?;
            let journal = Journal {
                limits: *limits,
                gate: 0,
                count: 0,
                failed: false,
            };
            return Ok((journal, Vec::new(alloc)));
        }
        let found = read_batches(alloc, &bytes, limits)?;
        let journal = Journal {
            limits: *limits,
            gate: found.gate as u64,
            count: found.events.len() as u32,
            failed: false,
        };
        Ok((journal, found.events))
    }

    /// The number of events of the opening and of all appends that were answered Ok.
    pub fn count(&self) -> u32
        ensures value { result ≡ self.now.count }
        ensures within { result ≤ self.now.limits.events }
    {
        self.count
    }

    /// Adds a batch of events. Once it is answered Ok, every crash leaves it. The body is written behind the closed gate and synced,
    /// and then the gate is opened.
    pub fn append<D: Disk>(
        &mut self,
        alloc: Global,
        disk: &mut D,
        events: &[Event],
    ) -> Result<(), AppendFault>
        // The disk is as this journal's last call left it, where it tells its bytes.
        requires kept { self.old.failed ≡ false → IsKeptOn self.old (D.seen disk.old).bytes (D.may_leave disk.old) }
        requires some { 1 ≤ length events.now }
        requires few { length events.now ≤ (self.old.limits.body - COUNT_BYTES) / MOST_EVENT_BYTES }
        requires parents { AllByRecursion (λ e. length e.parents ≤ MOST_PARENTS) events.now }
        requires room { self.old.count + length events.now ≤ self.old.limits.events }
        // At Ok the batch stands behind the others, and every crash leaves it: this is the law's step of an append that is acknowledged.
        ensures kept { OnOk result (IsKeptOn self.new (D.seen disk.new).bytes (D.may_leave disk.new)) }
        ensures acknowledged { OnOk result (IfSome (D.seen disk.old).bytes (λ bytes. (c : List ℕ) → D.may_leave disk.new c → Leads self.old.limits.body (Acknowledged events.now) bytes c)) }
        ensures bytes { OnOk result (IfSome (D.seen disk.old).bytes (λ bytes. (D.seen disk.new).bytes ≡ Some (with_batch bytes self.old.gate events.now))) }
        ensures counted { OnOk result (self.new ≡ record self.old { gate = self.new.gate; count = self.old.count + length events.now }) }
        // The disk tells its bytes exactly where it did before.
        ensures tells { TellsAlike (D.seen disk.old).bytes (D.seen disk.new).bytes }
        // A crash at any moment of the call leaves the batches from before, or these and the new one: the law's step of an append that isn't.
        ensures any_moment { self.old.failed ≡ false → IfSome (D.seen disk.old).bytes (λ bytes. StaysWithin D.moment D.left_since disk.old disk.new (Leads self.old.limits.body (Unacknowledged events.now) bytes)) }
        // At Ok the count of faults is as before.
        ensures quiet { OnOk result ((D.seen disk.new).faults ≡ (D.seen disk.old).faults) }
        // Why it isn't added.
        ensures failed { result ≡ Err AppendFault.Failed → Rises (D.seen disk.old).faults (D.seen disk.new).faults × (self.new ≡ record self.old { failed = true }) }
        ensures closed { (result ≡ Err AppendFault.Closed) ↔ (self.old.failed ≡ true) }
        ensures closed_same { result ≡ Err AppendFault.Closed → (self.new ≡ self.old) × (disk.new ≡ disk.old) }
        ensures memory_same { result ≡ Err AppendFault.OutOfMemory → (self.new ≡ self.old) × (disk.new ≡ disk.old) }
    {
        if self.failed {
            return Err(AppendFault::Closed);
        }
        let piece = behind_gate(alloc, events, self.limits.body())?;
        match commit(disk, self.gate, &piece) {
            Ok(()) => {
                self.gate += piece.len() as u64;
                self.count += events.len() as u32;
                Ok(())
            }
            Err(_) => {
                self.failed = true;
                Err(AppendFault::Failed)
            }
        }
    }
}

/// What comes behind the gate of a batch: the length of its body, the body, and a closed gate for the next one.
fn behind_gate(alloc: Global, events: &[Event], most: u32) -> Result<Vec<u8>, NoMem>
    requires least { COUNT_BYTES + MOST_EVENT_BYTES ≤ most }
    requires short { most ≤ MOST_BYTES }
    requires some { 1 ≤ length events.now }
    requires few { length events.now ≤ (most - COUNT_BYTES) / MOST_EVENT_BYTES }
    requires parents { AllByRecursion (λ e. length e.parents ≤ MOST_PARENTS) events.now }
    ensures bytes { IfOk result (λ piece. piece.items ≡ four_bytes (length (events_body events.now)) ++ events_body events.now ++ 0 ∷ []) }
    ensures batch { OnOk result (IsBatch most events.now) }
    ensures length { IfOk result (λ piece. length piece.items ≤ 9 + MOST_EVENT_BYTES * length events.now) }
{
    note_events(events);
    let body = encode_events(alloc, events)?;
    let mut piece = Vec::with_capacity(alloc, body.len() + 5)?;
    piece.extend_from_slice(&(body.len() as u32).to_le_bytes())?;
    piece.extend_from_slice(&body)?;
    piece.push(CLOSED)?;
    Ok(piece)
}
