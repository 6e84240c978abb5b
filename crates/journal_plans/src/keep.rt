//! Keeping the events of a line in the journal.
ghost use Rattle.std.specs.Prelude.{◌≡◌, ◌≤◌, ◌<◌, ◌+◌, [], ◌∷◌, drop, length, IfOk, OnOk};
ghost use Rattle.std.specs.List.{AllByRecursion};
ghost use Rattle.event_journal.specs.Disk.{TellsAlike};
ghost use Rattle.peer_definitions.specs.Pieces as model;
ghost use Rattle.peer_definitions.specs.Pieces.{pieces};
ghost use Rattle.command_table.specs.Text as table;
ghost use Rattle.journal_plans.specs.Adding.{Adds, IsReady};
ghost use Rattle.journal_plans.specs.Keeping.{Prints};
ghost use Rattle.journal_plans.specs.Stops.{DiskCauses, KeepCauses};

use crate::stop::Stop;
use command_texts::texts::kept_text;
use event_journal::{AppendFault, Disk, Journal};
use ew_model::NoMem;
use ew_model::event::Event;
use ew_model::limits::{COUNT_BYTES, Limits, MOST_EVENT_BYTES, MOST_PARENTS};
use ew_outside::{Failed, Fault, Sink, write_and_flush};
use replica::Replica;
use std::alloc::Global;

/// How many events go into one batch.
fn batch_room(limits: &Limits) -> usize
    ensures room { result ≡ model.frame_room limits.now }
    ensures some { 0 < result }
{
    ((limits.body() - COUNT_BYTES) / MOST_EVENT_BYTES) as usize
}

/// The events of a replica from a position on.
pub fn events_from(alloc: Global, replica: &Replica, from: u32) -> Result<Vec<Event>, NoMem>
    requires { from ≤ length replica.now.held }
    ensures events { IfOk result (λ v. v.items ≡ drop from replica.now.held) }
    ensures parents { IfOk result (λ v. AllByRecursion (λ e. length e.parents ≤ MOST_PARENTS) v.items) }
    ensures few { IfOk result (λ v. from + length v.items ≤ replica.now.limits.events) }
{
    let _limits = replica.limits();
    let mut events = Vec::new(alloc);
    for position in from..replica.count() {
        events.push(replica.graph().event_at(position)?)?;
    }
    Ok(events)
}

/// Appends one batch.
fn append<D: Disk>(
    alloc: Global,
    journal: &mut Journal,
    disk: &mut D,
    batch: &[Event],
) -> Result<(), Stop>
    requires ready { IsReady journal.old (D.seen disk.old).bytes (D.may_leave disk.old) }
    requires some { 1 ≤ length batch.now }
    requires few { length batch.now ≤ model.frame_room journal.old.limits }
    requires parents { AllByRecursion (λ e. length e.parents ≤ MOST_PARENTS) batch.now }
    requires room { journal.old.count + length batch.now ≤ journal.old.limits.events }
    ensures adds { Adds D.may_leave D.moment D.left_since journal.old journal.new disk.old disk.new (D.seen disk.old).bytes (D.seen disk.new).bytes (batch.now ∷ []) result }
    ensures ready { OnOk result (IsReady journal.new (D.seen disk.new).bytes (D.may_leave disk.new)) }
    ensures limits { journal.new.limits ≡ journal.old.limits }
    ensures counted { OnOk result (journal.new.count ≡ journal.old.count + length batch.now) }
    ensures tells { TellsAlike (D.seen disk.old).bytes (D.seen disk.new).bytes }
    ensures cause { DiskCauses (D.seen disk.old).faults (D.seen disk.new).faults result }
{
    match journal.append(alloc, disk, batch) {
        Ok(()) => Ok(()),
        Err(AppendFault::OutOfMemory) => Err(Stop::Fault(Fault::OutOfMemory)),
        Err(AppendFault::Failed) => Err(Stop::Disk),
        Err(AppendFault::Closed) => unreachable!(),
    }
}

/// Appends events in batches, each full but the last.
fn append_all<D: Disk>(
    alloc: Global,
    journal: &mut Journal,
    disk: &mut D,
    limits: &Limits,
    events: &[Event],
) -> Result<(), Stop>
    requires limits { journal.old.limits ≡ limits.now }
    requires ready { IsReady journal.old (D.seen disk.old).bytes (D.may_leave disk.old) }
    requires parents { AllByRecursion (λ e. length e.parents ≤ MOST_PARENTS) events.now }
    requires room { journal.old.count + length events.now ≤ limits.now.events }
    ensures adds { Adds D.may_leave D.moment D.left_since journal.old journal.new disk.old disk.new (D.seen disk.old).bytes (D.seen disk.new).bytes (pieces (model.frame_room limits.now) events.now) result }
    ensures ready { OnOk result (IsReady journal.new (D.seen disk.new).bytes (D.may_leave disk.new)) }
    ensures limits { journal.new.limits ≡ journal.old.limits }
    ensures counted { OnOk result (journal.new.count ≡ journal.old.count + length events.now) }
    ensures tells { TellsAlike (D.seen disk.old).bytes (D.seen disk.new).bytes }
    ensures cause { DiskCauses (D.seen disk.old).faults (D.seen disk.new).faults result }
{
    let room = batch_room(limits);
    let mut rest = events;
    for _ in 0..events.len().div_ceil(room) {
        let (batch, behind) = rest.split_at(room.min(rest.len()));
        append(alloc, journal, disk, batch)?;
        rest = behind;
    }
    Ok(())
}

/// Writes how many events stand in the journal, and flushes it.
fn tell_kept<K: Sink>(alloc: Global, out: &mut K, made: u32) -> Result<(), Stop>
    ensures told { Prints (K.seen out.old) (K.seen out.new) (table.kept_text made) result }
    ensures cause { KeepCauses 0 0 (K.seen out.old).faults (K.seen out.new).faults result }
{
    let text = kept_text(alloc, made)?;
    match write_and_flush(out, &text) {
        Ok(()) => Ok(()),
        Err(Failed) => Err(Stop::Fault(Fault::Sink)),
    }
}

/// Appends the events of a line, and tells it once all of them stand.
pub fn keep<D: Disk, K: Sink>(
    alloc: Global,
    journal: &mut Journal,
    disk: &mut D,
    limits: &Limits,
    events: &[Event],
    out: &mut K,
) -> Result<(), Stop>
    requires limits { journal.old.limits ≡ limits.now }
    requires ready { IsReady journal.old (D.seen disk.old).bytes (D.may_leave disk.old) }
    requires parents { AllByRecursion (λ e. length e.parents ≤ MOST_PARENTS) events.now }
    requires room { journal.old.count + length events.now ≤ limits.now.events }
    ensures adds { Adds D.may_leave D.moment D.left_since journal.old journal.new disk.old disk.new (D.seen disk.old).bytes (D.seen disk.new).bytes (pieces (model.frame_room limits.now) events.now) result }
    ensures ready { OnOk result (IsReady journal.new (D.seen disk.new).bytes (D.may_leave disk.new)) }
    ensures limits { journal.new.limits ≡ journal.old.limits }
    ensures counted { OnOk result (journal.new.count ≡ journal.old.count + length events.now) }
    ensures tells { TellsAlike (D.seen disk.old).bytes (D.seen disk.new).bytes }
    ensures told { Prints (K.seen out.old) (K.seen out.new) (table.kept_text (length events.now)) result }
    ensures cause { KeepCauses (D.seen disk.old).faults (D.seen disk.new).faults (K.seen out.old).faults (K.seen out.new).faults result }
{
    let _most = limits.events();
    append_all(alloc, journal, disk, limits, events)?;
    tell_kept(alloc, out, events.len() as u32)
}
