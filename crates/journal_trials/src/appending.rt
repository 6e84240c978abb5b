//! Batches that are appended to a journal, and what its calls answer.

ghost use Rattle.std.specs.Prelude.{◌≡◌, ◌≤◌, false, true, length};
ghost use Rattle.std.specs.List.{AllByRecursion};
ghost use Rattle.event_journal.specs.Journal.{IsKeptOn};

use event_journal::{AppendFault, Disk, Journal, OpenFault};
use ew_model::event::Event;
use ew_model::limits::{COUNT_BYTES, Limits, MOST_EVENT_BYTES, MOST_PARENTS};
use std::alloc::Global;
use std::fmt::Write;
use trial_rows::fault::Fault;

/// Opens a journal on the disk and appends the batches. Tells what each call answers.
pub fn append_all<D: Disk>(
    alloc: Global,
    disk: &mut D,
    limits: &Limits,
    batches: &[Vec<Event>],
) -> Result<String, Fault> {
    let (journal, _events) = match Journal::open(alloc, disk, limits) {
        Ok(found) => found,
        Err(OpenFault::OutOfMemory) => return Err(Fault::OutOfMemory),
        Err(fault) => return Ok(format!(in alloc; "{fault}")?),
    };
    append_each(alloc, journal, disk, limits, batches)
}

/// Appends each batch, and tells how many events there are, at first and after each, or what is answered.
fn append_each<D: Disk>(
    alloc: Global,
    mut journal: Journal,
    disk: &mut D,
    limits: &Limits,
    batches: &[Vec<Event>],
) -> Result<String, Fault>
    requires limits { journal.limits ≡ limits.now }
    requires kept { journal.failed ≡ false → IsKeptOn journal (D.seen disk.old).bytes (D.may_leave disk.old) }
{
    let mut told = format!(in alloc; "{}", journal.count())?;
    for batch in batches {
        match append(alloc, &mut journal, disk, limits, batch)? {
            Ok(()) => write!(told, " {}", journal.count())?,
            Err(fault) => write!(told, ", {fault}")?,
        }
    }
    Ok(told)
}

/// Appends a batch that the journal has room for. Other batches are none that a row may have.
fn append<D: Disk>(
    alloc: Global,
    journal: &mut Journal,
    disk: &mut D,
    limits: &Limits,
    batch: &[Event],
) -> Result<Result<(), AppendFault>, Fault>
    requires limits { journal.old.limits ≡ limits.now }
    requires kept { journal.old.failed ≡ false → IsKeptOn journal.old (D.seen disk.old).bytes (D.may_leave disk.old) }
    ensures limits { journal.new.limits ≡ limits.now }
    ensures kept { journal.new.failed ≡ false → IsKeptOn journal.new (D.seen disk.new).bytes (D.may_leave disk.new) }
{
    let most = ((limits.body() - COUNT_BYTES) / MOST_EVENT_BYTES) as usize;
    let room = (limits.events() - journal.count()) as usize;
    if batch.is_empty() || batch.len() > most || batch.len() > room || !have_few_parents(batch) {
        return Err(Fault::Unreadable);
    }
    match journal.append(alloc, disk, batch) {
        Ok(()) => Ok(Ok(())),
        Err(AppendFault::Failed) => Ok(Err(AppendFault::Failed)),
        Err(AppendFault::Closed) => Ok(Err(AppendFault::Closed)),
        Err(AppendFault::OutOfMemory) => Err(Fault::OutOfMemory),
    }
}

fn have_few_parents(events: &[Event]) -> bool
    ensures { result ≡ true → AllByRecursion (λ e. length e.parents ≤ MOST_PARENTS) events.now }
{
    for event in events {
        if event.parents.as_slice().len() > MOST_PARENTS as usize {
            return false;
        }
    }
    true
}
