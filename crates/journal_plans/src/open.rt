//! Opening the journal: its batches, and their events.
ghost use Rattle.std.specs.Prelude.{◌≡◌, ◌≤◌, ◌+◌, IfOk, IfSome, length};
ghost use Rattle.ew_model.specs.declared.event.Event.{Event};
ghost use Rattle.ew_model.specs.Touches.{touches};
ghost use Rattle.ew_model.specs.Verdicts.{first_bad};
ghost use Rattle.event_journal.specs.Disk.{StaysWithin, TellsAlike};
ghost use Rattle.event_journal.specs.Journal.{HoldSame};
ghost use Rattle.peer_definitions.specs.Batches.{journal_events};
ghost use Rattle.command_table.specs.Crashes.{HoldsSameAsOne};
ghost use Rattle.command_table.specs.Journals as table;
ghost use Rattle.command_table.specs.Journals.{TellsJournal, judged_journal, open_journal};
ghost use Rattle.command_table.specs.Possible.{MayOpenJournal};
ghost use Rattle.opened_files.specs.Views as file;
ghost use Rattle.opened_files.specs.Views.{IsJudged, opened_view};
ghost use Rattle.journal_plans.specs.Adding.{IsKeptAs, IsReady};
ghost use Rattle.journal_plans.specs.Opening.{IfOpen, IsFresh, IsJournalStatus, RefusesOpening, journal_view};
ghost use Rattle.journal_plans.specs.Stops.{DiskCauses};

use crate::stop::Stop;
use command_texts::refusal::Refusal;
use event_journal::{Disk, Journal, OpenFault};
use ew_model::NoMem;
use ew_model::event::Event;
use ew_model::limits::Limits;
use ew_model::steps::Steps;
use ew_outside::Fault;
use opened_files::open::Found;
use replica::{LoadFault, Replica};
use std::alloc::Global;
use std::sync::ledger::Ledger;

/// A journal that is open, and a replica of its events.
#[derive(Drop)]
pub struct Opened {
    pub journal: Journal,
    pub replica: Replica,
}

/// Why a journal isn't opened, where nothing failed.
fn open_refusal(limits: &Limits, fault: OpenFault) -> Result<Refusal, Stop>
    ensures { RefusesOpening limits.now fault result }
{
    match fault {
        OpenFault::Failed => Err(Stop::Disk),
        OpenFault::OutOfMemory => Err(Stop::Fault(Fault::OutOfMemory)),
        OpenFault::BadBatch { offset } => Ok(Refusal::BadBatch { offset }),
        OpenFault::TooMany { .. } => Ok(Refusal::JournalTooMany {
            most: limits.events(),
        }),
    }
}

/// The replica of the journal's events, or the first that isn't good.
fn judge<L: Ledger>(
    alloc: Global,
    events: Vec<Event>,
    limits: &Limits,
    steps: &mut Steps<L>,
) -> Result<Found<Replica>, NoMem>
    requires few { length events.items ≤ limits.now.events }
    ensures told { IfOk result (λ f. opened_view f ≡ judged_journal events.items (first_bad events.items)) }
    ensures status { IfOk result IsJudged }
    ensures fresh { IfOk result (λ f. file.IsFresh limits.now f) }
    ensures most { steps.new ≤ steps.old + touches events.items 0 }
{
    match Replica::from_events(alloc, events, *limits, steps) {
        Ok(replica) => Ok(Found::Open(replica)),
        Err(LoadFault::OutOfMemory) => Err(NoMem),
        Err(LoadFault::BadEvent { position, verdict }) => {
            Ok(Found::Refused(Refusal::BadJournalEvent { position, verdict }))
        }
    }
}

/// Opens the journal of a disk, and makes a replica of its events. The steps taken are at most the touches of these events.
pub fn open<D: Disk, L: Ledger>(
    alloc: Global,
    limits: &Limits,
    disk: &mut D,
    steps: &mut Steps<L>,
) -> Result<Found<Opened>, Stop>
    // Over a journal that is known it is opened as the table says, and the disk is as it left it.
    ensures told { (j : table.Journal) → TellsJournal limits.now (D.seen disk.old).bytes j → IfOk result (λ f. journal_view f ≡ open_journal limits.now j) }
    ensures kept { (j : table.Journal) → TellsJournal limits.now (D.seen disk.old).bytes j → IfOk result (λ f. IfOpen f (λ o. IsKeptAs o.journal (D.seen disk.new).bytes (D.may_leave disk.new) j.batches)) }
    ensures ready { IfOk result (λ f. IfOpen f (λ o. IsReady o.journal (D.seen disk.new).bytes (D.may_leave disk.new))) }
    ensures fresh { IfOk result (λ f. IfOpen f (IsFresh limits.now)) }
    ensures some { IfOk result (λ f. MayOpenJournal limits.now (journal_view f)) }
    ensures status { IfOk result IsJournalStatus }
    // Whatever it answers, the disk holds the same batches, and a crash at any moment leaves batches that one before might have left.
    ensures tells { TellsAlike (D.seen disk.old).bytes (D.seen disk.new).bytes }
    ensures same { IfSome (D.seen disk.old).bytes (λ bytes. IfSome (D.seen disk.new).bytes (HoldSame limits.now.body bytes)) }
    ensures any_moment { IfSome (D.seen disk.old).bytes (λ _. StaysWithin D.moment D.left_since disk.old disk.new (HoldsSameAsOne limits.now (D.may_leave disk.old))) }
    ensures cause { DiskCauses (D.seen disk.old).faults (D.seen disk.new).faults result }
    ensures most { (j : table.Journal) → TellsJournal limits.now (D.seen disk.old).bytes j → steps.new ≤ steps.old + touches (journal_events j.batches) 0 }
{
    match Journal::open(alloc, disk, limits) {
        Err(fault) => Ok(Found::Refused(open_refusal(limits, fault)?)),
        Ok((journal, events)) => match judge(alloc, events, limits, steps)? {
            Found::Open(replica) => Ok(Found::Open(Opened { journal, replica })),
            Found::Refused(why) => Ok(Found::Refused(why)),
        },
    }
}
