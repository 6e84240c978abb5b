//! The command that makes a file of the journal's events.
ghost use Rattle.std.specs.Prelude.{◌≡◌, ◌≢◌, ◌≤◌, [], IfOk, IfSome, IsTrue, false};
ghost use Rattle.std.specs.FinMap.{get};
ghost use Rattle.event_journal.specs.Disk.{TellsAlike};
ghost use Rattle.ew_outside.specs.Counts.{Asks, Rose, next};
ghost use Rattle.command_table.specs.Journals.{Journal, TellsJournal, export_reply, open_journal};
ghost use Rattle.command_table.specs.Loads.{File, missing, whole_of};
ghost use Rattle.command_table.specs.Possible.{KeepsTo, MayOpenJournal};
ghost use Rattle.command_table.specs.Table as table;
ghost use Rattle.opened_files.specs.Loading.{loaded_view};
ghost use Rattle.opened_files.specs.Views.{IsTakenReply, reply_status, reply_view};
ghost use Rattle.journal_plans.specs.Opening.{JournalTakes};
ghost use Rattle.journal_plans.specs.Stops.{DiskCauses, ExportCauses, FailedLoadsOf, IsOfShelf};
ghost use Rattle.journal_plans.specs.Watching.{IsThere, KeepsJournal, unprinted};

use crate::open::open;
use crate::stop::Stop;
use command_texts::refusal::Refusal;
use event_journal::Disk;
use ew_model::limits::Limits;
use ew_model::steps::Steps;
use ew_outside::Shelf;
use opened_files::load::{Loaded, load_whole};
use opened_files::open::Found;
use opened_files::reply::Reply;
use opened_files::store::store_reply;
use std::alloc::Global;
use std::sync::ledger::Ledger;

/// Whether a file is there.
fn is_there(found: &Loaded) -> bool
    ensures there { IsTrue result → IsThere (loaded_view found.now) }
    ensures missing { result ≡ false → loaded_view found.now ≡ missing }
{
    !matches!(found, Loaded::Missing)
}

/// The reply that stores the journal's events as a file that isn't there, unless the journal is refused.
fn export_events<D: Disk, L: Ledger>(
    alloc: Global,
    name: &str,
    limits: &Limits,
    disk: &mut D,
    steps: &mut Steps<L>,
) -> Result<Reply, Stop>
    ensures told { (j : Journal) → TellsJournal limits.now (D.seen disk.old).bytes j → IfOk result (λ p. reply_view p ≡ export_reply name.now missing (open_journal limits.now j)) }
    ensures some { IfOk result (λ p. (o : table.Opened) × MayOpenJournal limits.now o × (reply_view p ≡ export_reply name.now missing o)) }
    ensures kept { (j : Journal) → TellsJournal limits.now (D.seen disk.old).bytes j → KeepsJournal D.may_leave D.moment D.left_since limits.now j [] disk.old disk.new (D.seen disk.old).bytes (D.seen disk.new).bytes unprinted unprinted result }
    ensures plan { IfOk result IsTakenReply }
    ensures found { IfOk result (λ p. reply_status p ≢ 3) }
    ensures tells { TellsAlike (D.seen disk.old).bytes (D.seen disk.new).bytes }
    ensures cause { DiskCauses (D.seen disk.old).faults (D.seen disk.new).faults result }
    ensures most { JournalTakes limits.now (D.seen disk.old).bytes steps.old steps.new }
{
    match open(alloc, limits, disk, steps)? {
        Found::Refused(why) => Ok(Reply::Refuses(why)),
        Found::Open(opened) => Ok(store_reply(alloc, name, &opened.replica, Vec::new(alloc))?),
    }
}

/// Plans to store the journal's events as a file that isn't there. The steps taken are at most the touches of these events.
pub fn export<H: Shelf, D: Disk, L: Ledger>(
    alloc: Global,
    name: &str,
    limits: &Limits,
    shelf: &mut H,
    disk: &mut D,
    steps: &mut Steps<L>,
) -> Result<Reply, Stop>
    ensures told { IfSome (H.seen shelf.old).files (λ m. (j : Journal) → TellsJournal limits.now (D.seen disk.old).bytes j → IfOk result (λ p. reply_view p ≡ export_reply name.now (whole_of 0 (get m name.now)) (open_journal limits.now j))) }
    ensures some { IfOk result (λ p. (file : File) × (o : table.Opened) × MayOpenJournal limits.now o × (reply_view p ≡ export_reply name.now file o) × KeepsTo 0 file) }
    ensures kept { (j : Journal) → TellsJournal limits.now (D.seen disk.old).bytes j → KeepsJournal D.may_leave D.moment D.left_since limits.now j [] disk.old disk.new (D.seen disk.old).bytes (D.seen disk.new).bytes unprinted unprinted result }
    ensures plan { IfOk result IsTakenReply }
    ensures same { (H.seen shelf.new).files ≡ (H.seen shelf.old).files }
    ensures misses { (H.seen shelf.old).misses ≤ (H.seen shelf.new).misses }
    ensures there { IfOk result (λ p. reply_status p ≡ 3 → ((H.seen shelf.new).misses ≡ (H.seen shelf.old).misses) × (disk.new ≡ disk.old)) }
    ensures absent { IfOk result (λ p. reply_status p ≡ 0 → Rose (H.seen shelf.old).misses (H.seen shelf.new).misses) }
    ensures loads { (H.seen shelf.new).loads ≡ next (H.seen shelf.old).loads }
    ensures failed_loads { FailedLoadsOf (H.seen shelf.old).failed_loads (H.seen shelf.new).failed_loads result }
    ensures loaded_first { IsOfShelf result → disk.new ≡ disk.old }
    ensures asked { Asks 0 (H.seen shelf.old).asked (H.seen shelf.new).asked }
    ensures stores { (H.seen shelf.new).stores ≡ (H.seen shelf.old).stores }
    ensures tells { TellsAlike (D.seen disk.old).bytes (D.seen disk.new).bytes }
    ensures cause { ExportCauses (H.seen shelf.old).faults (H.seen shelf.new).faults (D.seen disk.old).faults (D.seen disk.new).faults result }
    ensures most { JournalTakes limits.now (D.seen disk.old).bytes steps.old steps.new }
{
    let found = load_whole(shelf, name, 0)?;
    if is_there(&found) {
        return Ok(Reply::Refuses(Refusal::FileThere(String::from_str(alloc, name)?)));
    }
    export_events(alloc, name, limits, disk, steps)
}
