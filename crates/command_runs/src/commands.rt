//! The commands that reach the shelf alone.
ghost use Rattle.std.specs.Prelude.{◌≡◌, ◌≢◌, ◌≤◌, ◌+◌, IfOk, IfSome};
ghost use Rattle.std.specs.FinMap.{get};
ghost use Rattle.std.specs.Option.{option_map};
ghost use Rattle.command_table.specs.Loads.{File, whole_of};
ghost use Rattle.command_table.specs.Possible.{KeepsTo, MayReplyTo};
ghost use Rattle.command_table.specs.Table as table;
ghost use Rattle.command_table.specs.Table.{blame, caret, create_reply, open_file, over_events, past, show_reply};
ghost use Rattle.history_definitions.specs.Summary.{summary_of};
ghost use Rattle.peer_definitions.specs.declared.frame.Frame.TheVariants.{Have};
ghost use Rattle.peer_definitions.specs.Spelling.{frame_bytes};
ghost use Rattle.opened_files.specs.Touches.{TouchesAtMost, file_touches, listing_touches, touches_over};
ghost use Rattle.opened_files.specs.Views.{IsTakenReply, FailedLoadsBy, MissesBy, ShelfCauses, reply_view, reply_status};
ghost use Rattle.ew_model.specs.Limits.{most_file_bytes};
ghost use Rattle.ew_outside.specs.Counts.{Asks, Rose, next};
ghost use Rattle.command_reader.specs.Words.{listing_view};
ghost use Rattle.command_runs.specs.Listings.{Lists, Shows, caret_fault};

use blame::blame_text;
use caret_places::{CaretFault, caret_in_version, index_in_text};
use command_reader::words::Listing;
use command_texts::refusal::Refusal;
use command_texts::texts::index_text;
use event_file::encode_runs;
use ew_model::NoMem;
use ew_model::id::Id;
use ew_model::limits::Limits;
use ew_model::steps::Steps;
use ew_outside::{Fault, Shelf};
use history_view::{check_text, heads_text, into_replay_text, log_text, marks_text};
use opened_files::load::{Loaded, load_whole};
use opened_files::open::{Found, open};
use opened_files::reply::Reply;
use peer_exchange::ask;
use peer_frames::encode;
use replica::{Replica, VersionFault};
use std::alloc::Global;
use std::sync::ledger::Ledger;

/// The text of a version, or its first id that isn't held.
fn past_text<L: Ledger>(
    version: &[Id],
    replica: &Replica,
    steps: &mut Steps<L>,
) -> Result<Vec<u8>, VersionFault>
    ensures shown { Shows (show_reply (past version.now) replica.now.held) result }
    ensures most { steps.new ≤ steps.old + listing_touches (past version.now) replica.now.held }
{
    replica.text_at(version, steps)
}

/// Who wrote what, of the whole text or of a version, or the version's first id that isn't held.
fn blamed<L: Ledger>(
    alloc: Global,
    version: &Option<Vec<Id>>,
    columns: u32,
    replica: &Replica,
    steps: &mut Steps<L>,
) -> Result<Vec<u8>, VersionFault>
    ensures shown { Shows (show_reply (blame (option_map (λ ids. ids.items) version.now) columns) replica.now.held) result }
    ensures most { steps.new ≤ steps.old + listing_touches (blame (option_map (λ ids. ids.items) version.now) columns) replica.now.held }
{
    match version {
        Some(ids) => blame_text(alloc, replica, Some(ids.as_slice()), columns, steps),
        None => blame_text(alloc, replica, None, columns, steps),
    }
}

/// Why a caret isn't shown that was to be taken at an index.
fn caret_fault(index: u32, fault: CaretFault) -> ListingFault
    ensures { result ≡ caret_fault index fault }
{
    match fault {
        CaretFault::Unknown(id) => ListingFault::Unknown(id),
        CaretFault::OutOfRange { len } => ListingFault::OutOfRange { index, len },
        CaretFault::OutOfMemory => ListingFault::OutOfMemory,
    }
}

/// The index at which a caret is that was taken at an index of a version's text.
fn located<L: Ledger>(
    alloc: Global,
    version: &[Id],
    index: u32,
    replica: &Replica,
    steps: &mut Steps<L>,
) -> Result<Vec<u8>, ListingFault>
    ensures listed { Lists (show_reply (caret version.now index) replica.now.held) result }
    ensures most { steps.new ≤ steps.old + listing_touches (caret version.now index) replica.now.held }
{
    let graph = replica.graph();
    let caret = match caret_in_version(alloc, graph, version, index, steps) {
        Ok(caret) => caret,
        Err(fault) => return Err(caret_fault(index, fault)),
    };
    let at = index_in_text(alloc, graph, &caret, steps)?;
    Ok(index_text(alloc, at)?)
}

/// The frame that asks a peer for the events which the replica lacks.
fn question_bytes(alloc: Global, replica: &Replica) -> Result<Vec<u8>, NoMem>
    ensures { IfOk result (λ bytes. bytes.items ≡ frame_bytes (Have (summary_of replica.now.held))) }
{
    let question = ask(replica)?;
    encode(alloc, &question)
}

/// Why a listing isn't shown.
pub enum ListingFault {
    /// The first id of a version, in the order written, that isn't held.
    Unknown(Id),
    /// The index is above the length of the version's text.
    OutOfRange { index: u32, len: u32 },
    OutOfMemory,
}

impl From<NoMem> for ListingFault {
    ghost use Rattle.command_runs.specs.declared.commands.ListingFault.TheVariants.{OutOfMemory};

    ghost from_gives = { λ _ fault. fault ≡ OutOfMemory };

    fn from(_: NoMem) -> ListingFault {
        ListingFault::OutOfMemory
    }
}

/// A listing that fails for a version alone.
fn listed(shown: Result<Vec<u8>, VersionFault>) -> Result<Vec<u8>, ListingFault>
    ensures { (reply : table.Reply) → Shows reply shown → Lists reply result }
{
    match shown {
        Ok(text) => Ok(text),
        Err(VersionFault::Unknown(id)) => Err(ListingFault::Unknown(id)),
        Err(VersionFault::OutOfMemory) => Err(ListingFault::OutOfMemory),
    }
}

/// What is shown of a replica, or why it isn't.
fn list<L: Ledger>(
    alloc: Global,
    listing: &Listing,
    replica: Replica,
    steps: &mut Steps<L>,
) -> Result<Vec<u8>, ListingFault>
    ensures listed { Lists (show_reply (listing_view listing.now) replica.held) result }
    ensures most { steps.new ≤ steps.old + listing_touches (listing_view listing.now) replica.held }
{
    match listing {
        Listing::Content => Ok(replica.text()?),
        Listing::Past(version) => listed(past_text(version, &replica, steps)),
        Listing::Heads => Ok(heads_text(alloc, &replica)?),
        Listing::Log => Ok(log_text(alloc, &replica)?),
        Listing::Replay => Ok(into_replay_text(alloc, replica, steps)?),
        Listing::Numbers => Ok(check_text(alloc, &replica)?),
        Listing::Question => Ok(question_bytes(alloc, &replica)?),
        Listing::Marks => Ok(marks_text(alloc, &replica)?),
        Listing::Caret { version, index } => located(alloc, version, *index, &replica, steps),
        Listing::Blame { version, columns } => {
            listed(blamed(alloc, version, *columns, &replica, steps))
        }
    }
}

/// The reply that prints what was listed, or tells why nothing was.
fn reply_of(listed: Result<Vec<u8>, ListingFault>) -> Result<Reply, NoMem>
    ensures told { (reply : table.Reply) → Lists reply listed → IfOk result (λ p. reply_view p ≡ reply) }
    ensures found { IfOk result (λ p. reply_status p ≢ 3) }
    ensures plan { IfOk result IsTakenReply }
{
    match listed {
        Ok(text) => Ok(Reply::Prints(text)),
        Err(ListingFault::Unknown(id)) => Ok(Reply::Refuses(Refusal::Unknown(id))),
        Err(ListingFault::OutOfRange { index, len }) => {
            Ok(Reply::Refuses(Refusal::IndexOutOfRange { index, len }))
        }
        Err(ListingFault::OutOfMemory) => Err(NoMem),
    }
}

/// The reply that prints what is shown of a replica.
fn shown<L: Ledger>(
    alloc: Global,
    listing: Listing,
    replica: Replica,
    steps: &mut Steps<L>,
) -> Result<Reply, NoMem>
    ensures told { IfOk result (λ p. reply_view p ≡ show_reply (listing_view listing) replica.held) }
    ensures found { IfOk result (λ p. reply_status p ≢ 3) }
    ensures plan { IfOk result IsTakenReply }
    ensures most { steps.new ≤ steps.old + listing_touches (listing_view listing) replica.held }
{
    let listed = list(alloc, &listing, replica, steps);
    reply_of(listed)
}

/// Shows a file: its text now or at a version, its heads, its events, its marks, its replay, its numbers, what it
/// asks a peer for, where a caret is, or who wrote what.
pub fn show<H: Shelf, L: Ledger>(
    alloc: Global,
    listing: Listing,
    name: &str,
    limits: &Limits,
    shelf: &mut H,
    steps: &mut Steps<L>,
) -> Result<Reply, Fault>
    ensures told { IfSome (H.seen shelf.old).files (λ m. IfOk result (λ p. reply_view p ≡ over_events (show_reply (listing_view listing)) (open_file name.now limits.now m))) }
    ensures some { IfOk result (λ p. MayReplyTo (table.show (listing_view listing) name.now) limits.now (reply_view p)) }
    ensures plan { IfOk result IsTakenReply }
    ensures same { (H.seen shelf.new).files ≡ (H.seen shelf.old).files }
    ensures cause { ShelfCauses (H.seen shelf.old).faults (H.seen shelf.new).faults result }
    ensures misses { MissesBy (H.seen shelf.old).misses (H.seen shelf.new).misses result }
    ensures loads { (H.seen shelf.new).loads ≡ next (H.seen shelf.old).loads }
    ensures failed_loads { FailedLoadsBy (H.seen shelf.old).failed_loads (H.seen shelf.new).failed_loads result }
    ensures asked { Asks (most_file_bytes limits.now.events) (H.seen shelf.old).asked (H.seen shelf.new).asked }
    ensures stores { (H.seen shelf.new).stores ≡ (H.seen shelf.old).stores }
    ensures most { TouchesAtMost (λ m. file_touches name.now limits.now m + touches_over (listing_touches (listing_view listing)) (open_file name.now limits.now m)) (H.seen shelf.old).files steps.old steps.new }
{
    match open(alloc, name, limits, shelf, steps)? {
        Found::Refused(why) => Ok(Reply::Refuses(why)),
        Found::Open(replica) => {
            let reply = shown(alloc, listing, replica, steps)?;
            Ok(reply)
        }
    }
}

/// Makes a file that isn't there: the file of no events.
pub fn create<H: Shelf>(alloc: Global, name: &str, shelf: &mut H) -> Result<Reply, Fault>
    ensures told { IfSome (H.seen shelf.old).files (λ m. IfOk result (λ p. reply_view p ≡ create_reply name.now (whole_of 0 (get m name.now)))) }
    ensures some { IfOk result (λ p. (file : File) × (reply_view p ≡ create_reply name.now file) × KeepsTo 0 file) }
    ensures plan { IfOk result IsTakenReply }
    ensures same { (H.seen shelf.new).files ≡ (H.seen shelf.old).files }
    ensures cause { ShelfCauses (H.seen shelf.old).faults (H.seen shelf.new).faults result }
    ensures misses { (H.seen shelf.old).misses ≤ (H.seen shelf.new).misses }
    ensures there { IfOk result (λ p. reply_status p ≡ 3 → (H.seen shelf.new).misses ≡ (H.seen shelf.old).misses) }
    ensures absent { IfOk result (λ p. reply_status p ≡ 0 → Rose (H.seen shelf.old).misses (H.seen shelf.new).misses) }
    ensures loads { (H.seen shelf.new).loads ≡ next (H.seen shelf.old).loads }
    ensures failed_loads { FailedLoadsBy (H.seen shelf.old).failed_loads (H.seen shelf.new).failed_loads result }
    ensures asked { Asks 0 (H.seen shelf.old).asked (H.seen shelf.new).asked }
    ensures stores { (H.seen shelf.new).stores ≡ (H.seen shelf.old).stores }
{
    match load_whole(shelf, name, 0)? {
        Loaded::Missing => Ok(Reply::Stores {
            out: Vec::new(alloc),
            name: String::from_str(alloc, name)?,
            bytes: encode_runs(alloc, &[])?,
        }),
        _ => Ok(Reply::Refuses(Refusal::FileThere(String::from_str(alloc, name)?))),
    }
}
