//! Opening an event file: its bytes, its grammar, its events.
ghost use Rattle.std.specs.FinMap.{get};
ghost use Rattle.std.specs.Prelude.{◌≡◌, ◌≤◌, ◌<◌, ◌+◌, ◌^◌, List, IfOk, IfSome, IsSomeAnd};
ghost use Rattle.ew_model.specs.declared.event.Event.{Event};
ghost use Rattle.ew_model.specs.Limits.{most_file_bytes};
ghost use Rattle.ew_model.specs.Touches.{touches};
ghost use Rattle.ew_model.specs.Verdicts.{first_bad};
ghost use Rattle.replica.specs.Answers.{TellsBad};
ghost use Rattle.replica.specs.Giving.{WereGiven};
ghost use Rattle.opened_files.specs.Faults.{finding_of};
ghost use Rattle.command_table.specs.Loads.{File, whole_of};
ghost use Rattle.command_table.specs.Possible.{KeepsTo, MayOpen};
ghost use Rattle.command_table.specs.Refusals.{refusal_status};
ghost use Rattle.command_texts.specs.Reasons.{refusal_view};
ghost use Rattle.command_table.specs.Table.{judged, open_file, read_as, refused};
ghost use Rattle.opened_files.specs.Reads.{IsLoadedAs, IsReadAs};
ghost use Rattle.opened_files.specs.Views.{IsFileStatus, IsFresh, IsJudged, IsOfVersion, IsOpenable, IsVersioned, FailedLoadsBy, OpenMisses, ShelfCauses, graph_view, opened_view, versioned_view};
ghost use Rattle.opened_files.specs.Touches.{TouchesAtMost, file_touches};
ghost use Rattle.ew_outside.specs.Counts.{Asks, next};

use crate::load::{Loaded, load_whole};
use command_texts::refusal::Refusal;
use event_file::{FileFault, version_of};
use event_graph::Graph;
use ew_model::NoMem;
use ew_model::limits::Limits;
use ew_model::steps::Steps;
use ew_outside::{Fault, Shelf};
use replica::{LoadFault, Loading, Replica};
use std::alloc::Global;
use std::sync::ledger::Ledger;
use stored_histories::give::give_events;

/// A file as it was found: open, with what was made of its events, or refused.
#[derive(Drop)]
pub enum Found<T> {
    Open(T),
    Refused(Refusal),
}

/// The events of a file, and the version that its bytes name.
#[derive(Drop)]
pub struct FileEvents {
    pub version: u8,
    pub given: Loading,
}

/// The replica of a file's events, and the version that its bytes name.
#[derive(Drop)]
pub struct Versioned {
    pub version: u8,
    pub replica: Replica,
}

/// Why events aren't good.
fn load_refusal(alloc: Global, name: &str, fault: LoadFault) -> Result<Refusal, NoMem>
    ensures told { IfOk result (λ why. (events : List Event) → TellsBad events fault → judged name.now events (first_bad events) ≡ refused (refusal_view why)) }
    ensures status { IfOk result (λ why. refusal_status (refusal_view why) ≡ 4) }
{
    match fault {
        LoadFault::OutOfMemory => Err(NoMem),
        LoadFault::BadEvent { position, verdict } => Ok(Refusal::BadEvent {
            name: String::from_str(alloc, name)?,
            position,
            verdict,
        }),
    }
}

/// The replica of events that were given, or why they aren't good.
fn judge<L: Ledger>(
    alloc: Global,
    name: &str,
    given: Loading,
    steps: &mut Steps<L>,
) -> Result<Found<Replica>, NoMem>
    ensures told { (events : List Event) → WereGiven events given → IfOk result (λ f. opened_view f ≡ judged name.now events (first_bad events)) }
    ensures status { IfOk result IsJudged }
    ensures fresh { (events : List Event) → WereGiven events given → IfOk result (λ f. IsFresh given.limits f) }
    ensures most { (events : List Event) → WereGiven events given → steps.new ≤ steps.old + touches events 0 }
{
    match given.finish(steps) {
        Ok(replica) => Ok(Found::Open(replica)),
        Err(fault) => Ok(Found::Refused(load_refusal(alloc, name, fault)?)),
    }
}

/// The graph of events that were given, or why they aren't good.
fn judge_graph<L: Ledger>(
    alloc: Global,
    name: &str,
    given: Loading,
    steps: &mut Steps<L>,
) -> Result<Found<Graph>, NoMem>
    ensures told { (events : List Event) → WereGiven events given → IfOk result (λ f. graph_view f ≡ judged name.now events (first_bad events)) }
    ensures status { IfOk result IsJudged }
    ensures most { (events : List Event) → WereGiven events given → steps.new ≤ steps.old + touches events 0 }
{
    match given.finish_graph(steps) {
        Ok(graph) => Ok(Found::Open(graph)),
        Err(fault) => Ok(Found::Refused(load_refusal(alloc, name, fault)?)),
    }
}

/// Why the bytes of a file are refused.
fn file_refusal(
    alloc: Global,
    name: &str,
    limits: &Limits,
    fault: FileFault,
) -> Result<Refusal, NoMem>
    ensures told { IfOk result (λ why. IsSomeAnd (finding_of fault) (λ x. read_as name.now limits.now x ≡ refused (refusal_view why))) }
    ensures status { IfOk result (λ why. IsFileStatus (refusal_status (refusal_view why))) }
{
    let name = String::from_str(alloc, name)?;
    match fault {
        FileFault::OutOfMemory => Err(NoMem),
        FileFault::Short { len } => Ok(Refusal::ShortFile { name, len }),
        FileFault::BadMagic => Ok(Refusal::NoEventFile(name)),
        FileFault::BadVersion(version) => Ok(Refusal::UnknownVersion { name, version }),
        FileFault::BadDigest { stored, found } => Ok(Refusal::BadDigest {
            name,
            stored,
            found,
        }),
        FileFault::BadRecord { offset, kind } => Ok(Refusal::BadField { name, offset, kind }),
        FileFault::TooMany { .. } => Ok(Refusal::FileTooMany {
            name,
            most: limits.events(),
        }),
    }
}

/// Takes in the events of a file's bytes, or tells why these are no file.
fn read(
    alloc: Global,
    name: &str,
    limits: &Limits,
    bytes: &[u8],
) -> Result<Found<FileEvents>, NoMem>
    ensures { IfOk result (IsReadAs name.now limits.now bytes.now) }
{
    match give_events(alloc, bytes, limits) {
        Ok(given) => Ok(Found::Open(FileEvents {
            version: version_of(bytes).unwrap_or(0),
            given,
        })),
        Err(fault) => Ok(Found::Refused(file_refusal(alloc, name, limits, fault)?)),
    }
}

/// Loads the file of a name, and takes in its events. The shelf is left as it was.
fn load_events<H: Shelf>(
    alloc: Global,
    name: &str,
    limits: &Limits,
    shelf: &mut H,
) -> Result<Found<FileEvents>, Fault>
    ensures told { IfSome (H.seen shelf.old).files (λ m. IfOk result (IsLoadedAs name.now limits.now (whole_of (most_file_bytes limits.now.events) (get m name.now)))) }
    ensures some { IfOk result (λ f. (file : File) × IsLoadedAs name.now limits.now file f × KeepsTo (most_file_bytes limits.now.events) file) }
    ensures same { (H.seen shelf.new).files ≡ (H.seen shelf.old).files }
    ensures cause { ShelfCauses (H.seen shelf.old).faults (H.seen shelf.new).faults result }
    ensures misses { OpenMisses (H.seen shelf.old).misses (H.seen shelf.new).misses result }
    ensures loads { (H.seen shelf.new).loads ≡ next (H.seen shelf.old).loads }
    ensures failed_loads { FailedLoadsBy (H.seen shelf.old).failed_loads (H.seen shelf.new).failed_loads result }
    ensures asked { Asks (most_file_bytes limits.now.events) (H.seen shelf.old).asked (H.seen shelf.new).asked }
    ensures stores { (H.seen shelf.new).stores ≡ (H.seen shelf.old).stores }
{
    let most = most_bytes(limits);
    match load_whole(shelf, name, most)? {
        Loaded::Missing => Ok(Found::Refused(Refusal::NoFile(String::from_str(alloc, name)?))),
        Loaded::TooLong => Ok(Found::Refused(Refusal::FileTooLong {
            name: String::from_str(alloc, name)?,
            most,
        })),
        Loaded::Whole(bytes) => Ok(read(alloc, name, limits, &bytes)?),
    }
}

/// Opens the file of a name. The shelf is left as it was. The steps taken are at most the touches of its events.
pub fn open<H: Shelf, L: Ledger>(
    alloc: Global,
    name: &str,
    limits: &Limits,
    shelf: &mut H,
    steps: &mut Steps<L>,
) -> Result<Found<Replica>, Fault>
    ensures told { IfSome (H.seen shelf.old).files (λ m. IfOk result (λ f. opened_view f ≡ open_file name.now limits.now m)) }
    ensures some { IfOk result (λ f. MayOpen name.now limits.now (opened_view f)) }
    ensures status { IfOk result IsOpenable }
    ensures fresh { IfOk result (λ f. IsFresh limits.now f) }
    ensures same { (H.seen shelf.new).files ≡ (H.seen shelf.old).files }
    ensures cause { ShelfCauses (H.seen shelf.old).faults (H.seen shelf.new).faults result }
    ensures misses { OpenMisses (H.seen shelf.old).misses (H.seen shelf.new).misses result }
    ensures loads { (H.seen shelf.new).loads ≡ next (H.seen shelf.old).loads }
    ensures failed_loads { FailedLoadsBy (H.seen shelf.old).failed_loads (H.seen shelf.new).failed_loads result }
    ensures asked { Asks (most_file_bytes limits.now.events) (H.seen shelf.old).asked (H.seen shelf.new).asked }
    ensures stores { (H.seen shelf.new).stores ≡ (H.seen shelf.old).stores }
    ensures most { TouchesAtMost (file_touches name.now limits.now) (H.seen shelf.old).files steps.old steps.new }
{
    match load_events(alloc, name, limits, shelf)? {
        Found::Open(file) => Ok(judge(alloc, name, file.given, steps)?),
        Found::Refused(why) => Ok(Found::Refused(why)),
    }
}

/// The replica of events that were given, with their file's version, or why they aren't good.
fn judge_versioned<L: Ledger>(
    alloc: Global,
    name: &str,
    file: FileEvents,
    steps: &mut Steps<L>,
) -> Result<Found<Versioned>, NoMem>
    ensures told { (events : List Event) → WereGiven events file.given → IfOk result (λ f. versioned_view f ≡ judged name.now events (first_bad events)) }
    ensures version { IfOk result (λ f. IsOfVersion file.version f) }
    ensures status { IfOk result IsJudged }
    ensures most { (events : List Event) → WereGiven events file.given → steps.new ≤ steps.old + touches events 0 }
{
    let FileEvents { version, given } = file;
    match judge(alloc, name, given, steps)? {
        Found::Open(replica) => Ok(Found::Open(Versioned { version, replica })),
        Found::Refused(why) => Ok(Found::Refused(why)),
    }
}

/// Opens the file of a name as `open` does, and tells the version that its bytes name.
pub fn open_versioned<H: Shelf, L: Ledger>(
    alloc: Global,
    name: &str,
    limits: &Limits,
    shelf: &mut H,
    steps: &mut Steps<L>,
) -> Result<Found<Versioned>, Fault>
    ensures told { IfSome (H.seen shelf.old).files (λ m. IfOk result (IsVersioned name.now limits.now (whole_of (most_file_bytes limits.now.events) (get m name.now)))) }
    ensures some { IfOk result (λ f. (file : File) × IsVersioned name.now limits.now file f × KeepsTo (most_file_bytes limits.now.events) file) }
    ensures status { IfOk result IsOpenable }
    ensures same { (H.seen shelf.new).files ≡ (H.seen shelf.old).files }
    ensures cause { ShelfCauses (H.seen shelf.old).faults (H.seen shelf.new).faults result }
    ensures misses { OpenMisses (H.seen shelf.old).misses (H.seen shelf.new).misses result }
    ensures loads { (H.seen shelf.new).loads ≡ next (H.seen shelf.old).loads }
    ensures failed_loads { FailedLoadsBy (H.seen shelf.old).failed_loads (H.seen shelf.new).failed_loads result }
    ensures asked { Asks (most_file_bytes limits.now.events) (H.seen shelf.old).asked (H.seen shelf.new).asked }
    ensures stores { (H.seen shelf.new).stores ≡ (H.seen shelf.old).stores }
    ensures most { TouchesAtMost (file_touches name.now limits.now) (H.seen shelf.old).files steps.old steps.new }
{
    match load_events(alloc, name, limits, shelf)? {
        Found::Open(file) => Ok(judge_versioned(alloc, name, file, steps)?),
        Found::Refused(why) => Ok(Found::Refused(why)),
    }
}

/// Opens the file of a name as `open` does, for its events alone: neither their text nor its lengths are made.
pub fn open_graph<H: Shelf, L: Ledger>(
    alloc: Global,
    name: &str,
    limits: &Limits,
    shelf: &mut H,
    steps: &mut Steps<L>,
) -> Result<Found<Graph>, Fault>
    ensures told { IfSome (H.seen shelf.old).files (λ m. IfOk result (λ f. graph_view f ≡ open_file name.now limits.now m)) }
    ensures some { IfOk result (λ f. MayOpen name.now limits.now (graph_view f)) }
    ensures status { IfOk result IsOpenable }
    ensures same { (H.seen shelf.new).files ≡ (H.seen shelf.old).files }
    ensures cause { ShelfCauses (H.seen shelf.old).faults (H.seen shelf.new).faults result }
    ensures misses { OpenMisses (H.seen shelf.old).misses (H.seen shelf.new).misses result }
    ensures loads { (H.seen shelf.new).loads ≡ next (H.seen shelf.old).loads }
    ensures failed_loads { FailedLoadsBy (H.seen shelf.old).failed_loads (H.seen shelf.new).failed_loads result }
    ensures asked { Asks (most_file_bytes limits.now.events) (H.seen shelf.old).asked (H.seen shelf.new).asked }
    ensures stores { (H.seen shelf.new).stores ≡ (H.seen shelf.old).stores }
    ensures most { TouchesAtMost (file_touches name.now limits.now) (H.seen shelf.old).files steps.old steps.new }
{
    match load_events(alloc, name, limits, shelf)? {
        Found::Open(file) => Ok(judge_graph(alloc, name, file.given, steps)?),
        Found::Refused(why) => Ok(Found::Refused(why)),
    }
}

/// No file of a history within the limits has more bytes.
fn most_bytes(limits: &Limits) -> u64
    ensures value { result ≡ most_file_bytes limits.now.events }
    ensures small { result < 2 ^ 62 }
{
    limits.file_bytes()
}
