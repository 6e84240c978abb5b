//! Reading an event file one event at a time.

ghost use Rattle.std.specs.Prelude.{◌≡◌, ◌<◌, ◌≤◌, [], true, length, drop, None, IfOk, IfSome, IfNone, MatchResult};
ghost use Rattle.ew_model.specs.Ids.{name_eq};
ghost use Rattle.ew_model.specs.Distinct.{AreDistinct};
ghost use Rattle.file_words.specs.FileFaults.{finding_of};
ghost use Rattle.file_words.specs.FileRuns.{ops_count, ops_in};
ghost use Rattle.file_words.specs.FileVersions.{version_of, is_version, read_of_version, content_found, file_found};
ghost use Rattle.event_file.specs.Faults.{IsFault};
ghost use Rattle.event_file.specs.OpenRuns.{CanGoOn};
ghost use Rattle.event_file.specs.Reading.{Gives, Stops};
ghost use Rattle.event_file.specs.Rest.{IsNext, GoesOnBy, GoOnBy};
ghost use Rattle.event_file.specs.Runs.{ops_as};
ghost use Rattle.event_file.specs.Versions.{rest_of, read_start, records_of};

use crate::event_records::EventRecords;
use crate::fault::{FileFault, Stop, fault_of};
use crate::format::{DIGEST_LEN, MAGIC, RUNS_VERSION, SHORTEST, VERSION};
use crate::input::Input;
use crate::names::read_names;
use crate::progress::Progress;
use crate::run_ops::RunOps;
use crate::run_reader::RunReader;
use ew_model::event::{Event, Op};
use ew_model::id::Id;
use ew_model::name::Name;
use sha2::{Digest, Sha256};
use std::alloc::Global;
use std::marker::Model;

/// The events of a file's bytes, one at a time, whichever version the file is of. Of those that were handed out only the ids
/// are kept, in sixteen bytes for each run of neighbours.
/// Contracts see how many events are still to come, what is found of them, and the id that was handed out last.
#[derive(Drop)]
pub struct EventReader<'a> {
    records: Records<'a>,
}

/// The records of a version.
#[derive(Drop)]
enum Records<'a> {
    Events(EventRecords<'a>),
    Runs(RunReader<'a>),
}

impl<'a> Model for EventReader<'a> {
    ghost use Rattle.event_file.specs.Rest.{Rest};

    ghost Value = { Rest };

    ghost use Rattle.event_file.specs.Versions.{rest_of};

    ghost view = { λ r. rest_of r.records };
}

impl<'a> EventReader<'a> {
    /// A reader of a file of at most `max_events` events. All but the records is looked at first: the length, the mark, the
    /// version, the digest, the agents and the number of events.
    #[tactic(auto, unfolding(file_words::specs::FileVersions::file_found))]
    pub fn new(alloc: Global, b: &'a [u8], max_events: u32) -> Result<EventReader<'a>, FileFault>
        // What is still to come is what is found of the file; a fault is the file's.
        ensures found { MatchResult result (λ r. r.found ≡ file_found max_events b.now) (λ fault. IsFault fault (file_found max_events b.now)) }
        ensures few { IfOk result (λ r. r.records ≤ max_events) }
        ensures first { IfOk result (λ r. r.last ≡ None) }
    {
        if b.len() < SHORTEST {
            return Err(FileFault::Short {
                len: b.len() as u64,
            });
        }
        if &b[..7] != MAGIC {
            return Err(FileFault::BadMagic);
        }
        let version = b[7];
        if version != VERSION && version != RUNS_VERSION {
            return Err(FileFault::BadVersion(version));
        }
        let (content, digest) = b.split_at(b.len() - DIGEST_LEN);
        open_content(alloc, version, content, digest, max_events)
    }

    /// The next event; None behind the last one, where no bytes are left and each agent has an event. After a fault nothing has
    /// changed.
    pub fn next(&mut self) -> Result<Option<Event>, FileFault>
        ensures { IsNext result self.old self.new }
    {
        let room = Vec::new(self.allocator());
        self.next_in(room)
    }

    /// Where its memory is taken from.
    fn allocator(&self) -> Global {
        match &self.records {
            Records::Events(records) => records.allocator(),
            Records::Runs(records) => records.allocator(),
        }
    }

    /// The next event as `next` hands it out, with its parents in this room. What stands in the room is let go of.
    pub fn next_in(&mut self, room: Vec<Id>) -> Result<Option<Event>, FileFault>
        ensures { IsNext result self.old self.new }
    {
        match &mut self.records {
            Records::Events(records) => records.next_in(room),
            Records::Runs(records) => records.next_in(room),
        }
    }

    /// The operation of the next event, where that is the next one of the last event's agent and has the last event as its only
    /// parent. None where the next record says something else, or can't be read, or memory is wanting, or there is none, or where
    /// what is kept of the ids doesn't tell at once that its id is new: then nothing has changed, and `next` tells more. When
    /// it is None isn't promised.
    pub fn go_on(&mut self) -> Option<Op>
        ensures some { IfSome result (λ op. GoesOnBy op self.old self.new) }
        ensures none { IfNone result (self.new ≡ self.old) }
    {
        match &mut self.records {
            Records::Events(records) => records.go_on(),
            Records::Runs(records) => records.go_on(),
        }
    }

    /// The operations of the events of a run that `next` began and that are still behind, all at once: those that so many calls of
    /// `go_on` hand out. There is one, each character is a scalar, and each index a number of 32 bits. None where no event of a run
    /// is behind, as always in a file that has a record for each event: then nothing has changed, and `next` tells
    /// more. When it is None isn't promised.
    pub fn go_on_run(&mut self) -> Option<RunOps<'a>>
        ensures all { IfSome result (λ ops. GoOnBy (ops_in (ops_as ops)) self.old self.new) }
        ensures some { IfSome result (λ ops. 0 < ops_count (ops_as ops)) }
        ensures sound { IfSome result (λ ops. CanGoOn (ops_as ops)) }
        ensures none { IfNone result (self.new ≡ self.old) }
    {
        match &mut self.records {
            Records::Events(_) => None,
            Records::Runs(records) => records.go_on_run(),
        }
    }
}

/// The version that the bytes name, if they reach so far.
pub fn version_of(b: &[u8]) -> Option<u8>
    ensures { result ≡ version_of b.now }
{
    b.get(7).copied()
}

/// A reader of what stands before the digest, the version included.
#[tactic(auto, unfolding(file_words::specs::FileVersions::content_found))]
fn open_content<'a>(
    alloc: Global,
    version: u8,
    content: &'a [u8],
    digest: &[u8],
    max_events: u32,
) -> Result<EventReader<'a>, FileFault>
    requires version { is_version version ≡ true }
    requires content { 8 ≤ length content.now }
    requires digest { length digest.now ≡ 32 }
    ensures found { MatchResult result
        (λ r. r.found ≡ content_found version max_events content.now digest.now)
        (λ fault. IsFault fault (content_found version max_events content.now digest.now)) }
    ensures few { IfOk result (λ r. r.records ≤ max_events) }
    ensures first { IfOk result (λ r. r.last ≡ None) }
{
    let found = Sha256::digest(content);
    if digest != &found[..] {
        let mut stored = [0; DIGEST_LEN];
        stored.copy_from_slice(digest);
        return Err(FileFault::BadDigest { stored, found });
    }
    match open_records(alloc, version, content, max_events) {
        Ok(records) => Ok(EventReader { records }),
        Err(stop) => Err(fault_of(stop, content.len())),
    }
}

/// The records of a version, behind the version.
fn open_records<'a>(
    alloc: Global,
    version: u8,
    content: &'a [u8],
    max_events: u32,
) -> Result<Records<'a>, Stop>
    requires version { is_version version ≡ true }
    requires content { 8 ≤ length content.now }
    ensures found { MatchResult result
        (λ r. (rest_of r).found ≡ finding_of (length content.now) (read_of_version version max_events (drop 8 content.now)))
        (λ stop. Stops stop (read_of_version version max_events (drop 8 content.now))) }
    ensures few { IfOk result (λ r. (rest_of r).records ≤ max_events) }
    ensures first { IfOk result (λ r. (rest_of r).last ≡ None) }
{
    let mut input = Input {
        left: &content[8..],
    };
    let (agents, left) = read_start(alloc, &mut input, max_events)?;
    let progress = Progress::new(alloc, agents)?;
    Ok(begin(version, progress, input, left, content.len()))
}

/// So many records of a version.
fn begin<'a>(
    version: u8,
    progress: Progress,
    input: Input<'a>,
    left: u32,
    len: usize,
) -> Records<'a>
    requires { progress.events ≡ [] }
    ensures found { (rest_of result).found ≡ finding_of len (records_of version progress.agents left input.entry.left.now) }
    ensures records { (rest_of result).records ≡ left }
    ensures last { (rest_of result).last ≡ None }
{
    if version == VERSION {
        Records::Events(EventRecords::new(progress, input, left, len))
    } else {
        Records::Runs(RunReader::new(progress, input, left, len))
    }
}

/// Reads the agents and the number of events.
fn read_start(alloc: Global, input: &mut Input, max_events: u32) -> Result<(Vec<Name>, u32), Stop>
    ensures exact { Gives (λ start. ((start.0.items, start.1), input.new.left.now)) result (read_start max_events input.old.left.now) }
    ensures distinct { IfOk result (λ start. AreDistinct name_eq start.0.items) }
    ensures few { IfOk result (λ start. start.1 ≤ max_events) }
{
    let agents = input.number()?;
    let agents = read_names(alloc, agents, input)?;
    let left = input.number()?;
    if left > max_events {
        return Err(Stop::OverLimit { count: left });
    }
    Ok((agents, left))
}
