//! The events of a file's bytes, given one after another to be loaded.
ghost use Rattle.std.specs.Prelude.{◌≡◌, ◌≤◌, ◌+◌, true, List, [], ◌∷◌, ◌++◌, length, IfOk, IfErr, OnOk};
ghost use Rattle.std.specs.List.{AllByRecursion};
ghost use Rattle.ew_model.specs.declared.event.Event.{Event};
ghost use Rattle.file_words.specs.FileFaults.{FileFinding, is_scalar};
ghost use Rattle.file_words.specs.FileRuns.{ops_count, ops_in};
ghost use Rattle.file_words.specs.FileVersions.{file_found};
ghost use Rattle.event_file.specs.Faults.{IsFault};
ghost use Rattle.event_file.specs.OpenRuns.{CanGoOn};
ghost use Rattle.event_file.specs.Runs.{numbers_in, ops_as};
ghost use Rattle.event_graph.specs.GoingOn.{chain_behind};
ghost use Rattle.replica.specs.Giving.{WereGiven};
ghost use Rattle.stored_histories.specs.Giving.{HasGivenLast, HoldsFile};

use event_file::{EventReader, FileFault, RunOps};
use ew_model::NoMem;
use ew_model::event::Op;
use ew_model::limits::Limits;
use replica::Loading;
use std::alloc::Global;

/// Takes in the events of the bytes, as they are read. Nothing holds them all as a list.
pub fn give_events(alloc: Global, bytes: &[u8], limits: &Limits) -> Result<Loading, FileFault>
    ensures given { IfOk result (HoldsFile (file_found limits.now.events bytes.now)) }
    ensures limits { IfOk result (λ l. l.limits ≡ limits.now) }
    ensures fault { IfErr result (λ fault. IsFault fault (file_found limits.now.events bytes.now)) }
{
    let mut reader = EventReader::new(alloc, bytes, limits.events())?;
    let mut given = Loading::new(alloc, *limits)?;
    let mut room = Vec::new(alloc);
    let mut characters = Vec::new(alloc);
    while let Some(event) = reader.next_in(room)? {
        given.push(&event)?;
        give_behind(&mut reader, &mut given, &mut characters)?;
        room = event.parents.into_vec();
    }
    Ok(given)
}

/// Takes in the next events of a file, as far as each goes on from the one that was given before it. What stands in the room is let
/// go of.
fn give_behind(
    reader: &mut EventReader,
    given: &mut Loading,
    room: &mut Vec<char>,
) -> Result<(), NoMem>
    requires given { (found : FileFinding) × HasGivenLast found given.old reader.old given.old.limits.events }
    ensures given { OnOk result ((found : FileFinding) → HasGivenLast found given.old reader.old given.old.limits.events → HasGivenLast found given.new reader.new given.old.limits.events) }
    ensures limits { given.new.limits ≡ given.old.limits }
    ensures fewer { reader.new.records ≤ reader.old.records }
{
    give_run(reader, given, room)?;
    give_singly(reader, given)
}

/// The same of the events of a run, all at once, where some are still behind.
fn give_run(
    reader: &mut EventReader,
    given: &mut Loading,
    room: &mut Vec<char>,
) -> Result<(), NoMem>
    requires given { (found : FileFinding) × HasGivenLast found given.old reader.old given.old.limits.events }
    ensures given { OnOk result ((found : FileFinding) → HasGivenLast found given.old reader.old given.old.limits.events → HasGivenLast found given.new reader.new given.old.limits.events) }
    ensures limits { given.new.limits ≡ given.old.limits }
    ensures fewer { reader.new.records ≤ reader.old.records }
{
    match reader.go_on_run() {
        Some(ops) => give_ops(ops, given, room),
        None => Ok(()),
    }
}

/// The same one by one.
fn give_singly(reader: &mut EventReader, given: &mut Loading) -> Result<(), NoMem>
    requires given { (found : FileFinding) × HasGivenLast found given.old reader.old given.old.limits.events }
    ensures given { OnOk result ((found : FileFinding) → HasGivenLast found given.old reader.old given.old.limits.events → HasGivenLast found given.new reader.new given.old.limits.events) }
    ensures limits { given.new.limits ≡ given.old.limits }
    ensures fewer { reader.new.records ≤ reader.old.records }
{
    while let Some(op) = reader.go_on() {
        given.go_on(op)?;
    }
    Ok(())
}

/// Takes in the events of these operations, of which the first goes on from the event given last, each further one from the event
/// before it.
fn give_ops(ops: RunOps, given: &mut Loading, room: &mut Vec<char>) -> Result<(), NoMem>
    requires sound { CanGoOn (ops_as ops) }
    requires room { length given.old.admitted + ops_count (ops_as ops) ≤ given.old.limits.events }
    ensures given { OnOk result ((events : List Event) (e : Event) → WereGiven (events ++ e ∷ []) given.old → WereGiven ((events ++ e ∷ []) ++ chain_behind e.id (ops_in (ops_as ops.entry))) given.new) }
    ensures limits { given.new.limits ≡ given.old.limits }
{
    match ops {
        RunOps::Insertions { at, text } => {
            read_characters(text, room)?;
            given.go_on_run(event_runs::RunOps::Insertions {
                at,
                text: room.as_slice(),
            })
        }
        RunOps::Deletions { at, count } => {
            given.go_on_run(event_runs::RunOps::Deletions { at, count })
        }
        RunOps::BackDeletions { at, count } => {
            given.go_on_run(event_runs::RunOps::BackDeletions { at, count })
        }
        RunOps::Mark { label } => given.go_on(Op::Mark { label }),
    }
}

/// Puts the characters into the room. Each has four bytes, the lowest first.
fn read_characters(text: &[u8], room: &mut Vec<char>) -> Result<(), NoMem>
    requires { AllByRecursion (λ ch. is_scalar ch ≡ true) (numbers_in text.now) }
    ensures { OnOk result (room.new.items ≡ numbers_in text.now) }
{
    room.clear();
    room.reserve(text.len() / 4)?;
    let mut left = text;
    while let [a, b, c, d, later @ ..] = left {
        let Some(ch) = char::from_u32(u32::from_le_bytes([*a, *b, *c, *d])) else {
            unreachable!()
        };
        room.push(ch)?;
        left = later;
    }
    Ok(())
}
