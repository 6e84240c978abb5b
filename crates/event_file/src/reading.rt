//! Reading an event file as a whole.

ghost use Rattle.std.specs.Prelude.{◌≡◌, ◌⊎◌, List, IfOk, MatchResult};
ghost use Rattle.ew_model.specs.declared.event.Event.{Event};
ghost use Rattle.file_words.specs.FileLaws.{IsFileOf};
ghost use Rattle.file_words.specs.FileVersionLaws.{IsRunFileOf};
ghost use Rattle.file_words.specs.FileVersions.{file_found};
ghost use Rattle.event_file.specs.declared.fault.FileFault.TheVariants.{OutOfMemory};
ghost use Rattle.event_file.specs.Faults.{IsFound};

use crate::fault::FileFault;
use crate::reader::EventReader;
use ew_model::event::Event;
use std::alloc::Global;

/// The events of an event file, or the first fault of bytes that are no file of at most `max_events` events.
pub fn decode(alloc: Global, b: &[u8], max_events: u32) -> Result<Vec<Event>, FileFault>
    // The bytes are the file of what is read, of one of the versions.
    ensures file { IfOk result (λ events. IsFileOf max_events events.items b.now ⊎ IsRunFileOf max_events events.items b.now) }
    // A file of either version is read, unless memory runs out.
    ensures only { (events : List Event) → IsFileOf max_events events b.now ⊎ IsRunFileOf max_events events b.now
        → MatchResult result (λ read. read.items ≡ events) (λ fault. fault ≡ OutOfMemory) }
    // Which fault it is.
    ensures exact { IsFound result (file_found max_events b.now) }
{
    find_events(alloc, b, max_events)
}

fn find_events(alloc: Global, b: &[u8], max_events: u32) -> Result<Vec<Event>, FileFault>
    ensures { IsFound result (file_found max_events b.now) }
{
    let reader = EventReader::new(alloc, b, max_events)?;
    read_rest(alloc, reader)
}

/// All events that are still to come.
fn read_rest(alloc: Global, mut reader: EventReader) -> Result<Vec<Event>, FileFault>
    ensures { IsFound result reader.entry.found }
{
    let mut events = Vec::new(alloc);
    while let Some(event) = reader.next()? {
        events.reserve(1)?;
        events.push_reserved(event);
    }
    Ok(events)
}
