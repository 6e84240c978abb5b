//! The events of a file that has a record for each.

ghost use Rattle.std.specs.Prelude.{◌≡◌, [], None, IfSome, IfNone};
ghost use Rattle.event_file.specs.Rest.{rest_found, IsNext, GoesOnBy};

use crate::fault::{FileFault, fault_of};
use crate::input::Input;
use crate::progress::Progress;
use ew_model::event::{Event, Op};
use ew_model::id::Id;
use std::alloc::Global;
use std::marker::Model;

/// The events of records that are still to be read, one at a time. Contracts see what is still to come.
#[derive(Drop)]
pub(crate) struct EventRecords<'a> {
    progress: Progress,
    input: Input<'a>,
    /// How many records aren't read yet.
    left: u32,
    /// How many bytes stand before the digest.
    len: usize,
}

impl<'a> Model for EventRecords<'a> {
    ghost use Rattle.std.specs.Prelude.{◌+◌, ◌<◌, ◌^◌, length};
    ghost use Rattle.history_definitions.specs.Chains.{last_id};
    ghost use Rattle.event_file.specs.Rest.{Rest, rest_found};

    ghost Value = { Rest };

    ghost view = { λ r. record { records = r.left; found = rest_found r.progress.agents r.progress.events r.left r.len r.input.left.now; last = last_id r.progress.events } };

    ghost invariant = { λ r. length r.progress.events + r.left < 2 ^ 32 };
}

impl<'a> EventRecords<'a> {
    /// So many records, of a content that has so many bytes.
    pub(crate) fn new(
        progress: Progress,
        input: Input<'a>,
        left: u32,
        len: usize,
    ) -> EventRecords<'a>
        requires { progress.events ≡ [] }
        ensures found { result.found ≡ rest_found progress.agents progress.events left len input.entry.left.now }
        ensures records { result.records ≡ left }
        ensures last { result.last ≡ None }
    {
        EventRecords {
            progress,
            input,
            left,
            len,
        }
    }

    /// Where its memory is taken from.
    pub(crate) fn allocator(&self) -> Global {
        self.progress.allocator()
    }

    /// The next event as `EventReader::next_in` hands it out.
    pub(crate) fn next_in(&mut self, room: Vec<Id>) -> Result<Option<Event>, FileFault>
        ensures { IsNext result self.old self.new }
    {
        if self.left == 0 {
            if let Err(stop) = self.progress.end(&self.input) {
                return Err(fault_of(stop, self.len));
            }
            return Ok(None);
        }
        match self.progress.next(room, &mut self.input) {
            Ok(event) => {
                self.left -= 1;
                Ok(Some(event))
            }
            Err(stop) => Err(fault_of(stop, self.len)),
        }
    }

    /// The next operation as `EventReader::go_on` hands it out.
    pub(crate) fn go_on(&mut self) -> Option<Op>
        ensures some { IfSome result (λ op. GoesOnBy op self.old self.new) }
        ensures none { IfNone result (self.new ≡ self.old) }
    {
        if self.left == 0 {
            return None;
        }
        let op = self.progress.go_on(&mut self.input)?;
        self.left -= 1;
        Some(op)
    }
}
