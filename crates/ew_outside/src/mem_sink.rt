//! A sink in memory that fails where a test asks for it.
ghost use Rattle.std.specs.Prelude.{◌≡◌, ◌<◌, ◌-◌, ◌⊎◌, ◌↔◌, [], Some, length, min, IsErr, IfOk, OnOk, OnErr, Contains, is_err};
ghost use Rattle.ew_outside.specs.Counts.{Counts};
ghost use Rattle.ew_outside.specs.Bytes.{WriteTakes, IsFlushed};
ghost use Rattle.ew_outside.specs.Memory.{after_call};

use crate::{BoundedBytes, Calls, Failed, Sink};
use std::alloc::{AllocError, Global};

/// Bytes in memory, within a room. Exactly the listed calls fail, and the writes that find no room left.
#[derive(Debug, Drop)]
pub struct MemSink {
    pub bytes: BoundedBytes,
    pub calls: Calls,
}

impl MemSink {
    /// Takes all memory that it will need. Writes and flushes are numbered together, from 0 on.
    pub fn new(alloc: Global, room: usize, failing: Vec<u64>) -> Result<MemSink, AllocError>
        ensures bytes { IfOk result (λ s. s.bytes ≡ record { taken = []; flushed = 0; room = room }) }
        ensures calls { IfOk result (λ s. s.calls ≡ record { failing = failing.items; made = 0; faults = 0 }) }
    {
        Ok(MemSink {
            bytes: BoundedBytes::new(alloc, room)?,
            calls: Calls::new(failing),
        })
    }
}

impl Sink for MemSink {
    ghost seen = { λ s. record { taken = Some s.bytes.taken; flushed = Some s.bytes.flushed; faults = s.calls.faults } };

    fn write(&mut self, piece: &[u8]) -> Result<usize, Failed>
        ensures bytes { WriteTakes (Some self.old.bytes.taken) (Some self.new.bytes.taken) result piece.now }
        ensures flushed { Some self.new.bytes.flushed ≡ Some self.old.bytes.flushed }
        ensures cause { Counts self.old.calls.faults self.new.calls.faults result }
        ensures exactly { IsErr result ↔ (Contains self.old.calls.failing self.old.calls.made ⊎ ((0 < length piece.now) × (length self.old.bytes.taken ≡ self.old.bytes.room))) }
        ensures calls { self.new.calls ≡ after_call self.old.calls (is_err result) }
        ensures count { IfOk result (λ n. n ≡ min (length piece.now) (self.old.bytes.room - length self.old.bytes.taken)) }
        ensures room { self.new.bytes.room ≡ self.old.bytes.room }
    {
        if self.calls.fails_next() || self.bytes.refuses(piece) {
            self.calls.count(true);
            return Err(Failed);
        }
        self.calls.count(false);
        Ok(self.bytes.take(piece))
    }

    fn flush(&mut self) -> Result<(), Failed>
        ensures bytes { Some self.new.bytes.taken ≡ Some self.old.bytes.taken }
        ensures ok { OnOk result (IsFlushed (Some self.new.bytes.taken) (Some self.new.bytes.flushed)) }
        ensures err { OnErr result (Some self.new.bytes.flushed ≡ Some self.old.bytes.flushed) }
        ensures cause { Counts self.old.calls.faults self.new.calls.faults result }
        ensures exactly { IsErr result ↔ Contains self.old.calls.failing self.old.calls.made }
        ensures calls { self.new.calls ≡ after_call self.old.calls (is_err result) }
        ensures room { self.new.bytes.room ≡ self.old.bytes.room }
    {
        if self.calls.fails_next() {
            self.calls.count(true);
            return Err(Failed);
        }
        self.calls.count(false);
        self.bytes.flush();
        Ok(())
    }
}
