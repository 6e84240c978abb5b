//! A sink in memory that fails only where no room is left.
ghost use Rattle.std.specs.Prelude.{◌≡◌, ◌<◌, ◌-◌, ◌↔◌, [], Some, length, min, IsOk, IsErr, IfOk, OnOk, OnErr};
ghost use Rattle.ew_outside.specs.Counts.{Counts};
ghost use Rattle.ew_outside.specs.Bytes.{WriteTakes, IsFlushed};

use crate::{BoundedBytes, Counter, Failed, Sink};
use std::alloc::{AllocError, Global};

/// Bytes in memory, within a room. Exactly the writes that find no room left fail.
#[derive(Debug, Drop)]
pub struct SureSink {
    pub bytes: BoundedBytes,
    pub faults: Counter,
}

impl SureSink {
    /// Takes all memory that it will need.
    pub fn new(alloc: Global, room: usize) -> Result<SureSink, AllocError>
        ensures bytes { IfOk result (λ s. s.bytes ≡ record { taken = []; flushed = 0; room = room }) }
        ensures faults { IfOk result (λ s. s.faults ≡ 0) }
    {
        Ok(SureSink {
            bytes: BoundedBytes::new(alloc, room)?,
            faults: Counter::new(),
        })
    }
}

impl Sink for SureSink {
    ghost seen = { λ s. record { taken = Some s.bytes.taken; flushed = Some s.bytes.flushed; faults = s.faults } };

    fn write(&mut self, piece: &[u8]) -> Result<usize, Failed>
        ensures bytes { WriteTakes (Some self.old.bytes.taken) (Some self.new.bytes.taken) result piece.now }
        ensures flushed { Some self.new.bytes.flushed ≡ Some self.old.bytes.flushed }
        ensures cause { Counts self.old.faults self.new.faults result }
        ensures exactly { IsErr result ↔ ((0 < length piece.now) × (length self.old.bytes.taken ≡ self.old.bytes.room)) }
        ensures count { IfOk result (λ n. n ≡ min (length piece.now) (self.old.bytes.room - length self.old.bytes.taken)) }
        ensures room { self.new.bytes.room ≡ self.old.bytes.room }
    {
        if self.bytes.refuses(piece) {
            self.faults.rise();
            return Err(Failed);
        }
        Ok(self.bytes.take(piece))
    }

    fn flush(&mut self) -> Result<(), Failed>
        ensures bytes { Some self.new.bytes.taken ≡ Some self.old.bytes.taken }
        ensures ok { OnOk result (IsFlushed (Some self.new.bytes.taken) (Some self.new.bytes.flushed)) }
        ensures err { OnErr result (Some self.new.bytes.flushed ≡ Some self.old.bytes.flushed) }
        ensures cause { Counts self.old.faults self.new.faults result }
        ensures sure { IsOk result }
        ensures room { self.new.bytes.room ≡ self.old.bytes.room }
    {
        self.bytes.flush();
        Ok(())
    }
}
