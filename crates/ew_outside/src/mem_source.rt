//! A source in memory that fails where a test asks for it.
ghost use Rattle.std.specs.Prelude.{◌≡◌, ◌↔◌, Some, length, min, IsErr, IfOk, Contains, is_err};
ghost use Rattle.ew_outside.specs.Counts.{Counts, CountsEnds};
ghost use Rattle.ew_outside.specs.Bytes.{ReadTakes};
ghost use Rattle.ew_outside.specs.Memory.{after_call};

use crate::unread_bytes::give_and_count;
use crate::{Calls, Counter, Failed, Source, UnreadBytes};

/// Bytes in memory. Exactly the listed calls fail.
#[derive(Debug, Drop)]
pub struct MemSource {
    pub left: UnreadBytes,
    pub calls: Calls,
    pub ends: Counter,
}

impl MemSource {
    /// The first read has the number 0 in the list.
    pub fn new(bytes: Vec<u8>, failing: Vec<u64>) -> MemSource
        ensures left { result.left ≡ bytes.items }
        ensures calls { result.calls ≡ record { failing = failing.items; made = 0; faults = 0 } }
        ensures ends { result.ends ≡ 0 }
    {
        MemSource {
            left: UnreadBytes::new(bytes),
            calls: Calls::new(failing),
            ends: Counter::new(),
        }
    }
}

impl Source for MemSource {
    ghost seen = { λ s. record { left = Some s.left; faults = s.calls.faults; ends = s.ends } };

    fn read(&mut self, buf: &mut [u8]) -> Result<usize, Failed>
        ensures bytes { ReadTakes (Some self.old.left) (Some self.new.left) result buf.new }
        ensures cause { Counts self.old.calls.faults self.new.calls.faults result }
        ensures ends { CountsEnds (length buf.new) self.old.ends self.new.ends result }
        ensures exactly { IsErr result ↔ Contains self.old.calls.failing self.old.calls.made }
        ensures calls { self.new.calls ≡ after_call self.old.calls (is_err result) }
        ensures count { IfOk result (λ n. n ≡ min (length self.old.left) (length buf.new)) }
    {
        if self.calls.fails_next() {
            self.calls.count(true);
            return Err(Failed);
        }
        self.calls.count(false);
        Ok(give_and_count(&mut self.left, &mut self.ends, buf))
    }
}
