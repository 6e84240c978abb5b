//! A source in memory that never fails.
ghost use Rattle.std.specs.Prelude.{◌≡◌, Some, length, min, IsOk, IfOk};
ghost use Rattle.ew_outside.specs.Counts.{Counts, CountsEnds};
ghost use Rattle.ew_outside.specs.Bytes.{ReadTakes};

use crate::unread_bytes::give_and_count;
use crate::{Counter, Failed, Source, UnreadBytes};

/// Bytes in memory.
#[derive(Debug, Drop)]
pub struct SureSource {
    pub left: UnreadBytes,
    pub ends: Counter,
}

impl SureSource {
    pub fn new(bytes: Vec<u8>) -> SureSource
        ensures left { result.left ≡ bytes.items }
        ensures ends { result.ends ≡ 0 }
    {
        SureSource {
            left: UnreadBytes::new(bytes),
            ends: Counter::new(),
        }
    }
}

impl Source for SureSource {
    ghost seen = { λ s. record { left = Some s.left; faults = 0; ends = s.ends } };

    fn read(&mut self, buf: &mut [u8]) -> Result<usize, Failed>
        ensures bytes { ReadTakes (Some self.old.left) (Some self.new.left) result buf.new }
        ensures cause { Counts 0 0 result }
        ensures ends { CountsEnds (length buf.new) self.old.ends self.new.ends result }
        ensures sure { IsOk result }
        ensures count { IfOk result (λ n. n ≡ min (length self.old.left) (length buf.new)) }
    {
        Ok(give_and_count(&mut self.left, &mut self.ends, buf))
    }
}
