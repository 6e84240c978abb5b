//! Where bytes come from.
ghost use Rattle.std.specs.Prelude.{length};
ghost use Rattle.ew_outside.specs.Counts.{Counts, CountsEnds};
ghost use Rattle.ew_outside.specs.Bytes.{ReadTakes};
ghost use Rattle.ew_outside.specs.Seen.{SourceSeen};

use crate::Failed;

/// Bytes that are read from the front.
pub trait Source {
    /// What is known of the source: the bytes that are left, and its counts of faults and of ends.
    ghost seen: { Self → SourceSeen };

    /// Moves bytes from the front of those left into the buffer, and says how many. 0 is the end of input, or a buffer without room.
    fn read(&mut self, buf: &mut [u8]) -> Result<usize, Failed>
        ensures bytes { ReadTakes (seen self.old).left (seen self.new).left result buf.new }
        ensures cause { Counts (seen self.old).faults (seen self.new).faults result }
        ensures ends { CountsEnds (length buf.new) (seen self.old).ends (seen self.new).ends result };
}
