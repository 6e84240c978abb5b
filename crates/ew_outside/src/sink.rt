//! Where bytes go to.
ghost use Rattle.std.specs.Prelude.{◌≡◌, OnOk, OnErr};
ghost use Rattle.ew_outside.specs.Counts.{Counts};
ghost use Rattle.ew_outside.specs.Bytes.{WriteTakes, IsFlushed};
ghost use Rattle.ew_outside.specs.Seen.{SinkSeen};

use crate::Failed;

/// Bytes that are written at the end.
pub trait Sink {
    /// What is known of the sink: the bytes that were taken, how many of them are flushed, and its count of faults.
    ghost seen: { Self → SinkSeen };

    /// Takes bytes from the front of the piece, and says how many. 0 means that the piece is empty.
    fn write(&mut self, piece: &[u8]) -> Result<usize, Failed>
        ensures bytes { WriteTakes (seen self.old).taken (seen self.new).taken result piece.now }
        ensures flushed { (seen self.new).flushed ≡ (seen self.old).flushed }
        ensures cause { Counts (seen self.old).faults (seen self.new).faults result };

    /// Passes on all bytes that were taken.
    fn flush(&mut self) -> Result<(), Failed>
        ensures bytes { (seen self.new).taken ≡ (seen self.old).taken }
        ensures ok { OnOk result (IsFlushed (seen self.new).taken (seen self.new).flushed) }
        ensures err { OnErr result ((seen self.new).flushed ≡ (seen self.old).flushed) }
        ensures cause { Counts (seen self.old).faults (seen self.new).faults result };
}
