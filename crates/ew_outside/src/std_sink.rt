//! A writer of std as a sink.
ghost use Rattle.std.specs.Prelude.{◌≡◌, None};
ghost use Rattle.std.specs.Io.KnownBytes.{Keeps};
ghost use Rattle.ew_outside.specs.Counts.{Counts};
ghost use Rattle.ew_outside.specs.Bytes.{WriteTakes};

use crate::{Counter, Failed, Sink, counted};
use std::io::Write;

/// A writer, as standard output or a file. It tells nothing of what was taken, but passes on what it is given.
#[derive(Debug, Drop)]
pub struct StdSink<W> {
    pub writer: W,
    pub faults: Counter,
}

impl<W: Write> StdSink<W> {
    pub fn new(writer: W) -> Self
        ensures writer { result.writer ≡ writer }
        ensures faults { result.faults ≡ 0 }
    {
        StdSink {
            writer,
            faults: Counter::new(),
        }
    }
}

impl<W: Write> Sink for StdSink<W> {
    ghost seen = { λ s. record { taken = None; flushed = None; faults = s.faults } };

    /// A writer that takes none of the bytes that it is given has failed.
    fn write(&mut self, piece: &[u8]) -> Result<usize, Failed>
        ensures bytes { WriteTakes None None result piece.now }
        ensures cause { Counts self.old.faults self.new.faults result }
        ensures passed { WriteTakes (W.contents self.old.writer) (W.contents self.new.writer) result piece.now }
    {
        let count = counted(self.writer.write(piece), &mut self.faults)?;
        if count == 0 && !piece.is_empty() {
            self.faults.rise();
            return Err(Failed);
        }
        Ok(count)
    }

    fn flush(&mut self) -> Result<(), Failed>
        ensures cause { Counts self.old.faults self.new.faults result }
        ensures passed { Keeps (W.contents self.old.writer) (W.contents self.new.writer) }
    {
        counted(self.writer.flush(), &mut self.faults)
    }
}
