//! A reader of std as a source.
ghost use Rattle.std.specs.Prelude.{◌≡◌, None, length};
ghost use Rattle.ew_outside.specs.Counts.{Counts, CountsEnds};
ghost use Rattle.ew_outside.specs.Bytes.{ReadTakes};

use crate::{Counter, Failed, Source, counted};
use std::io::Read;

/// A reader, as standard input or a file. It tells nothing of what is left, but passes on what its reader gives.
#[derive(Debug, Drop)]
pub struct StdSource<R> {
    pub reader: R,
    pub faults: Counter,
    pub ends: Counter,
}

impl<R: Read> StdSource<R> {
    pub fn new(reader: R) -> Self
        ensures reader { result.reader ≡ reader }
        ensures faults { result.faults ≡ 0 }
        ensures ends { result.ends ≡ 0 }
    {
        StdSource {
            reader,
            faults: Counter::new(),
            ends: Counter::new(),
        }
    }
}

impl<R: Read> Source for StdSource<R> {
    ghost seen = { λ s. record { left = None; faults = s.faults; ends = s.ends } };

    fn read(&mut self, buf: &mut [u8]) -> Result<usize, Failed>
        ensures bytes { ReadTakes None None result buf.new }
        ensures cause { Counts self.old.faults self.new.faults result }
        ensures ends { CountsEnds (length buf.new) self.old.ends self.new.ends result }
        ensures passed { ReadTakes (R.remaining self.old.reader) (R.remaining self.new.reader) result buf.new }
    {
        let count = counted(self.reader.read(buf), &mut self.faults)?;
        if count == 0 && !buf.is_empty() {
            self.ends.rise();
        }
        Ok(count)
    }
}
