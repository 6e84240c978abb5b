//! A source that gives a few bytes at a time.
ghost use Rattle.std.specs.Prelude.{Some};

use ew_outside::{Failed, MemSource, Source};

/// Gives at most `piece` bytes at a time, and at least one where any is left.
#[derive(Drop)]
pub struct Slow {
    pub source: MemSource,
    piece: usize,
}

impl Slow {
    pub fn new(input: Vec<u8>, piece: usize, failing: Vec<u64>) -> Slow {
        Slow {
            source: MemSource::new(input, failing),
            piece,
        }
    }
}

impl Source for Slow {
    ghost seen = { λ s. record { left = Some s.source.left; faults = s.source.calls.faults; ends = s.source.ends } };

    fn read(&mut self, buf: &mut [u8]) -> Result<usize, Failed> {
        let count = buf.len().min(self.piece.max(1));
        self.source.read(&mut buf[..count])
    }
}
