//! A sink that takes a few bytes at a time.
ghost use Rattle.std.specs.Prelude.{Some};

use ew_model::NoMem;
use ew_outside::{Failed, MemSink, Sink};
use std::alloc::Global;

/// For how many bytes there is room in an output at most.
pub const ROOM: usize = 100_000;

/// Takes at most `piece` bytes at a time, and at least one.
#[derive(Drop)]
pub struct Narrow {
    pub sink: MemSink,
    piece: usize,
}

impl Narrow {
    /// Room for at most `ROOM` bytes.
    pub fn new(
        alloc: Global,
        room: usize,
        piece: usize,
        failing: Vec<u64>,
    ) -> Result<Narrow, NoMem> {
        Ok(Narrow {
            sink: MemSink::new(alloc, room.min(ROOM), failing)?,
            piece,
        })
    }
}

impl Sink for Narrow {
    ghost seen = { λ s. record { taken = Some s.sink.bytes.taken; flushed = Some s.sink.bytes.flushed; faults = s.sink.calls.faults } };

    fn write(&mut self, piece: &[u8]) -> Result<usize, Failed> {
        let count = piece.len().min(self.piece.max(1));
        self.sink.write(&piece[..count])
    }

    fn flush(&mut self) -> Result<(), Failed> {
        self.sink.flush()
    }
}
