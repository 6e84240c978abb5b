//! What the rows before a run make ready for it.

use crate::narrow::ROOM;
use crate::words::numbers;
use std::alloc::Global;
use trial_rows::fault::Fault;
use trial_rows::words::first_word;

/// The input of a run and how many bytes it gives at a time, the numbers of the calls that fail, of the stores that land though they
/// fail, how many bytes land of a write to the disk that fails, for how many bytes the output has room, and how many bytes each output takes at a time.
#[derive(Drop)]
pub struct Setting {
    pub input: Vec<u8>,
    pub given: usize,
    pub shelf: Vec<u64>,
    pub landing: Vec<u64>,
    pub disk: Vec<u64>,
    pub tear: usize,
    pub source: Vec<u64>,
    pub out: Vec<u64>,
    pub err: Vec<u64>,
    pub room: usize,
    pub piece: usize,
    pub err_piece: usize,
}

impl Setting {
    /// No input, and no call fails.
    pub fn new(alloc: Global) -> Setting {
        Setting {
            input: Vec::new(alloc),
            given: usize::MAX,
            shelf: Vec::new(alloc),
            landing: Vec::new(alloc),
            disk: Vec::new(alloc),
            tear: 0,
            source: Vec::new(alloc),
            out: Vec::new(alloc),
            err: Vec::new(alloc),
            room: ROOM,
            piece: usize::MAX,
            err_piece: usize::MAX,
        }
    }

    /// The numbers behind the name of an object are those of its calls that fail.
    pub fn fail(&mut self, alloc: Global, text: &str) -> Result<(), Fault> {
        let (object, calls) = first_word(text);
        let calls = numbers(alloc, calls)?;
        match object {
            "shelf" => self.shelf = calls,
            "disk" => self.disk = calls,
            "source" => self.source = calls,
            "out" => self.out = calls,
            "err" => self.err = calls,
            _ => return Err(Fault::Unreadable),
        }
        Ok(())
    }
}
