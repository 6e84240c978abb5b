//! A run of a command line, and what came of it.

use crate::narrow::{Narrow, ROOM};
use crate::setting::Setting;
use crate::slow::Slow;
use crate::words::{line_words, push_escaped};
use crate::world::World;
use command_runs::start::run_uncounted;
use event_journal::{MemDisk, Tear};
use ew_model::NoMem;
use std::alloc::Global;
use std::fmt::Write;
use std::marker::Brand;
use std::sync::ledger::Blank;
use trial_rows::fault::Fault;

/// What came of a run.
#[derive(Drop)]
pub struct Ran {
    status: u8,
    disk: MemDisk,
    source: Slow,
    out: Narrow,
    err: Narrow,
}

/// Runs words over the files of the world.
fn run_over(world: &mut World, words: &[String], setting: Setting) -> Result<Ran, NoMem> {
    let Setting {
        input,
        given,
        disk,
        tear,
        source,
        out,
        err,
        room,
        piece,
        err_piece,
        ..
    } = setting;
    let mut source = Slow::new(input, given, source);
    let mut out = Narrow::new(world.alloc, room, piece, out)?;
    let mut err = Narrow::new(world.alloc, ROOM, err_piece, err)?;
    let journal = world.journal.to_vec(world.alloc)?;
    let mut disk = MemDisk::new(world.alloc, journal, disk, Tear::Front { count: tear })?;
    let status = run_uncounted::<Brand, _, _, _, _, _>(
        world.alloc,
        Blank::new(1),
        words,
        &world.limits,
        &mut world.shelf,
        &mut disk,
        &mut source,
        &mut out,
        &mut err,
    );
    world.journal = disk.bytes().to_vec(world.alloc)?;
    Ok(Ran {
        status,
        disk,
        source,
        out,
        err,
    })
}

/// Runs a command line, as a row writes it, as the rows before it made ready.
pub fn run_line(world: &mut World, line: &str) -> Result<Ran, Fault> {
    let words = line_words(world.alloc, line)?;
    let setting = world.take_setting();
    Ok(run_over(world, &words, setting)?)
}

/// A word and a text behind it, where there is a text.
fn tell(told: &mut String, word: &str, bytes: &[u8]) -> Result<(), NoMem> {
    if bytes.is_empty() {
        return Ok(());
    }
    told.push_str(word)?;
    push_escaped(told, bytes)
}

impl Ran {
    /// The status, what was printed and what was said.
    pub fn answer(&self, alloc: Global) -> Result<String, NoMem> {
        let mut told = String::new(alloc);
        let status = self.status;
        write!(told, "{status}")?;
        tell(&mut told, " out ", self.out.sink.bytes.as_slice())?;
        tell(&mut told, " err ", self.err.sink.bytes.as_slice())?;
        Ok(told)
    }

    /// The status alone.
    pub fn ended(&self, alloc: Global) -> Result<String, NoMem> {
        let status = self.status;
        format!(in alloc; "{status}")
    }

    /// Whether these bytes were printed.
    pub fn printed(&self, bytes: &[u8]) -> &'static str {
        if self.out.sink.bytes.as_slice() == bytes {
            "yes"
        } else {
            "no"
        }
    }

    /// How often each object was called, and how many bytes of the input are left.
    pub fn calls(&self, world: &World) -> Result<String, NoMem> {
        let shelf = world.shelf.calls.made();
        let disk = self.disk.made().len();
        let source = self.source.source.calls.made();
        let out = self.out.sink.calls.made();
        let err = self.err.sink.calls.made();
        let left = self.source.source.left.as_slice().len();
        format!(in world.alloc;
            "shelf {shelf} disk {disk} source {source} out {out} err {err} left {left}"
        )
    }

    /// How many bytes of the output are flushed.
    pub fn flushed(&self, alloc: Global) -> Result<String, NoMem> {
        let flushed = self.out.sink.bytes.flushed();
        format!(in alloc; "{flushed}")
    }
}
