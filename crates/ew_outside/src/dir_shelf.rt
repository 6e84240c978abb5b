//! The files of the system as a shelf.
ghost use Rattle.std.specs.Prelude.{◌≡◌, ◌+◌, ◌<◌, ◌≤◌, ◌^◌, None, Ok, Err, length, take, IfOk, IfErr, IfSome, IsSomeAnd, OnOk, vec_len};
ghost use Rattle.std.specs.Io.KnownBytes.{Consumes};
ghost use Rattle.ew_outside.specs.Counts.{Asks, CountsFaults, CountsStores};
ghost use Rattle.ew_outside.specs.Files.{StoreLeaves};
ghost use Rattle.ew_outside.specs.Refusals.{CountsThen};

use crate::loaded_files::OpenedFiles;
use crate::replacing::place;
use crate::{Counter, Greatest, Shelf, ShelfFault, counted_or_starved, unless};
use std::alloc::Global;
use std::fs;
use std::fs::File;
use std::io::{ErrorKind, Read};
use std::rt::Files;

/// The most bytes that are read at a time.
const PIECE: usize = 65_536;

/// Files by their paths, as the system reads these from the working directory. It tells nothing of what they hold.
///
/// A store replaces the file that this shelf last loaded under the name, and no other. The file has to lie there still, with the
/// device, the number, the length and the time of its last change that it had when it was opened. Where nothing was there to load,
/// nothing may lie there. Otherwise the store is a fault, and changes nothing. A load serves one store. So of two programs that load
/// one file and store it, one has to load again.
///
/// The new file has the owner, the group and the rights of the old one. A symbolic link stays, and the file that it leads to is
/// replaced. Nothing but a file is replaced: no folder, pipe or device.
///
/// Proved are the counts, which follow what the system answers (`counted`), what is read of a file that was opened and what is left of
/// it (`front_of`, `read_front`), what a new file is filled with (`fill`), and how many bytes were (`filled`). All else
/// that is said here is tested, over files of the system. What isn't seen: a program that takes no lock and writes to the file while
/// it is being replaced, or writes as many bytes in the same tick of the system's clock as the change before. Access lists aren't
/// kept, nor other names of the old file, which keep the old bytes.
#[derive(Drop)]
pub struct DirShelf<R> {
    system: R,
    alloc: Global,
    opened: OpenedFiles,
    pub faults: Counter,
    pub misses: Counter,
    pub loads: Counter,
    pub failed_loads: Counter,
    pub asked: Greatest,
    pub stores: Counter,
    /// How many bytes the last file that was stored was filled with.
    pub filled: usize,
}

impl<R: Files<File = File>> DirShelf<R> {
    pub fn new(alloc: Global, system: R) -> Self
        ensures faults { result.faults ≡ 0 }
        ensures misses { result.misses ≡ 0 }
        ensures loads { result.loads ≡ 0 }
        ensures failed_loads { result.failed_loads ≡ 0 }
        ensures asked { result.asked ≡ 0 }
        ensures stores { result.stores ≡ 0 }
        ensures filled { result.filled ≡ 0 }
    {
        DirShelf {
            system,
            alloc,
            opened: OpenedFiles::new(alloc),
            faults: Counter::new(),
            misses: Counter::new(),
            loads: Counter::new(),
            failed_loads: Counter::new(),
            asked: Greatest::new(),
            stores: Counter::new(),
            filled: 0,
        }
    }
}

impl<R: Files<File = File>> Shelf for DirShelf<R> {
    ghost seen = { λ s. record { files = None; faults = s.faults; misses = s.misses; loads = s.loads; failed_loads = s.failed_loads; asked = s.asked; stores = s.stores } };

    /// `None` is for a file that isn't there. Whatever else the system refuses is a fault. A store stands on what was opened here.
    fn load(&mut self, name: &str, max: usize) -> Result<Option<Vec<u8>>, ShelfFault> {
        self.loads.rise();
        let opened = counted_or_starved(
            unless(ErrorKind::NotFound, fs::open(&self.system, name)),
            &mut self.faults,
        );
        let kept = remember(&mut self.opened, self.alloc, name, opened, &mut self.faults);
        match front_of(self.alloc, kept, max, &mut self.asked, &mut self.faults) {
            Ok(Some(bytes)) => Ok(Some(bytes)),
            Ok(None) => {
                self.misses.rise();
                Ok(None)
            }
            Err(ShelfFault::OutOfMemory) => Err(ShelfFault::OutOfMemory),
            Err(ShelfFault::Failed) => {
                self.failed_loads.rise();
                Err(ShelfFault::Failed)
            }
        }
    }

    /// Writes a new file beside the old one, syncs it and gives it the old one's name, so no reader sees a part of it. A fault where
    /// another file lies there than the one that was loaded.
    fn store(&mut self, name: &str, bytes: &[u8]) -> Result<(), ShelfFault>
        ensures left { StoreLeaves None None name.now bytes.now result }
        ensures cause { CountsFaults self.old.faults self.new.faults result }
        ensures misses { self.new.misses ≡ self.old.misses }
        ensures loads { self.new.loads ≡ self.old.loads }
        ensures failed_loads { self.new.failed_loads ≡ self.old.failed_loads }
        ensures asked { self.new.asked ≡ self.old.asked }
        ensures stores { CountsStores self.old.stores self.new.stores result }
        ensures filled { OnOk result (self.new.filled ≡ length bytes.now) }
    {
        let opened = self.opened.take(name);
        match place(
            &self.system,
            self.alloc,
            opened,
            name,
            bytes,
            &mut self.faults,
        ) {
            Ok(filled) => {
                self.stores.rise();
                self.filled = filled;
                Ok(())
            }
            Err(ShelfFault::OutOfMemory) => Err(ShelfFault::OutOfMemory),
            Err(ShelfFault::Failed) => {
                self.stores.rise();
                Err(ShelfFault::Failed)
            }
        }
    }
}

// Keeps the file that was opened under this name: it is the one that a store may replace. Where none was opened, none is kept.
fn remember(
    remembered: &mut OpenedFiles,
    alloc: Global,
    name: &str,
    opened: Result<Option<File>, ShelfFault>,
    faults: &mut Counter,
) -> Result<Option<File>, ShelfFault>
    ensures kept { IfOk result (λ file. opened ≡ Ok file) }
    ensures missing { opened ≡ Ok None → result ≡ Ok None }
    ensures refused { IfErr opened (λ fault. result ≡ Err fault) }
    ensures cause { CountsThen opened faults.old faults.new result }
{
    let _ = remembered.take(name);
    let Some(file) = opened? else {
        return Ok(None);
    };
    remembered.keep(alloc, name, &file, faults)?;
    Ok(Some(file))
}

// What is loaded of a file that was opened: its first `max + 1` bytes, or all where there are fewer. Nothing where it isn't
// there; a fault where it was refused. So many bytes are asked for, whatever comes of it.
fn front_of<F: Read + Drop>(
    alloc: Global,
    opened: Result<Option<F>, ShelfFault>,
    max: usize,
    asked: &mut Greatest,
    faults: &mut Counter,
) -> Result<Option<Vec<u8>>, ShelfFault>
    requires { max < 2 ^ 62 }
    ensures most { IfOk result (λ found. IfSome found (λ v. vec_len v ≤ max + 1)) }
    ensures opened { IfOk opened (λ file. IfSome file (λ f. IfOk result (λ found. IsSomeAnd found (λ v. IfSome (F.remaining f) (λ xs. v.items ≡ take (max + 1) xs))))) }
    ensures missing { opened ≡ Ok None → result ≡ Ok None }
    ensures refused { IfErr opened (λ fault. result ≡ Err fault) }
    ensures asked { Asks max asked.old asked.new }
    ensures cause { CountsThen opened faults.old faults.new result }
{
    asked.reach(max);
    match opened? {
        Some(mut file) => Ok(Some(read_front(alloc, &mut file, max, faults)?)),
        None => Ok(None),
    }
}

// The first `max + 1` bytes, or all where there are fewer. No more are read: the others are left. A read that was interrupted is tried
// again.
fn read_front<F: Read>(
    alloc: Global,
    file: &mut F,
    max: usize,
    faults: &mut Counter,
) -> Result<Vec<u8>, ShelfFault>
    requires { max < 2 ^ 62 }
    ensures most { IfOk result (λ v. vec_len v ≤ max + 1) }
    ensures bytes { IfOk result (λ v. IfSome (F.remaining file.old) (λ xs. v.items ≡ take (max + 1) xs)) }
    ensures left { IfOk result (λ v. Consumes (F.remaining file.old) (F.remaining file.new) v.items) }
    ensures cause { CountsFaults faults.old faults.new result }
{
    let mut bytes = Vec::new(alloc);
    let mut buffer = [0u8; PIECE];
    let mut tries = 1_000_000u32;
    'pieces: while bytes.len() <= max {
        let room = (max + 1 - bytes.len()).min(PIECE);
        match counted_or_starved(
            unless(ErrorKind::Interrupted, file.read(&mut buffer[..room])),
            faults,
        )? {
            Some(0) => return Ok(bytes),
            Some(count) => bytes.extend_from_slice(&buffer[..count])?,
            None => {
                if tries == 0 {
                    faults.rise();
                    return Err(ShelfFault::Failed);
                }
                tries -= 1;
            }
        }
    }
    Ok(bytes)
}
