//! A file of the system as a disk.

ghost use Rattle.std.specs.Prelude.{◌≡◌, ⊤, ℕ, List, Option, None, Ok, IfOk};
ghost use Rattle.ew_outside.specs.Counts.{Counts};
ghost use Rattle.event_journal.specs.Disk.{ReadGives};

use crate::disk::Disk;
use ew_outside::{Counter, Failed, counted, unless};
use std::fs::{File, OpenFile};
use std::io::ErrorKind;
use std::os::unix::fs::FileExt;
use std::rt::Files;
use std::{fs, io};

/// How often a call that was interrupted is tried again.
const TRIES: u32 = 1_000_000;

/// A file by its path, opened at the first call, and made where it isn't there. It is locked as long as it is open, so that no other
/// program with a `FileDisk` writes to it. After a sync that failed every call fails, since nobody knows what the system kept.
///
/// It tells nothing of its bytes, so nothing is proved of them, nor of what a crash leaves: that is the system's to keep. Proved is that
/// a call which the system refuses is counted and answered so (`counted`), and what a read gives of bytes that are known (`read_once`).
#[derive(Drop)]
pub struct FileDisk<R> {
    system: R,
    path: String,
    file: Option<File>,
    has_lost: bool,
    faults: Counter,
}

impl<R: Files<File = File>> FileDisk<R> {
    /// The path is read as the system reads it from the working directory.
    pub fn new(system: R, path: String) -> Self
        ensures { result.faults ≡ 0 }
    {
        FileDisk {
            system,
            path,
            file: None,
            has_lost: false,
            faults: Counter::new(),
        }
    }

    /// How many calls failed.
    pub fn faults(&self) -> u64
        ensures { result ≡ self.now.faults }
    {
        self.faults.get()
    }
}

impl<R: Files<File = File>> Disk for FileDisk<R> {
    ghost seen = { λ d. record { bytes = None; faults = d.faults } };

    ghost may_leave = { λ d c. ⊤ };

    ghost moment = { λ d. 0 };

    ghost left_since = { λ d t c. ⊤ };

    ghost reads_one = { λ d. tt };

    ghost counts_now = { λ d t c le now. tt };

    ghost only_now = { λ d c left. tt };

    fn len(&mut self) -> Result<u64, Failed> {
        length_of(
            &self.system,
            &self.path,
            &mut self.file,
            self.has_lost,
            &mut self.faults,
        )
    }

    fn read(&mut self, at: u64, buf: &mut [u8]) -> Result<usize, Failed> {
        read_from(
            &self.system,
            &self.path,
            &mut self.file,
            self.has_lost,
            at,
            buf,
            &mut self.faults,
        )
    }

    fn write_at(&mut self, at: u64, bytes: &[u8]) -> Result<(), Failed> {
        write_to(
            &self.system,
            &self.path,
            &mut self.file,
            self.has_lost,
            at,
            bytes,
            &mut self.faults,
        )
    }

    fn sync(&mut self) -> Result<(), Failed> {
        let synced = sync_file(
            &self.system,
            &self.path,
            &mut self.file,
            self.has_lost,
            &mut self.faults,
        );
        if synced.is_err() {
            self.has_lost = true;
        }
        synced
    }
}

/// The file, opened where it isn't. None after a sync that failed.
fn ready<'a, R: Files<File = File>>(
    system: &R,
    path: &str,
    file: &'a mut Option<File>,
    has_lost: bool,
    faults: &mut Counter,
) -> Result<&'a File, Failed>
    ensures cause { Counts faults.old faults.new result }
{
    if has_lost {
        faults.rise();
        return Err(Failed);
    }
    open_first(system, path, file, faults)?;
    match file {
        Some(opened) => Ok(opened),
        None => {
            faults.rise();
            Err(Failed)
        }
    }
}

/// Opens the file, where it isn't open.
fn open_first<R: Files<File = File>>(
    system: &R,
    path: &str,
    file: &mut Option<File>,
    faults: &mut Counter,
) -> Result<(), Failed>
    ensures cause { Counts faults.old faults.new result }
{
    if file.is_some() {
        return Ok(());
    }
    *file = Some(open_and_lock(system, path, faults)?);
    Ok(())
}

/// Opens the file, makes it where it isn't there, locks it, and has the system keep its name.
fn open_and_lock<R: Files<File = File>>(
    system: &R,
    path: &str,
    faults: &mut Counter,
) -> Result<File, Failed>
    ensures cause { Counts faults.old faults.new result }
{
    let file = counted(
        File::options()
            .read(true)
            .write(true)
            .create(true)
            .open(system, path),
        faults,
    )?;
    counted(file.try_lock(), faults)?;
    let folder = match path.rsplit_once('/') {
        Some(("", _)) => "/",
        Some((folder, _)) => folder,
        None => ".",
    };
    let folder = counted(fs::open(system, folder), faults)?;
    counted(folder.sync_all(), faults)?;
    Ok(file)
}

fn length_of<R: Files<File = File>>(
    system: &R,
    path: &str,
    file: &mut Option<File>,
    has_lost: bool,
    faults: &mut Counter,
) -> Result<u64, Failed>
    ensures cause { Counts faults.old faults.new result }
{
    let file = ready(system, path, file, has_lost, faults)?;
    let found = counted(file.metadata(), faults)?;
    Ok(found.len())
}

fn read_from<R: Files<File = File>>(
    system: &R,
    path: &str,
    file: &mut Option<File>,
    has_lost: bool,
    at: u64,
    buf: &mut [u8],
    faults: &mut Counter,
) -> Result<usize, Failed>
    ensures given { ReadGives None at result buf.new }
    ensures cause { Counts faults.old faults.new result }
{
    let file = ready(system, path, file, has_lost, faults)?;
    read_once(file, at, buf, faults)
}

/// Bytes that are read from a place on.
trait ReadAt {
    /// The bytes, where they are known.
    ghost held: { Self → Option (List ℕ) };

    /// Asks the system once.
    fn try_to_read(&self, at: u64, buf: &mut [u8]) -> io::Result<usize>
        ensures given { IfOk result (λ n. ReadGives (held self.now) at (Ok n) buf.new) };
}

impl ReadAt for File {
    ghost held = { λ file. None };

    fn try_to_read(&self, at: u64, buf: &mut [u8]) -> io::Result<usize> {
        self.read_at(buf, at)
    }
}

/// Reads once; a read that was interrupted is tried again.
fn read_once<F: ReadAt>(
    file: &F,
    at: u64,
    buf: &mut [u8],
    faults: &mut Counter,
) -> Result<usize, Failed>
    ensures given { ReadGives (F.held file.now) at result buf.new }
    ensures cause { Counts faults.old faults.new result }
{
    for _ in 0..TRIES {
        let answer = counted(
            unless(ErrorKind::Interrupted, file.try_to_read(at, buf)),
            faults,
        )?;
        if let Some(count) = answer {
            return Ok(count);
        }
    }
    faults.rise();
    Err(Failed)
}

fn write_to<R: Files<File = File>>(
    system: &R,
    path: &str,
    file: &mut Option<File>,
    has_lost: bool,
    at: u64,
    bytes: &[u8],
    faults: &mut Counter,
) -> Result<(), Failed>
    ensures cause { Counts faults.old faults.new result }
{
    let file = ready(system, path, file, has_lost, faults)?;
    counted(file.write_all_at(bytes, at), faults)
}

fn sync_file<R: Files<File = File>>(
    system: &R,
    path: &str,
    file: &mut Option<File>,
    has_lost: bool,
    faults: &mut Counter,
) -> Result<(), Failed>
    ensures cause { Counts faults.old faults.new result }
{
    let file = ready(system, path, file, has_lost, faults)?;
    counted(file.sync_all(), faults)
}
