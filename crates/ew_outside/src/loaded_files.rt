//! The files that a shelf has opened, for the stores that follow.

ghost use Rattle.std.specs.Prelude.{◌≡◌, [], IfSome, string_bytes};
ghost use Rattle.ew_outside.specs.Counts.{CountsFaults};

use crate::{Counter, ShelfFault, counted_or_starved};
use std::alloc::Global;
use std::fs::{File, Metadata, OpenFile};
use std::os::unix::fs::MetadataExt;

/// A file as it was when it was opened: its device and its number there, its length, and when it was last written.
#[derive(Clone, Copy, Debug, PartialEq, Eq)]
struct Stamp {
    device: u64,
    number: u64,
    length: u64,
    seconds: i64,
    nanoseconds: i64,
}

impl Stamp {
    fn of(found: &Metadata) -> Stamp {
        Stamp {
            device: found.dev(),
            number: found.ino(),
            length: found.len(),
            seconds: found.mtime(),
            nanoseconds: found.mtime_nsec(),
        }
    }
}

/// A file that was opened under this name. It is held open, so that the system gives its number to no other file.
#[derive(Drop)]
pub struct OpenedFile {
    name: String,
    held: File,
    stamp: Stamp,
}

impl OpenedFile {
    /// Whether what the system found is this file, as it was when it was opened.
    pub(crate) fn is_still(&self, found: &Metadata) -> bool {
        Stamp::of(found) == self.stamp
    }
}

/// The files that were opened, at most one of each name.
#[derive(Drop)]
pub struct OpenedFiles {
    files: Vec<OpenedFile>,
}

impl OpenedFiles {
    /// No files.
    pub fn new(alloc: Global) -> OpenedFiles
        ensures { result.files.items ≡ [] }
    {
        OpenedFiles {
            files: Vec::new(alloc),
        }
    }

    /// Keeps a file that was opened under this name. What is no file, as a pipe, isn't kept.
    pub(crate) fn keep(
        &mut self,
        alloc: Global,
        name: &str,
        file: &File,
        faults: &mut Counter,
    ) -> Result<(), ShelfFault>
        ensures cause { CountsFaults faults.old faults.new result }
    {
        let found = counted_or_starved(file.metadata(), faults)?;
        if found.is_file() {
            let name = String::from_str(alloc, name)?;
            // The copy never takes the number of a standard stream that was closed.
            let held = counted_or_starved(file.try_clone(), faults)?;
            let stamp = Stamp::of(&found);
            self.files.push(OpenedFile { name, held, stamp })?;
        }
        Ok(())
    }

    /// Gives the file of this name away.
    pub fn take(&mut self, name: &str) -> Option<OpenedFile>
        ensures named { IfSome result (λ file. string_bytes file.name ≡ name.now) }
    {
        let at = self
            .files
            .iter()
            .position(|file| file.name.as_str() == name)?;
        Some(self.files.swap_remove(at))
    }
}
