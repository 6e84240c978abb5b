//! Rows of files of the system: stored, loaded, read and written through the shelf, the source and the sink over it.

use ew_model::NoMem;
use ew_outside::{DirShelf, Failed, Shelf, ShelfFault, Sink, Source, StdSink, StdSource};
use std::alloc::Global;
use std::fmt::Write;
use std::fs;
use std::io::BufWriter;
use trial_rows::fault::Fault;
use trial_rows::report::Report;
use trial_rows::show;
use trial_rows::words::{first_word, number};

/// The most bytes that a row reads at a time.
const PIECE: usize = 64;

/// Rows over a shelf of their own.
pub fn run<'a>(system: &HostRuntime, rows: &'a str, report: &mut Report<'a>) -> Result<(), Fault> {
    let mut folder = Folder::new(system, system.alloc());
    for row in rows.split('\n') {
        let asked = report.ask(row)?;
        let answer = folder.answer(asked)?;
        report.compare(answer.as_str())?;
    }
    Ok(())
}

#[derive(Drop)]
struct Folder<'a> {
    system: &'a HostRuntime,
    alloc: Global,
    shelf: DirShelf<&'a HostRuntime>,
}

/// The letters from `a` to `z`, and again from `a`.
fn letters(alloc: Global, count: u32) -> Result<Vec<u8>, NoMem> {
    let mut letters = Vec::new(alloc);
    for at in 0..count {
        letters.push(b'a' + (at % 26) as u8)?;
    }
    Ok(letters)
}

fn done(alloc: Global, is_done: bool) -> Result<String, NoMem> {
    show::text(alloc, if is_done { "done" } else { "failed" })
}

impl<'a> Folder<'a> {
    fn new(system: &'a HostRuntime, alloc: Global) -> Folder<'a> {
        Folder {
            system,
            alloc,
            shelf: DirShelf::new(alloc, system),
        }
    }

    /// The answer to what a row asks.
    fn answer(&mut self, asked: &str) -> Result<String, Fault> {
        let (verb, rest) = first_word(asked);
        match verb {
            "store" => self.store(rest),
            "store_letters" => self.store_letters(rest),
            "load" => self.load(rest),
            "load_letters" => self.load_letters(rest),
            "faults" => Ok(format!(in self.alloc; "{}", self.shelf.faults.get())?),
            "misses" => Ok(format!(in self.alloc; "{}", self.shelf.misses.get())?),
            _ => self.beside(verb, rest),
        }
    }

    /// What is asked beside the shelf.
    fn beside(&self, verb: &str, rest: &str) -> Result<String, Fault> {
        match verb {
            "folder" => Ok(done(self.alloc, fs::create_dir(self.system, rest).is_ok())?),
            "write" => self.write(rest),
            "there" => self.there(rest),
            "source" => self.source(rest),
            "sink" => self.sink(rest),
            "shut" => self.shut(rest),
            "texts" => Ok(format!(in self.alloc;
                "{Failed}; {}; {}",
                ShelfFault::Failed,
                ShelfFault::OutOfMemory
            )?),
            _ => Err(Fault::Unreadable),
        }
    }

    /// Stores a text: `PATH TEXT`.
    fn store(&mut self, rest: &str) -> Result<String, Fault> {
        let (path, text) = first_word(rest);
        Ok(done(self.alloc, self.shelf.store(path, text.as_bytes()).is_ok())?)
    }

    /// Stores so many letters: `PATH COUNT`.
    fn store_letters(&mut self, rest: &str) -> Result<String, Fault> {
        let (path, count) = first_word(rest);
        let letters = letters(self.alloc, number(count)?)?;
        Ok(done(self.alloc, self.shelf.store(path, &letters).is_ok())?)
    }

    /// Loads a text: `PATH MOST`.
    fn load(&mut self, rest: &str) -> Result<String, Fault> {
        let (path, most) = first_word(rest);
        match self.shelf.load(path, number(most)? as usize) {
            Ok(Some(bytes)) => Ok(show::bytes(self.alloc, &bytes)?),
            Ok(None) => Ok(show::text(self.alloc, "no file")?),
            Err(ShelfFault::Failed) => Ok(show::text(self.alloc, "failed")?),
            Err(ShelfFault::OutOfMemory) => Err(Fault::OutOfMemory),
        }
    }

    /// Loads letters, and says how many, or `others` where they aren't the letters in turn: `PATH MOST`.
    fn load_letters(&mut self, rest: &str) -> Result<String, Fault> {
        let (path, most) = first_word(rest);
        let Ok(Some(bytes)) = self.shelf.load(path, number(most)? as usize) else {
            return Err(Fault::Unreadable);
        };
        let count = show::count(bytes.len());
        let letters = letters(self.alloc, count)?;
        if bytes.as_slice() == letters.as_slice() {
            Ok(show::number(self.alloc, count)?)
        } else {
            Ok(show::text(self.alloc, "others")?)
        }
    }

    /// Writes a file beside the shelf: `PATH TEXT`.
    fn write(&self, rest: &str) -> Result<String, Fault> {
        let (path, text) = first_word(rest);
        Ok(done(self.alloc, fs::write(self.system, path, text).is_ok())?)
    }

    /// Whether there is such a file or folder: `PATH`.
    fn there(&self, path: &str) -> Result<String, Fault> {
        let found = fs::exists(self.system, path).ok().ok_or(Fault::Unreadable)?;
        Ok(show::yes_or_no(self.alloc, found)?)
    }

    /// Reads a file by pieces of at most so many bytes, and tells each, how it ended and how many reads failed: `PATH COUNT`.
    fn source(&self, rest: &str) -> Result<String, Fault> {
        let (path, most) = first_word(rest);
        let file = fs::open(self.system, path).ok().ok_or(Fault::Unreadable)?;
        let mut source = StdSource::new(file);
        let mut out = String::new(self.alloc);
        let mut piece = [0u8; PIECE];
        let room = (number(most)? as usize).min(PIECE);
        for _ in 0..100 {
            match source.read(&mut piece[..room]) {
                Ok(0) => break,
                Ok(count) => {
                    out.push_str(show::bytes(self.alloc, &piece[..count])?.as_str())?;
                    out.push(' ')?;
                }
                Err(Failed) => {
                    out.push_str("failed ")?;
                    break;
                }
            }
        }
        write!(out, "faults {}", source.faults.get())?;
        Ok(out)
    }

    /// Writes a text to a new file behind a buffer, and tells how many bytes were taken, and how many the file has before the
    /// buffer is flushed and after it: `PATH TEXT`.
    fn sink(&self, rest: &str) -> Result<String, Fault> {
        let (path, text) = first_word(rest);
        let file = fs::create(self.system, path).ok().ok_or(Fault::Unreadable)?;
        let buffered = BufWriter::new(self.alloc, file)
            .ok()
            .ok_or(Fault::OutOfMemory)?;
        let mut sink = StdSink::new(buffered);
        let taken = sink.write(text.as_bytes()).unwrap_or(0);
        let before = self.length(path)?;
        let flushed = done(self.alloc, sink.flush().is_ok())?;
        let after = self.length(path)?;
        Ok(format!(in self.alloc; "taken {taken} before {before} {flushed} after {after}")?)
    }

    fn length(&self, path: &str) -> Result<usize, Fault> {
        let bytes = fs::read(self.system, path).ok().ok_or(Fault::Unreadable)?;
        Ok(bytes.len())
    }

    /// Writes to a file that is open for reading alone, and tells how many writes failed: `PATH`.
    fn shut(&self, path: &str) -> Result<String, Fault> {
        let file = fs::open(self.system, path).ok().ok_or(Fault::Unreadable)?;
        let mut sink = StdSink::new(file);
        let taken = sink.write(b"abc").unwrap_or(0);
        Ok(format!(in self.alloc; "taken {taken} faults {}", sink.faults.get())?)
    }
}
