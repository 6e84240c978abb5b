//! What the rows of a group run over: files, the journal's bytes, named bytes, and what the next run is to meet.

use crate::setting::Setting;
use crate::words::{number, numbers};
use ew_model::limits::Limits;
use ew_outside::{Calls, FileMap, MemShelf};
use sha2::{Digest, Sha256};
use std::alloc::Global;
use trial_rows::fault::Fault;
use trial_rows::words::{first_word, unescaped};

#[derive(Drop)]
pub struct World {
    pub alloc: Global,
    pub limits: Limits,
    pub shelf: MemShelf,
    pub journal: Vec<u8>,
    pub bytes: FileMap,
    pub next: Setting,
}

impl World {
    pub fn new(alloc: Global) -> World {
        World {
            alloc,
            limits: Limits::program(),
            shelf: MemShelf::new(alloc, Vec::new(alloc), Vec::new(alloc)),
            journal: Vec::new(alloc),
            bytes: FileMap::new(alloc),
            next: Setting::new(alloc),
        }
    }

    /// Begins a group: an empty shelf and an empty disk, under these limits. Named bytes stay.
    pub fn begin(&mut self, limits: Limits) {
        self.limits = limits;
        self.shelf.files = FileMap::new(self.alloc);
        self.journal = Vec::new(self.alloc);
        self.next = Setting::new(self.alloc);
    }

    /// The setting of the next run, which is made ready on the shelf too; behind it nothing is set.
    pub fn take_setting(&mut self) -> Setting {
        let mut setting = std::mem::replace(&mut self.next, Setting::new(self.alloc));
        self.shelf.calls = Calls::new(std::mem::replace(&mut setting.shelf, Vec::new(self.alloc)));
        self.shelf.landing = std::mem::replace(&mut setting.landing, Vec::new(self.alloc));
        setting
    }

    /// The bytes of this name.
    pub fn named(&self, name: &str) -> Result<&[u8], Fault> {
        self.bytes.get(name).ok_or(Fault::Unreadable)
    }

    /// Names bytes: `NAME TEXT`.
    fn name_bytes(&mut self, text: &str) -> Result<(), Fault> {
        let (name, text) = first_word(text);
        let bytes = unescaped(self.alloc, text)?;
        Ok(self.bytes.put(name, &bytes)?)
    }

    /// Puts a text so many times behind the bytes of this name, which are none at first: `NAME COUNT TEXT`.
    fn name_more(&mut self, text: &str) -> Result<(), Fault> {
        let (name, rest) = first_word(text);
        let (count, text) = first_word(rest);
        let more = unescaped(self.alloc, text)?;
        let mut bytes = match self.bytes.get(name) {
            Some(bytes) => bytes.to_vec(self.alloc)?,
            None => Vec::new(self.alloc),
        };
        for _ in 0..number(count)? {
            bytes.extend_from_slice(&more)?;
        }
        Ok(self.bytes.put(name, &bytes)?)
    }

    /// Names the first bytes of others: `NAME OF COUNT`.
    fn name_front(&mut self, text: &str) -> Result<(), Fault> {
        let (name, rest) = first_word(text);
        let (of, count) = first_word(rest);
        let front = self.named(of)?.get(..number(count)? as usize);
        let front = front.ok_or(Fault::Unreadable)?.to_vec(self.alloc)?;
        Ok(self.bytes.put(name, &front)?)
    }

    /// Names others with their digest behind them: `NAME OF`.
    fn name_sealed(&mut self, text: &str) -> Result<(), Fault> {
        let (name, of) = first_word(text);
        let mut bytes = self.named(of)?.to_vec(self.alloc)?;
        let digest = Sha256::digest(bytes.as_slice());
        bytes.extend_from_slice(&digest)?;
        Ok(self.bytes.put(name, &bytes)?)
    }

    /// Stores named bytes: `FILE NAME`.
    fn store(&mut self, text: &str) -> Result<(), Fault> {
        let (file, name) = first_word(text);
        let bytes = self.named(name)?.to_vec(self.alloc)?;
        Ok(self.shelf.files.put(file, &bytes)?)
    }

    /// Carries out a row that makes ready, and says whether it is one.
    pub fn make_ready(&mut self, row: &str) -> Result<bool, Fault> {
        let (verb, rest) = first_word(row);
        match verb {
            "bytes" => self.name_bytes(rest)?,
            "more" => self.name_more(rest)?,
            "front" => self.name_front(rest)?,
            "sealed" => self.name_sealed(rest)?,
            "file" => self.store(rest)?,
            "journal" => self.journal = self.named(rest)?.to_vec(self.alloc)?,
            _ => return self.set(verb, rest),
        }
        Ok(true)
    }

    /// Carries out a row that is about the next run, and says whether it is one.
    fn set(&mut self, verb: &str, rest: &str) -> Result<bool, Fault> {
        match verb {
            "in" => self.next.input = unescaped(self.alloc, rest)?,
            "in_bytes" => self.next.input = self.named(rest)?.to_vec(self.alloc)?,
            "fail" => self.next.fail(self.alloc, rest)?,
            "tear" => self.next.tear = number(rest)? as usize,
            "land" => self.next.landing = numbers(self.alloc, rest)?,
            "slow" => self.next.given = number(rest)? as usize,
            "room" => self.next.room = number(rest)? as usize,
            "piece" => self.next.piece = number(rest)? as usize,
            "err_piece" => self.next.err_piece = number(rest)? as usize,
            _ => return Ok(false),
        }
        Ok(true)
    }

    /// Whether the journal has these bytes: `NAME`.
    pub fn kept(&self, name: &str) -> Result<&'static str, Fault> {
        if self.journal.as_slice() == self.named(name)? {
            Ok("yes")
        } else {
            Ok("no")
        }
    }

    /// Whether a file has these bytes: `FILE NAME`.
    pub fn same(&self, text: &str) -> Result<&'static str, Fault> {
        let (file, name) = first_word(text);
        let bytes = self.named(name)?;
        Ok(match self.shelf.files.get(file) {
            None => "no file",
            Some(found) if found == bytes => "yes",
            Some(_) => "no",
        })
    }
}
