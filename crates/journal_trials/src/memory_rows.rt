//! Rows of a journal on a disk in memory: its bytes and its calls, each crash, each call that fails, and bytes that were changed.

use crate::answers::Answers;
use crate::appending::append_all;
use crate::batches::Batches;
use crate::calls::tell_calls;
use event_journal::{Journal, MemDisk, OpenFault, Tear};
use std::alloc::Global;
use trial_rows::bytes::{bytes_of, changed};
use trial_rows::fault::Fault;
use trial_rows::report::Report;
use trial_rows::show;
use trial_rows::words::{first_word, number, two_numbers};

/// What stands of a write that fails, where no row says otherwise.
const NOTHING: Tear = Tear::Front { count: 0 };

/// Rows about the batches of a group.
pub fn run<'a>(
    alloc: Global,
    words: &str,
    rows: &'a str,
    report: &mut Report<'a>,
) -> Result<(), Fault> {
    let batches = Batches::read(alloc, words)?;
    for row in rows.split('\n') {
        let asked = report.ask(row)?;
        let answer = batches.answer(alloc, asked)?;
        report.compare(answer.as_str())?;
    }
    Ok(())
}

impl Batches {
    /// The answer to a row about these batches.
    fn answer(&self, alloc: Global, asked: &str) -> Result<String, Fault> {
        let (verb, rest) = first_word(asked);
        match verb {
            "bytes" => Ok(hex::encode(alloc, self.kept(alloc)?.bytes())?),
            "calls" => Ok(tell_calls(alloc, self.kept(alloc)?.made())?),
            "torn" => self.torn(alloc, number(rest)?),
            "noise" => self.noise(alloc, rest),
            "fail" => self.fail(alloc, rest),
            "cuts" => self.cuts(alloc),
            "each" => self.each(alloc, rest),
            "given" => self.given(alloc, rest),
            "other" => self.opening(alloc, bytes_of(alloc, rest)?),
            _ => Err(Fault::Unreadable),
        }
    }

    /// A disk to which all batches were appended.
    fn kept(&self, alloc: Global) -> Result<MemDisk, Fault> {
        let mut disk = MemDisk::new(alloc, Vec::new(alloc), Vec::new(alloc), NOTHING)?;
        append_all(alloc, &mut disk, &self.limits, &self.batches)?;
        Ok(disk)
    }

    /// How many events a journal of these bytes has, and whether they are others than the first ones here; or why it isn't opened.
    fn opening(&self, alloc: Global, bytes: Vec<u8>) -> Result<String, Fault> {
        let mut disk = MemDisk::new(alloc, bytes, Vec::new(alloc), NOTHING)?;
        let (journal, events) = match Journal::open(alloc, &mut disk, &self.limits) {
            Ok(found) => found,
            Err(OpenFault::OutOfMemory) => return Err(Fault::OutOfMemory),
            Err(fault) => return Ok(format!(in alloc; "{fault}")?),
        };
        let count = journal.count();
        if self.begin_with(&events) {
            Ok(show::number(alloc, count)?)
        } else {
            Ok(format!(in alloc; "{count} others")?)
        }
    }

    /// `COUNT`: a crash after so many calls. Of each write that isn't synced so many bytes stand, from none to all.
    fn torn(&self, alloc: Global, count: u32) -> Result<String, Fault> {
        let disk = self.kept(alloc)?;
        self.crashes(alloc, &disk, count as usize)
    }

    fn crashes(&self, alloc: Global, disk: &MemDisk, count: usize) -> Result<String, Fault> {
        let mut answers = Answers::new(alloc);
        let most = self.kept(alloc)?.bytes().len();
        for front in 0..most {
            let image = disk.image(count, Tear::Front { count: front })?;
            answers.add(self.opening(alloc, image)?)?;
        }
        Ok(answers.end()?)
    }

    /// `COUNT HEX`: a crash after so many calls, with each of these bytes all over in place of what isn't synced.
    fn noise(&self, alloc: Global, words: &str) -> Result<String, Fault> {
        let (count, digits) = first_word(words);
        let count = number(count)? as usize;
        let disk = self.kept(alloc)?;
        let mut answers = Answers::new(alloc);
        for byte in &bytes_of(alloc, digits)? {
            let image = disk.image(count, Tear::Noise { byte: *byte })?;
            answers.add(self.opening(alloc, image)?)?;
        }
        Ok(answers.end()?)
    }

    /// `NUMBER COUNT`: the call of this number fails, and of a write that fails so many bytes stand. Tells what the calls answer, how many
    /// faults the disk counts, which calls it keeps, and what is read again: of the disk, and after each crash.
    fn fail(&self, alloc: Global, words: &str) -> Result<String, Fault> {
        let (failing, count) = two_numbers(words)?;
        let mut numbers = Vec::new(alloc);
        numbers.push(u64::from(failing))?;
        let tear = Tear::Front {
            count: count as usize,
        };
        let mut disk = MemDisk::new(alloc, Vec::new(alloc), numbers, tear)?;
        let told = append_all(alloc, &mut disk, &self.limits, &self.batches)?;
        let calls = tell_calls(alloc, disk.made())?;
        let again = self.opening(alloc, disk.bytes().to_vec(alloc)?)?;
        let crashes = self.crashes(alloc, &disk, disk.made().len())?;
        let faults = disk.faults();
        Ok(format!(in alloc;
            "{told}; faults {faults}; calls {calls}; again {again}; crashes {crashes}"
        )?)
    }

    /// The disk with all batches, cut after each number of bytes.
    fn cuts(&self, alloc: Global) -> Result<String, Fault> {
        let disk = self.kept(alloc)?;
        let mut answers = Answers::new(alloc);
        for len in 0..disk.bytes().len() + 1 {
            let cut = disk.bytes()[..len].to_vec(alloc)?;
            answers.add(self.opening(alloc, cut)?)?;
        }
        Ok(answers.end()?)
    }

    /// `HEX`: each byte of the disk with all batches changed to this one.
    fn each(&self, alloc: Global, digits: &str) -> Result<String, Fault> {
        let byte = u8::from_str_radix(digits, 16)?;
        let disk = self.kept(alloc)?;
        let mut answers = Answers::new(alloc);
        for place in 0..disk.bytes().len() {
            let mut bytes = disk.bytes().to_vec(alloc)?;
            if place < bytes.len() {
                bytes[place] = byte;
            }
            answers.add(self.opening(alloc, bytes)?)?;
        }
        Ok(answers.end()?)
    }

    /// `4=ff <25`: the disk with all batches, with changes.
    fn given(&self, alloc: Global, words: &str) -> Result<String, Fault> {
        let disk = self.kept(alloc)?;
        let bytes = changed(alloc, disk.bytes(), words)?;
        self.opening(alloc, bytes)
    }
}
