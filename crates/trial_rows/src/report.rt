//! What is told of the groups of rows: how many rows were compared, and each that differs, with both answers.

use crate::fault::Fault;
use ew_model::NoMem;
use std::alloc::Global;
use std::fmt::Write;

#[derive(Drop)]
pub struct Report<'a> {
    told: String,
    /// The row that is asked, and the answer that stands in it.
    row: &'a str,
    expected: &'a str,
    /// How many rows of the group were compared.
    count: u32,
    /// How many rows differed, or could not be read, of all groups.
    wrong: u32,
    /// How often receiving stopped for want of memory, and went on.
    stops: u32,
}

impl<'a> Report<'a> {
    pub fn new(alloc: Global) -> Report<'a> {
        Report {
            told: String::new(alloc),
            row: "",
            expected: "",
            count: 0,
            wrong: 0,
            stops: 0,
        }
    }

    pub fn told(&self) -> &str {
        self.told.as_str()
    }

    pub fn wrong(&self) -> u32 {
        self.wrong
    }

    pub fn stops(&self) -> u32 {
        self.stops
    }

    pub fn note_stop(&mut self) {
        self.stops = self.stops.saturating_add(1);
    }

    /// The next row.
    pub fn see(&mut self, row: &'a str) {
        self.row = row;
    }

    /// What the row asks: all before its ` =`, behind which the answer stands.
    pub fn ask(&mut self, row: &'a str) -> Result<&'a str, Fault> {
        self.row = row;
        let (asked, expected) = row.split_once(" =").ok_or(Fault::Unreadable)?;
        self.expected = expected.strip_prefix(' ').unwrap_or(expected);
        Ok(asked)
    }

    /// The answer to the row that was asked last.
    pub fn compare(&mut self, answer: &str) -> Result<(), NoMem> {
        self.count = self.count.saturating_add(1);
        if answer == self.expected {
            return Ok(());
        }
        self.wrong = self.wrong.saturating_add(1);
        let row = self.row;
        writeln!(self.told, "differs: {row}\n     is: {answer}")
    }

    /// The row that was asked last could not be read.
    pub fn unreadable(&mut self) -> Result<(), NoMem> {
        self.wrong = self.wrong.saturating_add(1);
        let row = self.row;
        writeln!(self.told, "unreadable: {row}")
    }

    /// Ends a group.
    pub fn end(&mut self, title: &str) -> Result<(), NoMem> {
        let count = self.count;
        self.count = 0;
        writeln!(self.told, "{title}: {count}")
    }
}
