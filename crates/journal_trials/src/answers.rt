//! Answers of which many in a row are the same.

use ew_model::NoMem;
use std::alloc::Global;
use std::fmt::Write;
use trial_rows::show;

/// Answers, each with how often it comes in a row.
#[derive(Drop)]
pub struct Answers {
    told: String,
    last: String,
    count: u32,
}

impl Answers {
    pub fn new(alloc: Global) -> Answers {
        Answers {
            told: String::new(alloc),
            last: String::new(alloc),
            count: 0,
        }
    }

    pub fn add(&mut self, answer: String) -> Result<(), NoMem> {
        if answer != self.last {
            self.tell()?;
            self.last = answer;
            self.count = 0;
        }
        self.count = self.count.saturating_add(1);
        Ok(())
    }

    fn tell(&mut self) -> Result<(), NoMem> {
        if self.count == 0 {
            return Ok(());
        }
        show::space(&mut self.told)?;
        write!(self.told, "{}*{}", self.last, self.count)
    }

    pub fn end(mut self) -> Result<String, NoMem> {
        self.tell()?;
        Ok(self.told)
    }
}
