//! Answers of a call that was made again and again.

use ew_model::NoMem;
use ew_model::text_op::TextOp;
use std::alloc::Global;
use std::fmt::Write;

/// What a call of a state answered.
#[derive(Clone, Copy, PartialEq, Eq)]
pub struct Answer {
    pub kind: Kind,
    /// An index, or a length.
    pub number: Option<u32>,
}

#[derive(Clone, Copy, PartialEq, Eq)]
pub enum Kind {
    Done,
    Ins,
    Del,
    Nothing,
    Past,
}

impl Answer {
    pub const DONE: Answer = Answer {
        kind: Kind::Done,
        number: None,
    };

    pub fn of(op: TextOp) -> Answer {
        let (kind, number) = match op {
            TextOp::Ins { at, .. } => (Kind::Ins, Some(at)),
            TextOp::Del { at } => (Kind::Del, Some(at)),
            TextOp::Nothing => (Kind::Nothing, None),
        };
        Answer { kind, number }
    }

    pub fn past(len: u32) -> Answer {
        Answer {
            kind: Kind::Past,
            number: Some(len),
        }
    }

    /// How much greater the other's number is.
    fn step_to(&self, other: &Answer) -> i64 {
        match (self.number, other.number) {
            (Some(number), Some(next)) => i64::from(next) - i64::from(number),
            _ => 0,
        }
    }
}

fn word(kind: Kind) -> &'static str {
    match kind {
        Kind::Done => "done",
        Kind::Ins => "ins",
        Kind::Del => "del",
        Kind::Nothing => "nothing",
        Kind::Past => "past",
    }
}

/// Answers of one kind, each by the same step from the one before.
#[derive(Clone, Copy)]
struct Span {
    first: Answer,
    last: Answer,
    count: u32,
    step: i64,
}

impl Span {
    fn new(answer: Answer) -> Span {
        Span {
            first: answer,
            last: answer,
            count: 1,
            step: 0,
        }
    }

    /// The span with one more answer, if it goes on with that.
    fn with(&self, answer: Answer) -> Option<Span> {
        let step = self.last.step_to(&answer);
        if answer.kind != self.last.kind || self.count > 1 && step != self.step {
            return None;
        }
        Some(Span {
            first: self.first,
            last: answer,
            count: self.count.saturating_add(1),
            step,
        })
    }

    /// `del 3`, `7 times del 3`, `del 3 to 9`, `del 9 to 3`, or `del 3 to 9 by 2`.
    fn tell(&self, told: &mut String) -> Result<(), NoMem> {
        if !told.is_empty() {
            told.push_str(", ")?;
        }
        if self.step == 0 && self.count > 1 {
            write!(told, "{} times ", self.count)?;
        }
        told.push_str(word(self.first.kind))?;
        if let Some(number) = self.first.number {
            write!(told, " {number}")?;
        }
        self.tell_last(told)
    }

    /// The last number, if it differs from the first.
    fn tell_last(&self, told: &mut String) -> Result<(), NoMem> {
        let Some(number) = self.last.number else {
            return Ok(());
        };
        match self.step {
            0 => Ok(()),
            1 | -1 => write!(told, " to {number}"),
            step => write!(told, " to {number} by {step}"),
        }
    }
}

/// What is told of answers, but for the last span.
#[derive(Drop)]
pub struct Series {
    told: String,
    span: Option<Span>,
}

impl Series {
    pub fn new(alloc: Global) -> Series {
        Series {
            told: String::new(alloc),
            span: None,
        }
    }

    /// One more answer.
    pub fn add(&mut self, answer: Answer) -> Result<(), NoMem> {
        let Some(span) = self.span else {
            self.span = Some(Span::new(answer));
            return Ok(());
        };
        if let Some(longer) = span.with(answer) {
            self.span = Some(longer);
            return Ok(());
        }
        span.tell(&mut self.told)?;
        self.span = Some(Span::new(answer));
        Ok(())
    }

    /// Tells all answers.
    pub fn tell(&self, told: &mut String) -> Result<(), NoMem> {
        told.push_str(self.told.as_str())?;
        let Some(span) = self.span else {
            return Ok(());
        };
        let mut last = String::new(*self.told.allocator());
        span.tell(&mut last)?;
        if !self.told.is_empty() {
            told.push_str(", ")?;
        }
        told.push_str(last.as_str())
    }
}
