//! Where events are received: those that wait, and what was counted.

ghost use Rattle.std.specs.Prelude.{◌≡◌, ◌+◌, ◌<◌, ◌^◌, IfOk, OnOk, [], false};
ghost use Rattle.replica.specs.Counting.{more_judged, with_more};
ghost use Rattle.replica.specs.Desks.{refused_at, repeats_at};
ghost use Rattle.replica.specs.declared.answer.Answer.TheVariants as answers;

use crate::answer::Answer;
use ew_model::NoMem;
use ew_model::id::Id;
use ew_model::verdict::Refusal;
use std::alloc::Global;
use std::marker::Model;
use waiting_pool::Pool;

/// The events that wait, and how far receiving has come.
#[derive(Drop)]
pub struct Desk {
    pub pool: Pool,
    pub progress: Progress,
}

impl Desk {
    /// A desk with copies of these.
    pub fn copy_of(pool: &Pool, progress: &Progress) -> Result<Desk, NoMem>
        ensures pool { IfOk result (λ d. d.pool ≡ pool.now) }
        ensures progress { IfOk result (λ d. d.progress ≡ progress.now) }
    {
        Ok(Desk {
            pool: pool.copy()?,
            progress: progress.copy()?,
        })
    }
}

/// How far receiving has come. Contracts see what was counted.
#[derive(Drop)]
pub struct Progress {
    judged: usize,
    settling: bool,
    repeats: u32,
    refused: Vec<(Id, Refusal)>,
}

impl Model for Progress {
    ghost use Rattle.replica.specs.Counting.{Counted};

    ghost Value = { Counted };

    ghost view = { λ p. record { judged = p.judged; settling = p.settling; repeats = p.repeats; refused = p.refused.items } };
}

impl Progress {
    /// No event was judged yet.
    pub fn new(alloc: Global) -> Progress
        ensures { result ≡ record { judged = 0; settling = false; repeats = 0; refused = [] } }
    {
        Progress {
            judged: 0,
            settling: false,
            repeats: 0,
            refused: Vec::new(alloc),
        }
    }

    /// A second one that is the same.
    pub fn copy(&self) -> Result<Progress, NoMem>
        ensures { IfOk result (λ p. p ≡ self.now) }
    {
        let refused = Vec::from_slice(*self.refused.allocator(), &self.refused)?;
        Ok(Progress {
            judged: self.judged,
            settling: self.settling,
            repeats: self.repeats,
            refused,
        })
    }

    /// How many of the received events were judged.
    pub fn judged(&self) -> usize
        ensures { result ≡ self.now.judged }
    {
        self.judged
    }

    /// Whether one was judged, so that waiting events which are ready come first.
    pub fn is_settling(&self) -> bool
        ensures { result ≡ self.now.settling }
    {
        self.settling
    }

    /// How many of the events judged were there before.
    pub fn repeats(&self) -> u32
        ensures { result ≡ self.now.repeats }
    {
        self.repeats
    }

    /// Those that were refused, in order of judging.
    pub fn into_refused(self) -> Vec<(Id, Refusal)>
        ensures { result.items ≡ self.refused }
    {
        self.refused
    }

    /// So many more of the received events are judged, at least one.
    pub fn go_on(&mut self, count: u32)
        requires some { 0 < count }
        requires room { self.old.judged + count < 2 ^ 64 }
        ensures { self.new ≡ more_judged self.old count }
    {
        self.judged += count as usize;
        self.settling = true;
    }

    /// Counts what was answered to an event.
    pub fn note(&mut self, id: &Id, answer: Answer) -> Result<(), NoMem>
        requires { answer ≡ answers.Repeat → self.old.repeats + 1 < 2 ^ 32 }
        ensures { OnOk result (self.new ≡ with_more self.old (repeats_at answer) (refused_at id.now answer)) }
    {
        match answer {
            Answer::Repeat => self.repeats += 1,
            Answer::Refused(reason) => self.refused.push((*id, reason))?,
            Answer::Held | Answer::Waits => {}
        }
        Ok(())
    }
}
