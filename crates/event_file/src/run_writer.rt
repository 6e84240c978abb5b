//! Writing an event file in runs, one event after another.

ghost use Rattle.std.specs.Prelude.{◌≡◌, ℕ, suc, ◌+◌, ◌-◌, ◌<◌, ◌≤◌, ◌^◌, true, false, List, ◌++◌, length, Some, slice_get, IfOk, OnOk, OnErr};
ghost use Rattle.std.specs.Option.{option_map};
ghost use Rattle.ew_model.specs.declared.id.Id.{Id};
ghost use Rattle.ew_model.specs.declared.event.Event.{Event};
ghost use Rattle.ew_model.specs.Ancestors.{ids_of};
ghost use Rattle.ew_model.specs.Writable.{IsWritable};
ghost use Rattle.file_words.specs.File.{with_digest};
ghost use Rattle.history_definitions.specs.Chains.{event_behind};
ghost use Rattle.event_file.specs.LastRuns.{HasAtMost, begun_put, goes_on_last, head_of, longer_put};
ghost use Rattle.event_file.specs.RunWriting.{ArePut, IsNamed, all_put, last_ops, none_put, takes_last};
ghost use Rattle.event_file.specs.Steps.{run_of};
ghost use Rattle.event_file.specs.Writing.{start_of};

use crate::format::{CHARACTER_BYTES, RUNS_VERSION};
use crate::steps::{LastRun, Steps, begin_text, keep_character};
use crate::writing::{close, put_number, put_parents, put_start, usual_size};
use ew_model::NoMem;
use ew_model::event::Op;
use ew_model::name::Name;
use std::alloc::Global;
use std::marker::Model;

/// An event file in runs on its way, for events that nobody holds as a list. Contracts see its bytes up to what the events of
/// the last run do, that run, and how many events were put. `ArePut` says of which history it holds the first events.
#[derive(Drop)]
pub struct RunWriter {
    out: Vec<u8>,
    /// The last run, which the next event may continue.
    last: Option<LastRun>,
    /// The characters of the last run.
    text: Vec<char>,
    count: u32,
    /// Room for the end of the last run and the beginning of the next one.
    buffer: Vec<u8>,
}

impl Model for RunWriter {
    ghost use Rattle.std.specs.Option.{option_map};
    ghost use Rattle.event_file.specs.LastRuns.{HasAtMost};
    ghost use Rattle.event_file.specs.RunWriting.{RunsPut};
    ghost use Rattle.event_file.specs.Steps.{run_of};

    ghost Value = { RunsPut };

    ghost view = { λ w. record { bytes = w.out.items; last = option_map (run_of w.text.items) w.last; count = w.count } };

    ghost invariant = { λ w. HasAtMost w.count (option_map (run_of w.text.items) w.last) };
}

impl RunWriter {
    /// What stands before the records of so many events, the agents being in the order of their first events.
    pub fn new(alloc: Global, agents: &[Name], count: u32) -> Result<RunWriter, NoMem>
        requires { length agents.now < 2 ^ 32 }
        ensures { IfOk result (λ w. w ≡ none_put (start_of 2 agents.now count)) }
    {
        let size = usual_size(agents, count, CHARACTER_BYTES);
        let mut out = Vec::with_capacity(alloc, size)?;
        put_start(&mut out, RUNS_VERSION, agents, count)?;
        Ok(RunWriter {
            out,
            last: None,
            text: Vec::new(alloc),
            count: 0,
            buffer: Vec::new(alloc),
        })
    }

    /// Puts the next event of a history behind the others: the place of its agent, its number, the places of its parents in the
    /// order of their ids, and its operation.
    pub fn put(&mut self, agent: u32, seq: u32, parents: &[u32], op: &Op) -> Result<(), NoMem>
        requires few { length parents.now ≤ 16 }
        requires room { self.old.count < 2 ^ 32 - 1 }
        ensures put { OnOk result ((history : List Event) (n : ℕ) → IsWritable history → ArePut history n self.old → IsNamed history n agent seq parents.now op.now → ArePut history (n + 1) self.new) }
        ensures err { OnErr result (self.new ≡ self.old) }
    {
        if self.goes_on(agent, seq, parents, op) {
            self.make_longer(op)
        } else {
            self.begin(agent, seq, parents, op)
        }
    }

    /// Puts the event behind the others that goes on from the last one, where its operation takes the step of the last run: it is the
    /// next event of the last one's agent, and has that one as its only parent. Says whether it does; where not, none is put. No
    /// names are compared, and no parents.
    pub fn go_on(&mut self, op: &Op) -> Result<bool, NoMem>
        requires room { self.old.count < 2 ^ 32 - 1 }
        ensures takes { IfOk result (λ b. b ≡ takes_last self.old op.now) }
        ensures put { IfOk result (λ b. b ≡ true → (history : List Event) (n : ℕ) (x : Id) → ArePut history (suc n) self.old → slice_get (ids_of history) n ≡ Some x → slice_get history (suc n) ≡ Some (event_behind x op.now) → ArePut history (suc (suc n)) self.new) }
        ensures none { IfOk result (λ b. b ≡ false → self.new ≡ self.old) }
        ensures err { OnErr result (self.new ≡ self.old) }
    {
        let takes = self.takes(op);
        if takes {
            self.make_longer(op)?;
        }
        Ok(takes)
    }

    /// The file, closed by its digest.
    pub fn finish(self) -> Result<Vec<u8>, NoMem>
        ensures { IfOk result (λ bytes. bytes.items ≡ with_digest (all_put self)) }
    {
        let _count = self.count;
        let mut out = self.out;
        put_last(&mut out, self.last, &self.text)?;
        close(out)
    }

    /// Whether an event continues the last run.
    fn goes_on(&self, agent: u32, seq: u32, parents: &[u32], op: &Op) -> bool
        ensures { result ≡ goes_on_last self.now agent seq parents.now op.now }
    {
        let count = self.count;
        match &self.last {
            Some(there) => there.is_gone_on(&self.text, count, agent, seq, parents, op),
            None => false,
        }
    }

    /// Whether an operation takes the step of the last run.
    fn takes(&self, op: &Op) -> bool
        ensures { result ≡ takes_last self.now op.now }
    {
        let _count = self.count;
        match &self.last {
            Some(there) => there.steps.are_gone_on(&self.text, op),
            None => false,
        }
    }

    /// One event more in the last run, which it continues.
    fn make_longer(&mut self, op: &Op) -> Result<(), NoMem>
        requires { self.old.count < 2 ^ 32 - 1 }
        ensures ok { OnOk result (self.new ≡ longer_put self.old op.now) }
        ensures err { OnErr result (self.new ≡ self.old) }
    {
        keep_character(&mut self.text, op)?;
        if let Some(there) = self.last {
            self.last = Some(LastRun {
                agent: there.agent,
                seq: there.seq,
                steps: there.steps.longer(op),
            });
        }
        self.count += 1;
        Ok(())
    }

    /// One event more, which begins a run.
    fn begin(&mut self, agent: u32, seq: u32, parents: &[u32], op: &Op) -> Result<(), NoMem>
        requires few { length parents.now ≤ 16 }
        requires room { self.old.count < 2 ^ 32 - 1 }
        ensures ok { OnOk result (self.new ≡ begun_put self.old agent seq parents.now op.now) }
        ensures err { OnErr result (self.new ≡ self.old) }
    {
        self.text.reserve(1)?;
        self.buffer.clear();
        put_last(&mut self.buffer, self.last, &self.text)?;
        put_head(&mut self.buffer, agent, seq, parents)?;
        self.out.extend_from_slice(&self.buffer)?;
        begin_text(&mut self.text, op);
        self.last = Some(LastRun {
            agent,
            seq,
            steps: Steps::alone(op),
        });
        self.count += 1;
        Ok(())
    }
}

/// Puts what the events of the last run do, if there is one.
fn put_last(out: &mut Vec<u8>, last: Option<LastRun>, text: &[char]) -> Result<(), NoMem>
    requires { HasAtMost (2 ^ 32 - 1) (option_map (run_of text.now) last) }
    ensures { OnOk result (out.new.items ≡ out.old.items ++ last_ops (option_map (run_of text.now) last)) }
{
    match last {
        Some(there) => there.steps.put(out, text),
        None => Ok(()),
    }
}

/// Puts a record up to its parents.
fn put_head(out: &mut Vec<u8>, agent: u32, seq: u32, parents: &[u32]) -> Result<(), NoMem>
    requires { length parents.now ≤ 16 }
    ensures { OnOk result (out.new.items ≡ out.old.items ++ head_of agent seq parents.now) }
{
    put_number(out, agent)?;
    put_number(out, seq)?;
    put_parents(out, parents)
}
