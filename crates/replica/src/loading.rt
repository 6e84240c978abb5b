//! Events that are given one after another, and the replica of them all.

ghost use Rattle.std.specs.Prelude.{◌≡◌, ◌+◌, ◌≤◌, ◌<◌, [], ◌∷◌, ◌++◌, List, length, None, IfOk, OnOk, OnErr};
ghost use Rattle.ew_model.specs.declared.event.Event.{Event};
ghost use Rattle.ew_model.specs.Answers.{ruling_of};
ghost use Rattle.ew_model.specs.Touches.{touches};
ghost use Rattle.ew_model.specs.Verdicts as model;
ghost use Rattle.event_graph.specs.GoingOn.{chain_behind};
ghost use Rattle.event_runs.specs.RunOps.{IndicesFit, ops_of};
ghost use Rattle.history_definitions.specs.Chains.{event_behind};
ghost use Rattle.replica.specs.Answers.{Loads, LoadsGraph};
ghost use Rattle.replica.specs.Giving.{WereGiven};

use crate::fault::LoadFault;
use crate::load::{load, walk_good};
use crate::state::Replica;
use event_graph::Graph;
use event_runs::RunOps;
use ew_model::NoMem;
use ew_model::event::{Event, Op};
use ew_model::limits::Limits;
use ew_model::steps::Steps;
use ew_model::verdict::Verdict;
use std::alloc::Global;
use std::marker::Model;
use std::sync::ledger::Ledger;

/// Events on their way into a replica, so that nobody has to hold them as a list. Contracts see the limits, the events up to
/// the first that isn't good by its id and its parents, and the verdict on that one.
pub struct Loading {
    alloc: Global,
    limits: Limits,
    graph: Graph,
    /// The verdict on the first event that wasn't admitted. Nothing is kept of it, nor of those behind it.
    refused: Option<Verdict>,
}

impl Drop for Loading {
    fn drop(self) {
        let Loading {
            alloc: _,
            limits: _,
            graph: _,
            refused: _,
        } = self;
    }
}

impl Model for Loading {
    ghost use Rattle.std.specs.Prelude.{◌≤◌, length, option_map};
    ghost use Rattle.ew_model.specs.Answers.{ruling_of};
    ghost use Rattle.replica.specs.Giving.{Given};

    ghost Value = { Given };

    ghost view = { λ l. record { limits = l.limits; admitted = l.graph; refused = option_map ruling_of l.refused } };

    ghost invariant = { λ l. length l.graph ≤ l.limits.events };
}

impl Loading {
    /// No events are given yet.
    pub fn new(alloc: Global, limits: Limits) -> Result<Loading, NoMem>
        ensures value { IfOk result (λ l. l ≡ record { limits = limits; admitted = []; refused = None }) }
        ensures given { IfOk result (WereGiven []) }
    {
        let graph = Graph::new(alloc)?;
        let _admitted = graph.count();
        Ok(Loading {
            alloc,
            limits,
            graph,
            refused: None,
        })
    }

    /// Takes in one more event, behind the others. Its index isn't looked at before the end. For want of memory it isn't taken
    /// in, and may be given again.
    pub fn push(&mut self, e: &Event) -> Result<(), NoMem>
        requires room { length self.old.admitted < self.old.limits.events }
        ensures limits { self.new.limits ≡ self.old.limits }
        ensures given { OnOk result ((events : List Event) → WereGiven events self.old → WereGiven (events ++ e.now ∷ []) self.new) }
        ensures same { OnErr result (self.new ≡ self.old) }
    {
        if self.refused.is_some() {
            return Ok(());
        }
        let _most = self.limits.events();
        let verdict = self.graph.judge(e)?;
        if is_good(&verdict) {
            self.graph.admit(e)?;
        } else {
            self.refused = Some(verdict);
        }
        Ok(())
    }

    /// Takes in one more event, which goes on from the one given last: it is the next of its agent, and has that event as its only
    /// parent. Where none was given yet nothing happens. Its index isn't looked at before the end. For want of memory it isn't taken
    /// in, and may be given again.
    pub fn go_on(&mut self, op: Op) -> Result<(), NoMem>
        requires room { length self.old.admitted < self.old.limits.events }
        ensures limits { self.new.limits ≡ self.old.limits }
        ensures given { OnOk result ((events : List Event) (e : Event) → WereGiven (events ++ e ∷ []) self.old → WereGiven ((events ++ e ∷ []) ++ event_behind e.id op ∷ []) self.new) }
        ensures none { WereGiven [] self.old → self.new ≡ self.old }
        ensures same { OnErr result (self.new ≡ self.old) }
    {
        if self.refused.is_some() || self.graph.count() == 0 {
            return Ok(());
        }
        let _most = self.limits.events();
        self.graph.go_on(op)?;
        Ok(())
    }

    /// Takes in the events of these operations: the first goes on from the event given last, each further one from the event before it,
    /// as if each were given by `go_on`. Where none was given yet nothing happens. Their indices aren't looked at before the end. For
    /// want of memory none is taken in, and they may be given again.
    pub fn go_on_run(&mut self, ops: RunOps<'_>) -> Result<(), NoMem>
        requires fit { IndicesFit ops }
        requires room { length self.old.admitted + length (ops_of ops) ≤ self.old.limits.events }
        ensures limits { self.new.limits ≡ self.old.limits }
        ensures given { OnOk result ((events : List Event) (e : Event) → WereGiven (events ++ e ∷ []) self.old → WereGiven ((events ++ e ∷ []) ++ chain_behind e.id (ops_of ops.entry)) self.new) }
        ensures none { WereGiven [] self.old → self.new ≡ self.old }
        ensures same { OnErr result (self.new ≡ self.old) }
    {
        if self.refused.is_some() || self.graph.count() == 0 {
            return Ok(());
        }
        let _most = self.limits.events();
        self.graph.go_on_run(ops)?;
        Ok(())
    }

    /// The replica of all events given, or the first that isn't good behind those before it. Its text isn't made before it is asked
    /// for. The steps taken are at most the touches of the events.
    pub fn finish<L: Ledger>(self, steps: &mut Steps<L>) -> Result<Replica, LoadFault>
        ensures loads { (events : List Event) → WereGiven events self → Loads events self.limits result }
        ensures touches { (events : List Event) → WereGiven events self → steps.new ≤ steps.old + touches events 0 }
    {
        let _most = self.limits.events();
        let Loading {
            alloc,
            limits,
            graph,
            refused,
        } = self;
        let (text, lengths) = load(alloc, &graph, refused, steps)?;
        let replica = Replica::of_good(alloc, limits, graph, text, lengths)?;
        Ok(replica)
    }

    /// The graph of all events given, or the first that isn't good behind those before it. The text isn't made. The steps taken are
    /// at most the touches of the events.
    pub fn finish_graph<L: Ledger>(self, steps: &mut Steps<L>) -> Result<Graph, LoadFault>
        ensures loads { (events : List Event) → WereGiven events self → LoadsGraph events result }
        ensures touches { (events : List Event) → WereGiven events self → steps.new ≤ steps.old + touches events 0 }
    {
        let Loading {
            alloc,
            limits: _,
            graph,
            refused,
        } = self;
        // No operation is listed.
        let count = graph.count();
        walk_good(alloc, &graph, refused, count, steps)?;
        Ok(graph)
    }
}

fn is_good(verdict: &Verdict) -> bool
    ensures { result ≡ model.is_verdict_good (ruling_of verdict.now) }
{
    match verdict {
        Verdict::Good => true,
        _ => false,
    }
}

/// What is kept where these events are given. They are let go of.
pub fn given(alloc: Global, events: Vec<Event>, limits: Limits) -> Result<Loading, NoMem>
    requires { length events.items ≤ limits.events }
    ensures limits { IfOk result (λ l. l.limits ≡ limits) }
    ensures given { IfOk result (WereGiven events.items) }
{
    let mut loading = Loading::new(alloc, limits)?;
    for e in events {
        loading.push(&e)?;
    }
    Ok(loading)
}
