//! The walks of receiving, and those that are kept.

ghost use Rattle.std.specs.Prelude.{◌≡◌, ◌+◌, ◌<◌, ◌≤◌, List, drop, length, None, option_map, IfSome, IfOk, OnErr, IsTrue};
ghost use Rattle.ew_model.specs.declared.event.Event.{Event};
ghost use Rattle.ew_model.specs.Operations.{operations};
ghost use Rattle.ew_model.specs.Touches.{touches};
ghost use Rattle.ew_model.specs.Verdicts.{first_bad};
ghost use Rattle.transform.specs.Walking.{bad_at, judged_of, walked_of};
ghost use Rattle.transform.specs.Keeping.{IsWalkOf};
ghost use Rattle.replica.specs.Fronts.{IsFront};
ghost use Rattle.replica.specs.Lengths.{prefix_lengths};
ghost use Rattle.replica.specs.Walks.{AreKept, BeginsAt, CameBehind, GoesBehind, IsAtEnd, MayGoOn, held_after};

use crate::length_runs::LengthRuns;
use crate::lengths::length_below;
use event_graph::Graph;
use ew_model::NoMem;
use ew_model::steps::Steps;
use std::alloc::Global;
use std::sync::ledger::Ledger;
use transform::{KeptWalk, State, WalkedRuns, walk_runs};

/// Walks that are kept. What they know need not be found again where they go on.
#[derive(Drop)]
pub struct Walks {
    /// The one that was made or went on last.
    pub latest: Option<KeptWalk>,
    /// Another one: events that come may take away the cut of the latest.
    pub other: Option<KeptWalk>,
}

/// A walk that goes on, if there is one, and another that is kept beside it.
#[derive(Drop)]
struct Chosen {
    walk: Option<KeptWalk>,
    other: Option<KeptWalk>,
}

impl Walks {
    /// None is kept.
    pub fn none() -> Walks
        ensures latest { result.latest ≡ None }
        ensures other { result.other ≡ None }
    {
        Walks {
            latest: None,
            other: None,
        }
    }

    /// Walks over the events of a graph from a critical cut on, where so many of them, the first, were held before: a kept walk goes on
    /// that came behind the cut, or else one begins there, and then it is kept. Where all later events know all those held before, they
    /// are mostly in line, and no walk is kept of them. After an event that is out of range, and for want of memory, only walks over what
    /// was held before are kept.
    pub fn walk<L: Ledger>(
        &mut self,
        alloc: Global,
        graph: &Graph,
        lengths: &LengthRuns,
        cut: u32,
        count: u32,
        steps: &mut Steps<L>,
    ) -> Result<WalkedRuns, NoMem>
        requires begins { (held : List Event) × BeginsAt held graph.now cut × IsFront held graph.now × (count ≡ length held) × (lengths.now ≡ prefix_lengths held) × AreKept held self.old }
        ensures stopped { IfOk result (λ w. option_map bad_at w.stopped ≡ first_bad graph.now) }
        ensures ops { IfOk result (λ w. w.ops ≡ drop count (operations (walked_of graph.now w.stopped))) }
        ensures kept { (held : List Event) → IsFront held graph.now → AreKept held self.old → IfOk result (λ w. AreKept (held_after held graph.now w.stopped) self.new) }
        ensures goes_on { cut < count → IfOk result (λ w. w.stopped ≡ None → IsAtEnd graph.now self.new.latest) }
        ensures err { (held : List Event) → AreKept held self.old → OnErr result (AreKept held self.new) }
        ensures most { steps.new ≤ steps.old + touches graph.now cut }
    {
        if cut == count {
            return walk_anew(alloc, graph, lengths, cut, count, steps);
        }
        let latest = that_may_go_on(self.latest.take(), graph);
        let other = that_may_go_on(self.other.take(), graph);
        let Chosen { walk, other } = choose(latest, other, cut);
        let mut walk = or_begun(alloc, walk, graph, lengths, cut)?;
        let walked = walk.go_on(alloc, graph, count, steps)?;
        if walked.stopped.is_some() {
            return Ok(walked);
        }
        self.latest = Some(walk);
        self.other = other;
        Ok(walked)
    }
}

/// Walks over the events of a graph from a critical cut on, and forgets all of it.
pub fn walk_anew<L: Ledger>(
    alloc: Global,
    graph: &Graph,
    lengths: &LengthRuns,
    cut: u32,
    count: u32,
    steps: &mut Steps<L>,
) -> Result<WalkedRuns, NoMem>
    requires low { cut ≤ count }
    requires begins { (held : List Event) × BeginsAt held graph.now cut × (lengths.now ≡ prefix_lengths held) }
    ensures stopped { IfOk result (λ w. option_map bad_at w.stopped ≡ first_bad graph.now) }
    ensures ops { IfOk result (λ w. w.ops ≡ drop count (operations (walked_of graph.now w.stopped))) }
    ensures touches { IfOk result (λ w. steps.new ≡ steps.old + touches (judged_of graph.now w.stopped) cut) }
    ensures most { steps.new ≤ steps.old + touches graph.now cut }
{
    let mut state = State::base(alloc, length_below(lengths, cut))?;
    walk_runs(alloc, graph, &mut state, cut, count, steps)
}

/// The walk, where its cut is critical still. It is let go once more events came behind it than it knows: then it spares little.
fn that_may_go_on(walk: Option<KeptWalk>, graph: &Graph) -> Option<KeptWalk>
    requires within { (held : List Event) × IsFront held graph.now × IfSome walk (IsWalkOf held) }
    ensures { (held : List Event) → IfSome walk (IsWalkOf held) → IfSome result (MayGoOn held graph.now) }
{
    let walk = walk?;
    if graph.is_cut(walk.cut) && is_worth_keeping(&walk, graph.count()) {
        Some(walk)
    } else {
        None
    }
}

/// Whether a walk knows at least as many events as came behind it.
fn is_worth_keeping(walk: &KeptWalk, count: u32) -> bool
    requires known { walk.now.cut ≤ walk.now.reached }
    requires within { walk.now.reached ≤ count }
{
    count - walk.reached <= walk.reached - walk.cut
}

/// Which of two walks goes on: the latest, if it came behind the cut, or else the other, if that did. If neither did, the one that knows
/// more events is kept beside one that begins.
fn choose(latest: Option<KeptWalk>, other: Option<KeptWalk>, cut: u32) -> Chosen
    ensures walk { (held graph : List Event) → IfSome latest (MayGoOn held graph) → IfSome other (MayGoOn held graph) → IfSome result.walk (λ w. MayGoOn held graph w × CameBehind cut w) }
    ensures other { (held graph : List Event) → IfSome latest (MayGoOn held graph) → IfSome other (MayGoOn held graph) → IfSome result.other (MayGoOn held graph) }
{
    if came_behind(&latest, cut) {
        return Chosen {
            walk: latest,
            other,
        };
    }
    if came_behind(&other, cut) {
        return Chosen {
            walk: other,
            other: latest,
        };
    }
    Chosen {
        walk: None,
        other: the_longer(latest, other),
    }
}

/// Whether a walk began at a cut or before it, and came behind it.
fn came_behind(walk: &Option<KeptWalk>, cut: u32) -> bool
    ensures { IsTrue result → IfSome walk.now (CameBehind cut) }
{
    match walk {
        Some(walk) => walk.cut <= cut && cut < walk.reached,
        None => false,
    }
}

/// The walk that knows more events.
fn the_longer(one: Option<KeptWalk>, other: Option<KeptWalk>) -> Option<KeptWalk>
    ensures { (held graph : List Event) → IfSome one (MayGoOn held graph) → IfSome other (MayGoOn held graph) → IfSome result (MayGoOn held graph) }
{
    match (one, other) {
        (Some(one), Some(other)) => {
            if one.reached.saturating_sub(one.cut) < other.reached.saturating_sub(other.cut) {
                Some(other)
            } else {
                Some(one)
            }
        }
        (Some(walk), None) | (None, Some(walk)) => Some(walk),
        (None, None) => None,
    }
}

/// The walk, or if there is none, one that begins at a critical cut.
fn or_begun(
    alloc: Global,
    walk: Option<KeptWalk>,
    graph: &Graph,
    lengths: &LengthRuns,
    cut: u32,
) -> Result<KeptWalk, NoMem>
    requires begins { (held : List Event) × BeginsAt held graph.now cut × (lengths.now ≡ prefix_lengths held) }
    ensures { (held : List Event) → BeginsAt held graph.now cut → IsFront held graph.now → lengths.now ≡ prefix_lengths held → IfSome walk (λ w. MayGoOn held graph.now w × CameBehind cut w) → IfOk result (GoesBehind held graph.now cut) }
{
    match walk {
        Some(walk) => Ok(walk),
        None => KeptWalk::begin(alloc, cut, length_below(lengths, cut)),
    }
}
