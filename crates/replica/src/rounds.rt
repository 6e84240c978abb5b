//! Receiving in rounds: events are judged whatever their indices, and a walk over all events held then tells the first that is
//! out of range. What comes before it is kept, and it begins the next round's answers.

ghost use Rattle.std.specs.Prelude.{◌≡◌, ◌+◌, ◌≤◌, ◌<◌, ◌^◌, Bool, false, drop, length, None, is_some, option_map, IfOk, OnOk, OnErr};
ghost use Rattle.ew_model.specs.Kept.{IsKept, IsOrderly};
ghost use Rattle.ew_model.specs.Operations.{operations};
ghost use Rattle.ew_model.specs.Rounds.{round_touches};
ghost use Rattle.ew_model.specs.Verdicts.{IsGood, first_bad};
ghost use Rattle.event_graph.specs.Tails.{hold_of};
ghost use Rattle.transform.specs.Walking.{bad_at, walked_of};
ghost use Rattle.replica.specs.Desks.{IsDesk, LeadsTo, LeadsToEnd, desk_as, desk_at};
ghost use Rattle.replica.specs.Fronts.{IsFront};
ghost use Rattle.replica.specs.Keeping.{IsUpToDate};
ghost use Rattle.replica.specs.Lengths.{prefix_lengths};
ghost use Rattle.replica.specs.Reaching.{IsRound};
ghost use Rattle.replica.specs.Walks.{AreKept, held_after};
ghost use Rattle.waiting_pool.specs.Waiting.{events_of};

use crate::desk::{Desk, Progress};
use crate::judging::judge_all;
use crate::lazy_text::LazyText;
use crate::length_runs::LengthRuns;
use crate::lengths::write_runs;
use crate::offered::Offered;
use crate::walks::{Walks, walk_anew};
use event_graph::{Graph, Hold};
use ew_model::NoMem;
use ew_model::limits::Limits;
use ew_model::steps::Steps;
use operation_runs::OperationRuns;
use std::alloc::Global;
use std::sync::ledger::Ledger;
use transform::WalkedRuns;
use waiting_pool::Pool;

/// What there is when a round begins, besides the events held: the limits, the events that wait, how far receiving has come, and the
/// events that are received.
#[derive(Clone, Copy)]
pub struct Intake<'a> {
    pub limits: &'a Limits,
    pub pool: &'a Pool,
    pub progress: &'a Progress,
    pub events: &'a Offered<'a>,
    /// Whether kept walks go on. Else a walk is begun anew, and the kept ones stay as they are.
    pub keeping: bool,
}

/// What a round leaves: the desk that is to be kept, what the events that it holds do to the text, and whether there is more to do.
#[derive(Drop)]
pub struct Rounded {
    pub desk: Desk,
    pub ops: OperationRuns,
    pub more: bool,
}

/// How far a round came: the desk then, what the events do to the text, and the hold on the events held when it began.
#[derive(Drop)]
struct Reached {
    desk: Desk,
    walked: WalkedRuns,
    hold: Hold,
}

/// One round. Out of memory, nothing is changed.
pub fn round<L: Ledger>(
    alloc: Global,
    intake: Intake<'_>,
    graph: &mut Graph,
    text: &mut LazyText,
    lengths: &mut LengthRuns,
    walks: &mut Walks,
    steps: &mut Steps<L>,
) -> Result<Rounded, NoMem>
    requires desk { IsDesk intake.limits.now graph.old intake.events.now intake.pool.now intake.progress.now }
    requires kept { IsUpToDate intake.limits.now graph.old intake.pool.now text.old.characters lengths.old }
    requires few { length intake.events.now < 2 ^ 32 }
    requires walks { AreKept graph.old walks.old }
    ensures round { IfOk result (λ r. IsRound intake.entry.limits.now (desk_at graph.old (events_of intake.entry.pool.now) intake.entry.events.now intake.entry.progress.now) (desk_as graph.new intake.entry.events.now r.desk) intake.entry.progress.now r.desk.progress r.ops r.more) }
    ensures desk { IfOk result (λ r. IsDesk intake.entry.limits.now graph.new intake.entry.events.now r.desk.pool r.desk.progress) }
    ensures kept { IfOk result (λ r. IsUpToDate intake.entry.limits.now graph.new r.desk.pool text.new.characters lengths.new) }
    ensures told { OnOk result (text.new.told ≡ None) }
    ensures touches { IfOk result (λ r. intake.entry.keeping ≡ false → r.more ≡ false → steps.new ≡ steps.old + round_touches intake.entry.limits.now (desk_at graph.old (events_of intake.entry.pool.now) intake.entry.events.now intake.entry.progress.now)) }
    ensures most { steps.new ≤ steps.old + round_touches intake.entry.limits.now (desk_at graph.old (events_of intake.entry.pool.now) intake.entry.events.now intake.entry.progress.now) }
    ensures same_graph { OnErr result (graph.new ≡ graph.old) }
    ensures same_text { OnErr result (text.new ≡ text.old) }
    ensures same_lengths { OnErr result (lengths.new ≡ lengths.old) }
    ensures walks { AreKept graph.new walks.new }
{
    let _most = intake.limits.events();
    let Reached { desk, walked, hold } = reach(alloc, intake, graph, lengths, walks, steps)?;
    let _waiting = desk.pool.len();
    let count = lengths.count();
    if let Err(fault) = write_runs(alloc, text, lengths, &walked.ops) {
        graph.drop_tail(hold);
        lengths.truncate(count);
        *walks = Walks::none();
        return Err(fault);
    }
    graph.keep(hold);
    let WalkedRuns { ops, stopped } = walked;
    Ok(Rounded {
        desk,
        ops,
        more: stopped.is_some(),
    })
}

/// Holds the events of a round: those before the first that is out of range, which is answered so. Out of memory, no more events
/// are held than before.
fn reach<L: Ledger>(
    alloc: Global,
    intake: Intake<'_>,
    graph: &mut Graph,
    lengths: &LengthRuns,
    walks: &mut Walks,
    steps: &mut Steps<L>,
) -> Result<Reached, NoMem>
    requires desk { IsDesk intake.limits.now graph.old intake.events.now intake.pool.now intake.progress.now }
    requires kept { IsKept intake.limits.now graph.old (events_of intake.pool.now) }
    requires lengths { lengths.now ≡ prefix_lengths graph.old }
    requires few { length intake.events.now < 2 ^ 32 }
    requires walks { AreKept graph.old walks.old }
    ensures round { IfOk result (λ r. IsRound intake.entry.limits.now (desk_at graph.old (events_of intake.entry.pool.now) intake.entry.events.now intake.entry.progress.now) (desk_as graph.new intake.entry.events.now r.desk) intake.entry.progress.now r.desk.progress r.walked.ops (is_some r.walked.stopped)) }
    ensures desk { IfOk result (λ r. IsDesk intake.entry.limits.now graph.new intake.entry.events.now r.desk.pool r.desk.progress) }
    ensures orderly { IfOk result (λ r. IsOrderly graph.new (events_of r.desk.pool)) }
    ensures touches { IfOk result (λ r. intake.entry.keeping ≡ false → r.walked.stopped ≡ None → steps.new ≡ steps.old + round_touches intake.entry.limits.now (desk_at graph.old (events_of intake.entry.pool.now) intake.entry.events.now intake.entry.progress.now)) }
    ensures most { steps.new ≤ steps.old + round_touches intake.entry.limits.now (desk_at graph.old (events_of intake.entry.pool.now) intake.entry.events.now intake.entry.progress.now) }
    ensures front { IsFront graph.old graph.new }
    ensures hold { IfOk result (λ r. r.hold ≡ hold_of graph.old) }
    ensures same { OnErr result (graph.new ≡ graph.old) }
    ensures walks { AreKept graph.new walks.new }
{
    let Reached { desk, walked, hold } = reach_all(alloc, intake, graph, lengths, walks, steps)?;
    if walked.stopped.is_none() {
        return Ok(Reached { desk, walked, hold });
    }
    graph.drop_tail(hold);
    let reached = reach_stop(intake, graph, walked)?;
    Ok(reached)
}

/// Holds all events that can be held whatever their indices. Out of memory, no more are held than before.
fn reach_all<L: Ledger>(
    alloc: Global,
    intake: Intake<'_>,
    graph: &mut Graph,
    lengths: &LengthRuns,
    walks: &mut Walks,
    steps: &mut Steps<L>,
) -> Result<Reached, NoMem>
    requires desk { IsDesk intake.limits.now graph.old intake.events.now intake.pool.now intake.progress.now }
    requires good { IsGood graph.old }
    requires lengths { lengths.now ≡ prefix_lengths graph.old }
    requires few { length intake.events.now < 2 ^ 32 }
    requires walks { AreKept graph.old walks.old }
    ensures leads { IfOk result (λ r. LeadsToEnd intake.entry.limits.now None (desk_at graph.old (events_of intake.entry.pool.now) intake.entry.events.now intake.entry.progress.now) (desk_as graph.new intake.entry.events.now r.desk) intake.entry.progress.now r.desk.progress) }
    ensures desk { IfOk result (λ r. IsDesk intake.entry.limits.now graph.new intake.entry.events.now r.desk.pool r.desk.progress) }
    ensures stopped { IfOk result (λ r. option_map bad_at r.walked.stopped ≡ first_bad graph.new) }
    ensures ops { IfOk result (λ r. r.walked.ops ≡ drop (length graph.old) (operations (walked_of graph.new r.walked.stopped))) }
    ensures touches { IfOk result (λ r. intake.entry.keeping ≡ false → r.walked.stopped ≡ None → steps.new ≡ steps.old + round_touches intake.entry.limits.now (desk_at graph.old (events_of intake.entry.pool.now) intake.entry.events.now intake.entry.progress.now)) }
    ensures most { steps.new ≤ steps.old + round_touches intake.entry.limits.now (desk_at graph.old (events_of intake.entry.pool.now) intake.entry.events.now intake.entry.progress.now) }
    ensures front { IsFront graph.old graph.new }
    ensures hold { IfOk result (λ r. r.hold ≡ hold_of graph.old) }
    ensures same { OnErr result (graph.new ≡ graph.old) }
    ensures walks { IfOk result (λ r. AreKept (held_after graph.old graph.new r.walked.stopped) walks.new) }
    ensures same_walks { OnErr result (AreKept graph.old walks.new) }
{
    let hold = graph.hold()?;
    let mut desk = Desk::copy_of(intake.pool, intake.progress)?;
    match look(alloc, intake, graph, lengths, walks, &mut desk, steps) {
        Ok(walked) => Ok(Reached { desk, walked, hold }),
        Err(fault) => {
            graph.drop_tail(hold);
            Err(fault)
        }
    }
}

/// Holds the events before the one that a walk stopped at, and answers that one. Out of memory, no more are held than before.
fn reach_stop(intake: Intake<'_>, graph: &mut Graph, walked: WalkedRuns) -> Result<Reached, NoMem>
    requires desk { IsDesk intake.limits.now graph.old intake.events.now intake.pool.now intake.progress.now }
    requires few { length intake.events.now < 2 ^ 32 }
    ensures leads { IfOk result (λ r. (b : Bool) × LeadsTo intake.entry.limits.now walked.stopped (desk_at graph.old (events_of intake.entry.pool.now) intake.entry.events.now intake.entry.progress.now) (desk_as graph.new intake.entry.events.now r.desk) intake.entry.progress.now r.desk.progress b) }
    ensures desk { IfOk result (λ r. IsDesk intake.entry.limits.now graph.new intake.entry.events.now r.desk.pool r.desk.progress) }
    ensures walked { IfOk result (λ r. r.walked ≡ walked) }
    ensures front { IsFront graph.old graph.new }
    ensures hold { IfOk result (λ r. r.hold ≡ hold_of graph.old) }
    ensures same { OnErr result (graph.new ≡ graph.old) }
{
    let hold = graph.hold()?;
    let mut desk = Desk::copy_of(intake.pool, intake.progress)?;
    match judge_all(
        intake.limits,
        walked.stopped,
        graph,
        &mut desk,
        intake.events,
    ) {
        Ok(_) => Ok(Reached { desk, walked, hold }),
        Err(fault) => {
            graph.drop_tail(hold);
            Err(fault)
        }
    }
}

/// Judges all that is to be judged, whatever the indices, and walks over the events held then, from their latest critical cut
/// that isn't above the number of those held before: of the events below it the length of their text is all that is needed. Where walks
/// are kept, one that came behind this cut goes on.
fn look<L: Ledger>(
    alloc: Global,
    intake: Intake<'_>,
    graph: &mut Graph,
    lengths: &LengthRuns,
    walks: &mut Walks,
    desk: &mut Desk,
    steps: &mut Steps<L>,
) -> Result<WalkedRuns, NoMem>
    requires desk { IsDesk intake.limits.now graph.old intake.events.now desk.old.pool desk.old.progress }
    requires good { IsGood graph.old }
    requires lengths { lengths.now ≡ prefix_lengths graph.old }
    requires few { length intake.events.now < 2 ^ 32 }
    requires walks { AreKept graph.old walks.old }
    ensures leads { OnOk result (LeadsToEnd intake.entry.limits.now None (desk_as graph.old intake.entry.events.now desk.old) (desk_as graph.new intake.entry.events.now desk.new) desk.old.progress desk.new.progress) }
    ensures desk { OnOk result (IsDesk intake.entry.limits.now graph.new intake.entry.events.now desk.new.pool desk.new.progress) }
    ensures stopped { IfOk result (λ w. option_map bad_at w.stopped ≡ first_bad graph.new) }
    ensures ops { IfOk result (λ w. w.ops ≡ drop (length graph.old) (operations (walked_of graph.new w.stopped))) }
    ensures touches { IfOk result (λ w. intake.entry.keeping ≡ false → w.stopped ≡ None → steps.new ≡ steps.old + round_touches intake.entry.limits.now (desk_as graph.old intake.entry.events.now desk.old)) }
    ensures most { steps.new ≤ steps.old + round_touches intake.entry.limits.now (desk_as graph.old intake.entry.events.now desk.old) }
    ensures front { IsFront graph.old graph.new }
    ensures walks { IfOk result (λ w. AreKept (held_after graph.old graph.new w.stopped) walks.new) }
    ensures same_walks { OnErr result (AreKept graph.old walks.new) }
{
    let count = graph.count();
    judge_all(intake.limits, None, graph, desk, intake.events)?;
    let cut = graph.latest_cut(count);
    if intake.keeping {
        walks.walk(alloc, graph, lengths, cut, count, steps)
    } else {
        walk_anew(alloc, graph, lengths, cut, count, steps)
    }
}
