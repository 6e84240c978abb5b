//! Rows of walks from a critical cut, over a base.

ghost use Rattle.std.specs.Prelude.{◌≡◌, [], length, take, IfOk, OnOk};
ghost use Rattle.ew_model.specs.Texts as model;
ghost use Rattle.ew_model.specs.Verdicts as verdicts;
ghost use Rattle.advance_retreat.specs.Standing.{StandsFor};

use event_graph::Graph;
use ew_model::NoMem;
use ew_model::event::Event;
use ew_model::limits::Limits;
use ew_model::steps::Steps;
use ew_model::verdict::Verdict;
use replica::{LoadFault, Replica};
use std::alloc::Global;
use std::fmt::Write;
use std::sync::ledger::Ledger;
use transform::{State, walk};
use trial_rows::fault::Fault;
use trial_rows::report::Report;
use trial_rows::show;
use trial_rows::words::{first_word, history, number};

/// Each row is a walk from a critical cut, below which all events are good: the cut, from which position on operations are wanted,
/// and the events. What the state then has prepared and in its text, and its number of runs, are told too.
pub fn run<'a, L: Ledger>(
    alloc: Global,
    rows: &'a str,
    report: &mut Report<'a>,
    steps: &mut Steps<L>,
) -> Result<(), Fault> {
    for row in rows.split('\n') {
        let asked = report.ask(row)?;
        let answer = answer(alloc, asked, steps)?;
        report.compare(answer.as_str())?;
    }
    Ok(())
}

fn answer<L: Ledger>(alloc: Global, asked: &str, steps: &mut Steps<L>) -> Result<String, Fault> {
    let (cut, rest) = first_word(asked);
    let (from, rest) = first_word(rest);
    let gathered = gather(alloc, rest)?;
    walked(alloc, &gathered, number(cut)?, number(from)?, steps)
}

/// More events never come.
const MOST: u32 = 1_000_000;

/// The events of a history, and its graph.
#[derive(Drop)]
struct Gathered {
    events: Vec<Event>,
    graph: Graph,
}

fn gather(alloc: Global, rest: &str) -> Result<Gathered, Fault>
    ensures { IfOk result (λ g. g.graph ≡ g.events.items) }
{
    let mut gathered = Gathered {
        events: Vec::new(alloc),
        graph: Graph::new(alloc)?,
    };
    for e in &history(alloc, rest)? {
        put(&mut gathered, e)?;
    }
    Ok(gathered)
}

/// Puts an event behind the others, where it is judged good.
fn put(gathered: &mut Gathered, e: &Event) -> Result<(), Fault>
    requires { gathered.old.graph ≡ gathered.old.events.items }
    ensures { OnOk result (gathered.new.graph ≡ gathered.new.events.items) }
{
    let verdict = gathered.graph.judge(e)?;
    if gathered.graph.count() >= MOST {
        return Err(Fault::Unreadable);
    }
    if let Verdict::Good = verdict {
        gathered.graph.admit(e)?;
        gathered.events.push(e.copy()?)?;
    }
    Ok(())
}

fn walked<L: Ledger>(
    alloc: Global,
    gathered: &Gathered,
    cut: u32,
    from: u32,
    steps: &mut Steps<L>,
) -> Result<String, Fault>
    requires { gathered.now.graph ≡ gathered.now.events.items }
{
    let below = below(&gathered.events, cut)?;
    let mut state = base_of(alloc, below, steps)?;
    if from < cut || !gathered.graph.is_cut(cut) {
        return Err(Fault::Unreadable);
    }
    let walk = walk(alloc, &gathered.graph, &mut state, cut, from, steps)?;
    let mut out = show::operations(alloc, &walk.ops)?;
    if let Some((position, len)) = walk.stopped {
        show::space(&mut out)?;
        write!(out, "stopped {position} past {len}")?;
    }
    show::space(&mut out)?;
    let (prepared, text) = (state.prepared_len(), state.effect_len());
    let runs = state.runs();
    write!(out, "prepared {prepared} text {text} runs {runs}")?;
    Ok(out)
}

/// The events below a cut.
fn below(events: &[Event], cut: u32) -> Result<&[Event], Fault>
    ensures { IfOk result (λ part. part.now ≡ take cut events.now) }
{
    let cut = cut as usize;
    if cut > events.len() {
        return Err(Fault::Unreadable);
    }
    Ok(&events[..cut])
}

fn copies_of(alloc: Global, events: &[Event]) -> Result<Vec<Event>, NoMem>
    ensures { IfOk result (λ copies. copies.items ≡ events.now) }
{
    let mut copies = Vec::new(alloc);
    for e in events {
        copies.push(e.copy()?)?;
    }
    Ok(copies)
}

/// A replica of events, of which each is good.
#[tactic(auto, using(crate::proofs::Loaded::loaded_good, crate::proofs::Loaded::loaded_held))]
fn loaded<L: Ledger>(
    alloc: Global,
    events: Vec<Event>,
    steps: &mut Steps<L>,
) -> Result<Replica, Fault>
    ensures good { IfOk result (λ r. verdicts.IsGood events.items) }
    ensures held { IfOk result (λ r. r.held ≡ events.items) }
{
    let limits = Limits::program();
    if events.len() > limits.events() as usize {
        return Err(Fault::Unreadable);
    }
    match Replica::from_events(alloc, events, limits, steps) {
        Ok(replica) => Ok(replica),
        Err(LoadFault::OutOfMemory) => Err(Fault::OutOfMemory),
        Err(LoadFault::BadEvent { .. }) => Err(Fault::Unreadable),
    }
}

/// A state of the text of good events, as a base.
fn base_of<L: Ledger>(alloc: Global, events: &[Event], steps: &mut Steps<L>) -> Result<State, Fault>
    ensures good { IfOk result (λ s. verdicts.IsGood events.now) }
    ensures base { IfOk result (λ s. StandsFor s (length (model.text_of events.now)) [] []) }
{
    let copies = copies_of(alloc, events)?;
    let replica = loaded(alloc, copies, steps)?;
    Ok(State::base(alloc, replica.len())?)
}
