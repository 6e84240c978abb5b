//! Rows of walks over whole histories.

ghost use Rattle.std.specs.Prelude.{◌≡◌, [], option_map, IfOk};
ghost use Rattle.ew_model.specs.Verdicts.{first_bad};
ghost use Rattle.advance_retreat.specs.Standing.{StandsFor};
ghost use Rattle.transform.specs.Walking.{bad_at};

use event_graph::Graph;
use ew_model::NoMem;
use ew_model::event::Event;
use ew_model::steps::Steps;
use ew_model::verdict::Verdict;
use std::alloc::Global;
use std::fmt::Write;
use std::sync::ledger::Ledger;
use transform::{State, Walk, replay, walk};
use trial_rows::fault::Fault;
use trial_rows::report::Report;
use trial_rows::show;
use trial_rows::words::{first_word, history, number};

/// Each row is a walk over the good events of a history: from which position on operations are wanted, and the events. It answers the
/// operations, and where the walk stopped; and where the words are `with its state`, how many characters are prepared and in the text
/// then, and in how many runs.
pub fn run<'a, L: Ledger>(
    alloc: Global,
    words: &str,
    rows: &'a str,
    report: &mut Report<'a>,
    steps: &mut Steps<L>,
) -> Result<(), Fault> {
    for row in rows.split('\n') {
        let asked = report.ask(row)?;
        let (from, rest) = first_word(asked);
        let graph = graph_of(alloc, rest)?;
        let tells_state = words == "with its state";
        let answer = walked(alloc, &graph, number(from)?, tells_state, steps)?;
        report.compare(answer.as_str())?;
    }
    Ok(())
}

/// Each row is the replay of a history, of which each event is good.
pub fn run_replays<'a, L: Ledger>(
    alloc: Global,
    rows: &'a str,
    report: &mut Report<'a>,
    steps: &mut Steps<L>,
) -> Result<(), Fault> {
    for row in rows.split('\n') {
        let asked = report.ask(row)?;
        let graph = graph_of(alloc, asked)?;
        let answer = replayed(alloc, &graph, steps)?;
        report.compare(answer.as_str())?;
    }
    Ok(())
}

fn replayed<L: Ledger>(
    alloc: Global,
    graph: &Graph,
    steps: &mut Steps<L>,
) -> Result<String, Fault> {
    let mut state = State::base(alloc, 0)?;
    let walk = walk_over(alloc, graph, &mut state, 0, steps)?;
    if walk.stopped.is_some() {
        return Err(Fault::Unreadable);
    }
    let ops = replay(alloc, graph, steps)?;
    Ok(show::operations(alloc, &ops)?)
}

/// More events never come.
const MOST: u32 = 1_000_000;

/// An event comes: it is taken in where it is judged good.
fn come(graph: &mut Graph, e: &Event) -> Result<(), Fault> {
    let verdict = graph.judge(e)?;
    if graph.count() >= MOST {
        return Err(Fault::Unreadable);
    }
    if let Verdict::Good = verdict {
        graph.admit(e)?;
    }
    Ok(())
}

fn graph_of(alloc: Global, rest: &str) -> Result<Graph, Fault> {
    let mut graph = Graph::new(alloc)?;
    for e in &history(alloc, rest)? {
        come(&mut graph, e)?;
    }
    Ok(graph)
}

fn walked<L: Ledger>(
    alloc: Global,
    graph: &Graph,
    from: u32,
    tells_state: bool,
    steps: &mut Steps<L>,
) -> Result<String, Fault> {
    let mut state = State::base(alloc, 0)?;
    let walk = walk_over(alloc, graph, &mut state, from, steps)?;
    let mut out = show::operations(alloc, &walk.ops)?;
    if let Some((position, len)) = walk.stopped {
        show::space(&mut out)?;
        write!(out, "stopped {position} past {len}")?;
    }
    if tells_state {
        show::space(&mut out)?;
        let (prepared, text) = (state.prepared_len(), state.effect_len());
        write!(out, "prepared {prepared} text {text} runs {}", state.runs())?;
    }
    Ok(out)
}

/// A walk from the first event on.
fn walk_over<L: Ledger>(
    alloc: Global,
    graph: &Graph,
    state: &mut State,
    from: u32,
    steps: &mut Steps<L>,
) -> Result<Walk, NoMem>
    requires { StandsFor state.old 0 [] [] }
    ensures { IfOk result (λ w. option_map bad_at w.stopped ≡ first_bad graph.now) }
{
    walk(alloc, graph, state, 0, from, steps)
}
