//! Rows of a graph: events come, and it is asked about them.

ghost use Rattle.std.specs.Prelude.{◌≡◌, ◌<◌, ◌+◌, nat_lt, length, IsTrue};
ghost use Rattle.std.specs.List.{All, list_all};
ghost use Rattle.std.specs.List.Sorted.{IsStrictlyIncreasing};
ghost use Rattle.replica.specs.Fronts.{IsFront};

use agreement::agrees;
use ancestors::{Spans, closure, contains, diff, is_reduced};
use event_graph::Graph;
use ew_model::event::Event;
use ew_model::name::Name;
use ew_model::verdict::Verdict;
use frontier::Parentage;
use std::alloc::Global;
use std::fmt::Write;
use trial_rows::fault::Fault;
use trial_rows::report::Report;
use trial_rows::show;
use trial_rows::words::{
    both_sides, event, first_word, history, id, ids, number, numbers, two_numbers, typed,
};

/// More events never come.
const MOST: u32 = 1_000_000;

pub fn run<'a>(alloc: Global, rows: &'a str, report: &mut Report<'a>) -> Result<(), Fault> {
    let mut graph = Graph::new(alloc)?;
    for row in rows.split('\n') {
        let asked = report.ask(row)?;
        let answer = answer(alloc, &mut graph, asked)?;
        report.compare(answer.as_str())?;
    }
    Ok(())
}

fn answer(alloc: Global, graph: &mut Graph, asked: &str) -> Result<String, Fault> {
    let (verb, rest) = first_word(asked);
    match verb {
        "come" => come_all(alloc, graph, rest),
        "lines" => lines(alloc, graph, rest),
        "come_and_go" => come_and_go(alloc, graph, rest),
        _ => ask(alloc, graph, verb, rest),
    }
}

fn ask(alloc: Global, graph: &Graph, verb: &str, rest: &str) -> Result<String, Fault> {
    match verb {
        "judge" => judge(alloc, graph, rest),
        "find" => find(alloc, graph, rest),
        "missing" => missing(alloc, graph, rest),
        "part" => part(alloc, graph, rest),
        "agents" => agents(alloc, graph),
        "heads" => Ok(show::numbers(alloc, graph.frontier().as_slice())?),
        "cuts" => cuts(alloc, graph),
        "cut" => Ok(show::yes_or_no(alloc, graph.is_cut(number(rest)?))?),
        "latest" => Ok(show::number(alloc, graph.latest_cut(number(rest)?))?),
        "agrees" => compare(alloc, graph, rest),
        _ => ask_positions(alloc, graph, verb, rest),
    }
}

/// What is asked of positions.
fn ask_positions(alloc: Global, graph: &Graph, verb: &str, rest: &str) -> Result<String, Fault> {
    match verb {
        "at" => at(alloc, graph, rest),
        "closure" => known(alloc, graph, rest),
        "contains" => holds(alloc, graph, rest),
        "reduced" => reduced(alloc, graph, graph.frontier().as_slice()),
        "diff" => differ(alloc, graph, rest),
        "neighbours" => neighbours(alloc, graph, rest),
        _ => Err(Fault::Unreadable),
    }
}

/// An event comes: it is taken in where it is judged good.
#[tactic(auto, using(crate::proofs::Fronts::same_front, crate::proofs::Fronts::next_front))]
fn come(graph: &mut Graph, e: &Event) -> Result<Verdict, Fault>
    ensures { IsFront graph.old graph.new }
{
    let verdict = graph.judge(e)?;
    if graph.count() >= MOST {
        return Err(Fault::Unreadable);
    }
    if let Verdict::Good = verdict {
        graph.admit(e)?;
    }
    Ok(verdict)
}

/// The verdicts on the events that come.
#[tactic(auto, using(crate::proofs::Fronts::same_front, replica::proofs::Ways::front_on))]
fn come_all(alloc: Global, graph: &mut Graph, rest: &str) -> Result<String, Fault>
    ensures { IsFront graph.old graph.new }
{
    let mut out = String::new(alloc);
    for e in &history(alloc, rest)? {
        let verdict = come(graph, e)?;
        show::space(&mut out)?;
        write!(out, "{verdict:?}")?;
    }
    Ok(out)
}

/// Events come, and are taken out again. Answers the verdicts on them, and how many events there were.
#[tactic(auto, using(replica::proofs::Fronts::hold_stands))]
fn come_and_go(alloc: Global, graph: &mut Graph, rest: &str) -> Result<String, Fault> {
    let hold = graph.hold()?;
    let verdicts = come_all(alloc, graph, rest)?;
    let count = graph.count();
    graph.drop_tail(hold);
    Ok(format!(in alloc; "{verdicts}, {count} events")?)
}

/// So many events, typed by as many agents in turn, each on its own line.
fn lines(alloc: Global, graph: &mut Graph, rest: &str) -> Result<String, Fault> {
    let (agents, count) = two_numbers(rest)?;
    if agents == 0 || agents > 17 {
        return Err(Fault::Unreadable);
    }
    for position in 0..count {
        let agent = Name::read(&[b'a' + (position % agents) as u8])?;
        come(graph, &typed(alloc, agent, position / agents)?)?;
    }
    Ok(show::number(alloc, graph.count())?)
}

fn judge(alloc: Global, graph: &Graph, rest: &str) -> Result<String, Fault> {
    let verdict = graph.judge(&event(alloc, rest)?)?;
    Ok(format!(in alloc; "{verdict:?}")?)
}

/// The position of an id.
fn find(alloc: Global, graph: &Graph, rest: &str) -> Result<String, Fault> {
    Ok(show::number_or_none(alloc, graph.find(&id(rest)?))?)
}

/// The first of the ids that isn't held.
fn missing(alloc: Global, graph: &Graph, rest: &str) -> Result<String, Fault> {
    match graph.has(&ids(alloc, rest)?) {
        Some(id) => Ok(format!(in alloc; "{id}")?),
        None => Ok(show::text(alloc, "none")?),
    }
}

/// The ids of what a version holds, the positions of its heads and its critical cuts; or the first of its ids that isn't held.
fn part(alloc: Global, graph: &Graph, rest: &str) -> Result<String, Fault> {
    let version = ids(alloc, rest)?;
    if let Some(id) = graph.has(version.as_slice()) {
        return Ok(format!(in alloc; "unknown {id}")?);
    }
    let part = graph.subgraph(version.as_slice())?;
    let mut held = Vec::new(alloc);
    for position in 0..part.count() {
        held.push(part.id_at(position))?;
    }
    let held = show::ids(alloc, &held)?;
    let heads = show::numbers(alloc, part.frontier().as_slice())?;
    let cuts = cuts(alloc, &part)?;
    Ok(format!(in alloc; "{held} | {heads} | {cuts}")?)
}

/// The agents, and how many events each has.
fn agents(alloc: Global, graph: &Graph) -> Result<String, Fault> {
    let mut out = String::new(alloc);
    for (agent, _) in &graph.summary()? {
        let count = graph.count_of(agent);
        show::space(&mut out)?;
        write!(out, "{agent} {count}")?;
    }
    Ok(out)
}

/// The critical cuts.
fn cuts(alloc: Global, graph: &Graph) -> Result<String, Fault> {
    let mut cuts = Vec::new(alloc);
    for cut in 0..graph.count().saturating_add(2) {
        if graph.is_cut(cut) {
            cuts.push(cut)?;
        }
    }
    Ok(show::numbers(alloc, &cuts)?)
}

/// Whether the graph agrees with that of other events, and that with it.
fn compare(alloc: Global, graph: &Graph, rest: &str) -> Result<String, Fault> {
    let mut other = Graph::new(alloc)?;
    for e in &history(alloc, rest)? {
        come(&mut other, e)?;
    }
    let one = agrees(graph, &other);
    if one != agrees(&other, graph) {
        return Ok(show::text(alloc, "one of both")?);
    }
    Ok(show::yes_or_no(alloc, one)?)
}

/// The id and the operation at a position.
fn at(alloc: Global, graph: &Graph, rest: &str) -> Result<String, Fault> {
    let position = number(rest)?;
    if position >= graph.count() {
        return Err(Fault::Unreadable);
    }
    let id = graph.id_at(position);
    let op = graph.op_at(position);
    let e = graph.event_at(position)?;
    let parents = show::ids(alloc, e.parents.as_slice())?;
    Ok(format!(in alloc; "{id} <{parents}> {op:?}")?)
}

/// Whether all are positions of events.
fn are_there<G: Parentage>(graph: &G, positions: &[u32]) -> bool
    ensures { IsTrue result → All (λ p. p < length (G.parents graph.now)) positions.now }
{
    are_below(graph.count(), positions)
}

fn are_below(count: u32, numbers: &[u32]) -> bool
    ensures { result ≡ list_all (λ p. nat_lt p count) numbers.now }
{
    numbers.iter().all(|p| *p < count)
}

/// How many spans there are, and the first two.
fn show_spans(alloc: Global, spans: &Spans) -> Result<String, Fault> {
    let spans = spans.as_slice();
    let mut out = show::number(alloc, show::count(spans.len()))?;
    for span in spans.iter().take(2) {
        let (from, to) = (span.from, span.to);
        write!(out, " {from}..{to}")?;
    }
    Ok(out)
}

fn known<G: Parentage>(alloc: Global, graph: &G, rest: &str) -> Result<String, Fault> {
    let version = numbers(alloc, rest)?;
    if !are_there(graph, &version) {
        return Err(Fault::Unreadable);
    }
    show_spans(alloc, &closure(alloc, graph, &version)?)
}

fn holds<G: Parentage>(alloc: Global, graph: &G, rest: &str) -> Result<String, Fault> {
    let (version, position) = both_sides(rest)?;
    let version = numbers(alloc, version)?;
    let position = number(position)?;
    if !are_there(graph, &version) || position >= graph.count() {
        return Err(Fault::Unreadable);
    }
    let holds = contains(alloc, graph, &version, position)?;
    Ok(show::yes_or_no(alloc, holds)?)
}

/// Whether these heads are reduced.
fn reduced<G: Parentage>(alloc: Global, graph: &G, heads: &[u32]) -> Result<String, Fault>
    requires { IsStrictlyIncreasing heads.now }
{
    if !are_there(graph, heads) {
        return Err(Fault::Unreadable);
    }
    Ok(show::yes_or_no(alloc, is_reduced(alloc, graph, heads)?)?)
}

/// What each of two versions has alone.
fn differ<G: Parentage>(alloc: Global, graph: &G, rest: &str) -> Result<String, Fault> {
    let (one, other) = both_sides(rest)?;
    let one = numbers(alloc, one)?;
    let other = numbers(alloc, other)?;
    if !are_there(graph, &one) || !are_there(graph, &other) {
        return Err(Fault::Unreadable);
    }
    let (left, right) = diff(alloc, graph, &one, &other, 0)?;
    let left = show_spans(alloc, &left)?;
    let right = show_spans(alloc, &right)?;
    Ok(format!(in alloc; "{left} | {right}")?)
}

/// How many of the first events of a line are as they should be: the next one has itself alone, and none holds the next one.
fn neighbours<G: Parentage>(alloc: Global, graph: &G, rest: &str) -> Result<String, Fault> {
    let count = number(rest)?;
    if count >= graph.count() {
        return Err(Fault::Unreadable);
    }
    let mut right: u32 = 0;
    for position in 0..count {
        if are_neighbours(alloc, graph, position)? {
            right = right.saturating_add(1);
        }
    }
    Ok(show::number(alloc, right)?)
}

#[tactic(auto, using(crate::proofs::Below::one_below))]
fn are_neighbours<G: Parentage>(alloc: Global, graph: &G, position: u32) -> Result<bool, Fault>
    requires { position + 1 < length (G.parents graph.now) }
{
    let _count = graph.count();
    let (left, _right) = diff(alloc, graph, &[position + 1], &[position], 0)?;
    Ok(left.as_slice().len() == 1 && !contains(alloc, graph, &[position], position + 1)?)
}
