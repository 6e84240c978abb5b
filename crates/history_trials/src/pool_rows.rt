//! Rows of events that wait, beside a graph.

ghost use Rattle.std.specs.Prelude.{List, OnOk};
ghost use Rattle.ew_model.specs.declared.event.Event.{Event};
ghost use Rattle.waiting_pool.specs.Knowing.{IsBehind};
ghost use Rattle.waiting_pool.specs.Waiting.{Waiting};

use event_graph::Graph;
use ew_model::event::Event;
use ew_model::id::Id;
use ew_model::name::Name;
use ew_model::verdict::Verdict;
use std::alloc::Global;
use std::fmt::Write;
use trial_rows::fault::Fault;
use trial_rows::report::Report;
use trial_rows::show;
use trial_rows::words::{first_word, history, id, number, typed};
use waiting_pool::{Pool, PutFault};

/// More events are never held.
const MOST: u32 = 1_000_000;

/// A pool with room for so many, beside an empty graph.
#[tactic(auto, using(waiting_pool::proofs::Behind::behind_none))]
pub fn run<'a>(
    alloc: Global,
    room: &str,
    rows: &'a str,
    report: &mut Report<'a>,
) -> Result<(), Fault> {
    let mut pool = Pool::new(alloc, number(room)?)?;
    let mut graph = Graph::new(alloc)?;
    for row in rows.split('\n') {
        let asked = report.ask(row)?;
        let answer = answer(alloc, &mut pool, &mut graph, asked)?;
        report.compare(answer.as_str())?;
    }
    Ok(())
}

/// A pool with room for so many, alone.
pub fn run_alone<'a>(
    alloc: Global,
    room: &str,
    rows: &'a str,
    report: &mut Report<'a>,
) -> Result<(), Fault> {
    let mut pool = Pool::new(alloc, number(room)?)?;
    for row in rows.split('\n') {
        let asked = report.ask(row)?;
        let answer = answer_alone(alloc, &mut pool, asked)?;
        report.compare(answer.as_str())?;
    }
    Ok(())
}

fn answer(alloc: Global, pool: &mut Pool, graph: &mut Graph, asked: &str) -> Result<String, Fault>
    requires { IsBehind graph.old pool.old }
    ensures { OnOk result (IsBehind graph.new pool.new) }
{
    let (verb, rest) = first_word(asked);
    match verb {
        "come" => come_all(alloc, graph, rest),
        "settle" => settle(alloc, pool, graph, number(rest)?),
        "ready" => ready(alloc, pool, graph),
        "find" => Ok(show::number_or_none(alloc, graph.find(&id(rest)?))?),
        _ => change(alloc, pool, verb, rest),
    }
}

fn change(alloc: Global, pool: &mut Pool, verb: &str, rest: &str) -> Result<String, Fault>
    ensures { (held : List Event) → IsBehind held pool.old → IsBehind held pool.new }
{
    match verb {
        "put" => put_all(alloc, pool, rest),
        "backwards" => put_backwards(alloc, pool, number(rest)?),
        _ => ask(alloc, pool, verb, rest),
    }
}

fn answer_alone(alloc: Global, pool: &mut Pool, asked: &str) -> Result<String, Fault> {
    let (verb, rest) = first_word(asked);
    match verb {
        "take" => take(alloc, pool, &id(rest)?),
        "copied" => copied(alloc, pool),
        _ => change(alloc, pool, verb, rest),
    }
}

fn ask(alloc: Global, pool: &Pool, verb: &str, rest: &str) -> Result<String, Fault> {
    match verb {
        "waiting" => waiting(alloc, pool),
        "count" => Ok(show::number(alloc, pool.len())?),
        "waits" => Ok(show::yes_or_no(alloc, pool.find(&id(rest)?).is_some())?),
        _ => Err(Fault::Unreadable),
    }
}

/// An event comes: it is held if it is good.
#[tactic(auto, using(waiting_pool::proofs::Behind::behind_more))]
fn come(graph: &mut Graph, e: &Event) -> Result<(), Fault>
    ensures { (w : Waiting) → IsBehind graph.old w → IsBehind graph.new w }
{
    if let Verdict::Good = graph.judge(e)? {
        if graph.count() < MOST {
            graph.admit(e)?;
        }
    }
    Ok(())
}

/// Events come. Answers how many are held.
fn come_all(alloc: Global, graph: &mut Graph, rest: &str) -> Result<String, Fault>
    ensures { (w : Waiting) → IsBehind graph.old w → IsBehind graph.new w }
{
    let events = history(alloc, rest)?;
    for e in &events {
        come(graph, e)?;
    }
    Ok(show::number(alloc, graph.count())?)
}

/// Puts an event, unless one with its id waits. Answers the id of one that found the pool full.
#[tactic(auto, using(waiting_pool::proofs::Behind::behind_put))]
fn put(pool: &mut Pool, e: Event) -> Result<Option<Id>, Fault>
    ensures { (held : List Event) → IsBehind held pool.old → IsBehind held pool.new }
{
    match pool.put(e) {
        Ok(()) | Err(PutFault::Waits(_)) => Ok(None),
        Err(PutFault::Full(e)) => Ok(Some(e.id)),
        Err(PutFault::OutOfMemory(_)) => Err(Fault::OutOfMemory),
    }
}

/// Puts events. Answers how many wait then, and the ids of those that found the pool full.
fn put_all(alloc: Global, pool: &mut Pool, rest: &str) -> Result<String, Fault>
    ensures { (held : List Event) → IsBehind held pool.old → IsBehind held pool.new }
{
    let mut out = String::new(alloc);
    for e in history(alloc, rest)? {
        if let Some(id) = put(pool, e)? {
            write!(out, " {id}")?;
        }
    }
    let count = pool.len();
    Ok(format!(in alloc; "{count}{out}")?)
}

/// Puts the events of a line, the last first, but for the very first.
fn put_backwards(alloc: Global, pool: &mut Pool, count: u32) -> Result<String, Fault>
    ensures { (held : List Event) → IsBehind held pool.old → IsBehind held pool.new }
{
    let agent = Name::read(b"a")?;
    for seq in (1..count).rev() {
        let e = typed(alloc, agent, seq)?;
        put(pool, e)?;
    }
    Ok(show::number(alloc, pool.len())?)
}

/// The earliest event that is ready is held, and no longer waits.
fn settle_one(pool: &mut Pool, graph: &mut Graph) -> Result<bool, Fault>
    requires { IsBehind graph.old pool.old }
    ensures { OnOk result (IsBehind graph.new pool.new) }
{
    match pool.take_ready(graph)? {
        Some(e) => {
            come(graph, &e)?;
            Ok(true)
        }
        None => Ok(false),
    }
}

/// So are those that are ready then, at most so many. Answers how many wait still.
fn settle(alloc: Global, pool: &mut Pool, graph: &mut Graph, most: u32) -> Result<String, Fault>
    requires { IsBehind graph.old pool.old }
    ensures { OnOk result (IsBehind graph.new pool.new) }
{
    for _ in 0..most {
        if !settle_one(pool, graph)? {
            break;
        }
    }
    Ok(show::number(alloc, pool.len())?)
}

/// The id of the earliest event that is ready.
fn ready(alloc: Global, pool: &Pool, graph: &Graph) -> Result<String, Fault> {
    match pool.ready(graph) {
        Some(e) => Ok(format!(in alloc; "{}", e.id)?),
        None => Ok(show::text(alloc, "none")?),
    }
}

/// The ids of the events that wait, one after another, if they stand so at their places too.
fn waiting(alloc: Global, pool: &Pool) -> Result<String, Fault> {
    let mut ids = Vec::new(alloc);
    for waiter in pool.iter() {
        ids.push(waiter.event.id)?;
    }
    let mut again = Vec::new(alloc);
    for place in 0..pool.len() {
        again.push(pool.event(place).id)?;
    }
    if ids != again {
        return Ok(show::text(alloc, "others by place")?);
    }
    Ok(show::ids(alloc, &ids)?)
}

/// Takes an event out.
fn take(alloc: Global, pool: &mut Pool, id: &Id) -> Result<String, Fault> {
    match pool.take(id) {
        Some(e) => Ok(format!(in alloc; "{}", e.id)?),
        None => Ok(show::text(alloc, "none")?),
    }
}

/// What waits in a copy, when the first was taken out of the pool since.
fn copied(alloc: Global, pool: &mut Pool) -> Result<String, Fault> {
    let copy = pool.copy()?;
    if pool.len() == 0 {
        return Err(Fault::Unreadable);
    }
    let first = pool.event(0).id;
    take(alloc, pool, &first)?;
    waiting(alloc, &copy)
}
