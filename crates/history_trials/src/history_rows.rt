//! Rows of a history as it is kept: events come, or are left, and it is asked about them.

use crate::kept::Kept;
use event_runs::EventRuns;
use frontier::Parentage;
use std::alloc::Global;
use trial_rows::fault::Fault;
use trial_rows::report::Report;
use trial_rows::show;
use trial_rows::words::{first_word, history, id, number};

/// The rows of a group go on from one another.
pub fn run<'a>(alloc: Global, rows: &'a str, report: &mut Report<'a>) -> Result<(), Fault> {
    let mut kept = Kept::new(alloc)?;
    for row in rows.split('\n') {
        let (verb, rest) = first_word(report.ask(row)?);
        kept = change(alloc, kept, verb, rest)?;
        let answer = answer(alloc, &kept, verb, rest)?;
        report.compare(answer.as_str())?;
    }
    Ok(())
}

fn change(alloc: Global, kept: Kept, verb: &str, rest: &str) -> Result<Kept, Fault> {
    match verb {
        "come" => come_all(alloc, kept, rest),
        "leave" => kept.leave(alloc, number(rest)?),
        _ => Ok(kept),
    }
}

fn come_all(alloc: Global, kept: Kept, rest: &str) -> Result<Kept, Fault> {
    let mut kept = kept;
    for e in &history(alloc, rest)? {
        kept = kept.come(alloc, e)?;
    }
    Ok(kept)
}

fn answer(alloc: Global, kept: &Kept, verb: &str, rest: &str) -> Result<String, Fault> {
    match verb {
        "come" | "leave" => runs(alloc, kept),
        "starts" => starts(alloc, &kept.events),
        "at" => at(alloc, &kept.events, number(rest)?),
        "find" => Ok(show::number_or_none(alloc, kept.ids.position(&id(rest)?))?),
        "cuts" => Ok(show::numbers(alloc, &kept.cuts.list_cuts()?)?),
        "heads" => Ok(show::numbers(alloc, kept.heads.as_slice())?),
        _ => Err(Fault::Unreadable),
    }
}

/// How many runs the events, the ids and the cuts make.
fn runs(alloc: Global, kept: &Kept) -> Result<String, Fault> {
    let (events, ids, cuts) = (kept.events.runs(), kept.ids.runs(), kept.cuts.runs());
    Ok(format!(in alloc; "{events} {ids} {cuts}")?)
}

/// Where the chain of each event begins.
fn starts(alloc: Global, events: &EventRuns) -> Result<String, Fault> {
    let mut starts = Vec::new(alloc);
    for position in 0..events.count() {
        starts.push(events.chain_start(position))?;
    }
    Ok(show::numbers(alloc, &starts)?)
}

/// The parents and the operation at a position.
fn at(alloc: Global, events: &EventRuns, position: u32) -> Result<String, Fault> {
    if position >= events.count() {
        return Err(Fault::Unreadable);
    }
    let op = events.op_at(position);
    let parents = show::numbers(alloc, events.parents_at(position).as_slice())?;
    Ok(format!(in alloc; "<{parents}> {op:?}")?)
}
