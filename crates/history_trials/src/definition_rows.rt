//! Rows of two definitions: what a version knows, and how many touches a walk needs.

use crate::plain::{ancestors, touches};
use std::alloc::Global;
use trial_rows::fault::Fault;
use trial_rows::report::Report;
use trial_rows::show;
use trial_rows::words::{both_sides, first_word, history, ids, number};

/// More events never come.
const MOST: usize = 1_000_000;

pub fn run<'a>(alloc: Global, rows: &'a str, report: &mut Report<'a>) -> Result<(), Fault> {
    for row in rows.split('\n') {
        let asked = report.ask(row)?;
        let answer = answer(alloc, asked)?;
        report.compare(answer.as_str())?;
    }
    Ok(())
}

/// `known VERSION | EVENTS` or `touches CUT | EVENTS`.
fn answer(alloc: Global, asked: &str) -> Result<String, Fault> {
    let (verb, rest) = first_word(asked);
    let (about, rest) = both_sides(rest)?;
    match verb {
        "known" => known(alloc, about, rest),
        "touches" => touched(alloc, number(about)?, rest),
        _ => Err(Fault::Unreadable),
    }
}

/// All that a version knows.
fn known(alloc: Global, version: &str, rest: &str) -> Result<String, Fault> {
    let version = ids(alloc, version)?;
    let events = history(alloc, rest)?;
    Ok(show::ids(alloc, &ancestors(alloc, &events, &version)?)?)
}

fn touched(alloc: Global, cut: u32, rest: &str) -> Result<String, Fault> {
    let events = history(alloc, rest)?;
    if events.len() > MOST {
        return Err(Fault::Unreadable);
    }
    let count = touches(alloc, &events, cut as usize)?;
    Ok(format!(in alloc; "{count}")?)
}
