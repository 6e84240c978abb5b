//! The rows of a group, under its limits.

use crate::run::{Ran, run_line};
use crate::words::number;
use crate::world::World;
use ew_model::limits::Limits;
use trial_rows::fault::Fault;
use trial_rows::report::Report;
use trial_rows::words::first_word;

/// One of the four numbers of limits, and what stands behind it.
fn limit(text: &str) -> Result<(u32, &str), Fault> {
    let (word, rest) = first_word(text);
    let limit = u32::try_from(number(word)?).ok().ok_or(Fault::Unreadable)?;
    Ok((limit, rest))
}

/// Those of the program, or events, and then waiting events, input and body.
fn limits(first: &str, rest: &str) -> Result<Limits, Fault> {
    if first == "program" {
        return Ok(Limits::program());
    }
    let (events, _) = limit(first)?;
    let (waiting, rest) = limit(rest)?;
    let (input, rest) = limit(rest)?;
    let (body, _) = limit(rest)?;
    Limits::new(events, waiting, input, body).ok_or(Fault::Unreadable)
}

/// Carries the rows out in turn.
pub fn run_rows<'a>(
    world: &mut World,
    first: &str,
    rest: &str,
    rows: &'a str,
    report: &mut Report<'a>,
) -> Result<(), Fault> {
    world.begin(limits(first, rest)?);
    let mut last = None;
    for row in rows.split('\n') {
        report.see(row);
        if !world.make_ready(row)? {
            run_row(world, &mut last, row, report)?;
        }
    }
    Ok(())
}

/// Carries out a row that has an answer.
fn run_row<'a>(
    world: &mut World,
    last: &mut Option<Ran>,
    row: &'a str,
    report: &mut Report<'a>,
) -> Result<(), Fault> {
    let (verb, rest) = first_word(report.ask(row)?);
    if verb == "run" || verb == "ends" {
        *last = Some(run_line(world, rest)?);
    }
    let answer = answer(world, last.as_ref(), verb, rest)?;
    Ok(report.compare(answer.as_str())?)
}

fn answer(world: &World, last: Option<&Ran>, verb: &str, rest: &str) -> Result<String, Fault> {
    let alloc = world.alloc;
    if verb == "same" {
        return Ok(String::from_str(alloc, world.same(rest)?)?);
    }
    if verb == "kept" {
        return Ok(String::from_str(alloc, world.kept(rest)?)?);
    }
    let last = last.ok_or(Fault::Unreadable)?;
    match verb {
        "run" => Ok(last.answer(alloc)?),
        "ends" => Ok(last.ended(alloc)?),
        "printed" => Ok(String::from_str(alloc, last.printed(world.named(rest)?))?),
        "calls" => Ok(last.calls(world)?),
        "flushed" => Ok(last.flushed(alloc)?),
        _ => Err(Fault::Unreadable),
    }
}
