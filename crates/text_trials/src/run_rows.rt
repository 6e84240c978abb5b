//! Rows of runs of characters with their states.

use ew_model::node::Node;
use ew_model::run::Run;
use std::alloc::Global;
use trial_rows::fault::Fault;
use trial_rows::show;
use trial_rows::words::{both_sides, first_word, number};
use walker_record::Record;

pub fn answer(alloc: Global, asked: &str) -> Result<String, Fault> {
    let (verb, rest) = first_word(asked);
    match verb {
        "split" => split(alloc, rest),
        "sums" => sums(alloc, &record(rest)?),
        "joinable" => joinable(alloc, rest),
        _ => Err(Fault::Unreadable),
    }
}

/// `base 7 3 1 yes`: the kind and the number of the first node, how many nodes there are, how they are prepared, and whether
/// they are in the text.
fn record(text: &str) -> Result<Record, Fault> {
    let (kind, rest) = first_word(text);
    let (from, rest) = first_word(rest);
    let (len, rest) = first_word(rest);
    let (prepared, effect) = first_word(rest);
    let (from, len) = (number(from)?, number(len)?);
    let (prepared, effect) = (number(prepared)?, effect == "yes");
    if u64::from(from) + u64::from(len) > 1 << 32 {
        return Err(Fault::Unreadable);
    }
    let from = match kind {
        "base" => Node::Base(from),
        "event" => Node::Event(from),
        _ => return Err(Fault::Unreadable),
    };
    Ok(Record {
        from,
        len,
        prepared,
        effect,
    })
}

/// Both parts of a run that is cut, and whether they join to it, through the trait alone.
fn split(alloc: Global, rest: &str) -> Result<String, Fault> {
    let (at, rest) = first_word(rest);
    let record = record(rest)?;
    let at = number(at)?;
    let (first, second) = parts(&record, at).ok_or(Fault::Unreadable)?;
    let same = joined(&first, &second) == Some(record);
    Ok(format!(in alloc;
        "{:?} {} | {:?} {} | {same}",
        first.from, first.len, second.from, second.len
    )?)
}

fn parts<R: Run + Drop>(run: &R, at: u32) -> Option<(R, R)> {
    if at == 0 || at >= run.size() {
        return None;
    }
    Some(run.split(at))
}

fn joined<R: Run + Drop>(first: &R, second: &R) -> Option<R> {
    if first.joinable(second) && first.size() <= u32::MAX - second.size() {
        Some(first.join(second))
    } else {
        None
    }
}

/// How many characters are known, are prepared, and are in the text.
fn sums(alloc: Global, record: &Record) -> Result<String, Fault> {
    let (known, prepared) = (record.known_sum(), record.prepared_sum());
    let effect = record.effect_sum();
    Ok(format!(in alloc; "{known} {prepared} {effect}")?)
}

fn joinable(alloc: Global, rest: &str) -> Result<String, Fault> {
    let (first, second) = both_sides(rest)?;
    let (first, second) = (record(first)?, record(second)?);
    Ok(show::yes_or_no(alloc, first.joinable(&second))?)
}
