//! Rows of a counted order tree: calls with their answers.
//!
//! A run is told by its place, from 1, and place 0 stands before all. It is written `7+2/1/in`: the number of its first character, its
//! length, its prepared number, and whether it is in the text.

use crate::order::{Order, States};
use crate::order_sizes::{cut_full_leaves, make_drawn, type_all};
use ew_model::node::Node;
use ew_model::steps::Steps;
use std::alloc::Global;
use std::sync::ledger::Ledger;
use trial_rows::fault::Fault;
use trial_rows::report::Report;
use trial_rows::show;
use trial_rows::words::{first_word, number, two_numbers};
use walker_record::Record;

/// Rows of one tree, from an empty one on.
pub fn run<'a, L: Ledger>(
    alloc: Global,
    rows: &'a str,
    report: &mut Report<'a>,
    steps: &mut Steps<L>,
) -> Result<(), Fault> {
    let mut order = Order::new(alloc)?;
    for row in rows.split('\n') {
        let asked = report.ask(row)?;
        let answer = answer(alloc, &mut order, asked, steps)?;
        report.compare(answer.as_str())?;
    }
    Ok(())
}

fn answer<L: Ledger>(
    alloc: Global,
    order: &mut Order,
    asked: &str,
    steps: &mut Steps<L>,
) -> Result<String, Fault> {
    let (verb, rest) = first_word(asked);
    match verb {
        "typed" => type_all(alloc, rest, steps),
        "full" => cut_full_leaves(alloc, number(rest)?, steps),
        "drawn" => {
            let (count, seed) = two_numbers(rest)?;
            make_drawn(alloc, count, seed, steps)
        }
        "insert" => insert(alloc, order, rest, steps),
        "split" | "share" => cut(alloc, order, verb, rest, steps),
        "change" => change(alloc, order, rest, steps),
        "relabel" | "about" => relabel(alloc, order, verb, rest, steps),
        _ => ask(alloc, order, verb, rest, steps),
    }
}

/// What is asked of the whole tree, or of one of its characters.
fn ask<L: Ledger>(
    alloc: Global,
    order: &Order,
    verb: &str,
    rest: &str,
    steps: &mut Steps<L>,
) -> Result<String, Fault> {
    match verb {
        "runs" => runs(alloc, order, steps),
        "levels" => Ok(show::number(alloc, order.tree().depth())?),
        "prepared" => character(alloc, order.find_prepared(number(rest)?, steps)),
        "effect" => character(alloc, order.find_effect(number(rest)?, steps)),
        _ => ask_label(alloc, order, verb, rest, steps),
    }
}

/// What is asked of a label: that of the run at a place, or with `+` behind it the next one.
fn ask_label<L: Ledger>(
    alloc: Global,
    order: &Order,
    verb: &str,
    rest: &str,
    steps: &mut Steps<L>,
) -> Result<String, Fault> {
    let label = match rest.strip_suffix('+') {
        Some(place) => order.label_at(number(place)? as usize).saturating_add(1),
        None => order.label_at(number(rest)? as usize),
    };
    let tree = order.tree();
    match verb {
        "run" => run_at(alloc, order, label, steps),
        "ahead" => {
            let own = tree.ahead(label, steps).map(|(own, _)| own);
            place_at(alloc, order, own)
        }
        "known" => place_at(alloc, order, tree.next_known(label, steps)),
        "before" => Ok(show::number(alloc, tree.effect_before(label, steps))?),
        "room" => Ok(format!(in alloc; "{}", tree.has_room(label, steps))?),
        _ => Err(Fault::Unreadable),
    }
}

/// A run in words.
fn shown(alloc: Global, run: &Record) -> Result<String, Fault> {
    let first = match run.from {
        Node::Root => 0,
        Node::Base(i) | Node::Event(i) => i,
    };
    let text = if run.effect { "in" } else { "out" };
    Ok(format!(in alloc; "{first}+{}/{}/{text}", run.len, run.prepared)?)
}

fn run_at<L: Ledger>(
    alloc: Global,
    order: &Order,
    label: u64,
    steps: &mut Steps<L>,
) -> Result<String, Fault> {
    match order.run(label, steps) {
        Some(run) => shown(alloc, &run),
        None => Ok(show::text(alloc, "refused")?),
    }
}

fn runs<L: Ledger>(alloc: Global, order: &Order, steps: &mut Steps<L>) -> Result<String, Fault> {
    let mut out = String::new(alloc);
    for label in order.labels() {
        let run = order.run(*label, steps).ok_or(Fault::Unreadable)?;
        show::space(&mut out)?;
        out.push_str(shown(alloc, &run)?.as_str())?;
    }
    Ok(out)
}

/// A place, or that there is none.
fn place(alloc: Global, place: Option<usize>, none: &str) -> Result<String, Fault> {
    match place {
        Some(place) => Ok(format!(in alloc; "{place}")?),
        None => Ok(show::text(alloc, none)?),
    }
}

/// The place of the run at a label.
fn place_at(alloc: Global, order: &Order, label: Option<u64>) -> Result<String, Fault> {
    let found = match label {
        Some(label) => order.place_of(label),
        None => None,
    };
    place(alloc, found, "none")
}

/// A character, by the place of its run and its number there.
fn character(alloc: Global, found: Option<(usize, u32)>) -> Result<String, Fault> {
    match found {
        Some((place, number)) => Ok(format!(in alloc; "{place}:{number}")?),
        None => Ok(show::text(alloc, "refused")?),
    }
}

/// `1 in`: the prepared number, and whether the characters are in the text.
fn states(words: &str) -> Result<States, Fault> {
    let (prepared, effect) = first_word(words);
    Ok(States {
        prepared: number(prepared)?,
        effect: effect == "in",
    })
}

/// A new run behind a place: `PLACE LENGTH PREPARED in`. Answers its place.
fn insert<L: Ledger>(
    alloc: Global,
    order: &mut Order,
    rest: &str,
    steps: &mut Steps<L>,
) -> Result<String, Fault> {
    let (behind, rest) = first_word(rest);
    let (len, rest) = first_word(rest);
    let own = order.put(number(behind)? as usize, number(len)?, states(rest)?, steps)?;
    place(alloc, own, "refused")
}

/// Cuts the run at a place: `PLACE AT`. Answers the place of the second part.
fn cut<L: Ledger>(
    alloc: Global,
    order: &mut Order,
    verb: &str,
    rest: &str,
    steps: &mut Steps<L>,
) -> Result<String, Fault> {
    let (run, at) = two_numbers(rest)?;
    let own = match verb {
        "share" => order.share(run as usize, at, steps)?,
        _ => order.split(run as usize, at, steps)?,
    };
    place(alloc, own, "refused")
}

/// Gives the characters of a run other states: `PLACE PREPARED in`. Answers the run.
fn change<L: Ledger>(
    alloc: Global,
    order: &mut Order,
    rest: &str,
    steps: &mut Steps<L>,
) -> Result<String, Fault> {
    let (word, rest) = first_word(rest);
    let place = number(word)? as usize;
    if !order.change(place, states(rest)?, steps) {
        return Ok(show::text(alloc, "refused")?);
    }
    run_at(alloc, order, order.label_at(place), steps)
}

/// Gives new labels to all runs, or to those about a place. Answers how many got one.
fn relabel<L: Ledger>(
    alloc: Global,
    order: &mut Order,
    verb: &str,
    rest: &str,
    steps: &mut Steps<L>,
) -> Result<String, Fault> {
    if verb == "relabel" {
        order.relabel(steps)?;
        return Ok(show::number(alloc, order.tree().runs())?);
    }
    let given = order.relabel_about(number(rest)? as usize, steps)?;
    place(alloc, given, "refused")
}
