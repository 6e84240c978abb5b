//! Rows of a replica: it edits and receives, and it is asked what it has.

ghost use Rattle.std.specs.Prelude.{◌≤◌, length};

use crate::pieces::{Pieces, receive_all, waiting};
use crate::readback::is_read_back;
use ew_model::event::{Event, Op};
use ew_model::limits::Limits;
use ew_model::name::Name;
use ew_model::steps::Steps;
use history_view::replay_text;
use replica::{EditFault, LoadFault, Replica, VersionFault};
use std::alloc::Global;
use std::fmt::Write;
use std::sync::ledger::Ledger;
use trial_rows::fault::Fault;
use trial_rows::report::Report;
use trial_rows::show;
use trial_rows::words::{event, first_word, history, id, ids, number, two_numbers, typed};
use undo::{UndoFault, undo};

/// The limits of the program, or so many events and so many that wait.
fn limits(words: &str) -> Result<Limits, Fault> {
    if words == "program" {
        return Ok(Limits::program());
    }
    let (events, waiting) = two_numbers(words)?;
    Limits::new(events, waiting, 64, 668).ok_or(Fault::Unreadable)
}

/// A replica within limits, from an empty one on.
pub fn run<'a, L: Ledger>(
    alloc: Global,
    words: &str,
    rows: &'a str,
    report: &mut Report<'a>,
    steps: &mut Steps<L>,
) -> Result<(), Fault> {
    let mut replica = Replica::new(alloc, limits(words)?)?;
    for row in rows.split('\n') {
        let asked = report.ask(row)?;
        let (answer, stopped) = answer(alloc, &mut replica, asked, steps)?;
        report.compare(answer.as_str())?;
        if stopped {
            report.note_stop();
        }
    }
    Ok(())
}

/// The answer, and whether receiving stopped on the way.
fn answer<L: Ledger>(
    alloc: Global,
    replica: &mut Replica,
    asked: &str,
    steps: &mut Steps<L>,
) -> Result<(String, bool), Fault> {
    let (verb, rest) = first_word(asked);
    let events = match verb {
        "receive" | "pieces" => history(alloc, rest)?,
        "backwards" => backwards(alloc, number(rest)?)?,
        _ => return Ok((change(alloc, replica, verb, rest, steps)?, false)),
    };
    let mut pieces = Pieces::new(alloc, waiting(alloc, replica, steps));
    receive_all(alloc, replica, events, &mut pieces, steps)?;
    Ok((told(alloc, verb, &pieces)?, pieces.stopped))
}

fn change<L: Ledger>(
    alloc: Global,
    replica: &mut Replica,
    verb: &str,
    rest: &str,
    steps: &mut Steps<L>,
) -> Result<String, Fault> {
    match verb {
        "ins" => insert(alloc, replica, rest, steps),
        "del" => delete(alloc, replica, rest, steps),
        "ops" => do_all(alloc, replica, rest, steps),
        "undo" => undo_from(alloc, replica, rest, steps),
        "load" => load(alloc, replica, rest, steps),
        "at" => text_at(alloc, replica, rest, steps),
        "replay" => replay(alloc, replica, steps),
        "back" => Ok(show::yes_or_no(alloc, is_read_back(alloc, replica, steps)?)?),
        _ => ask(alloc, replica, verb, rest),
    }
}

fn ask(alloc: Global, replica: &Replica, verb: &str, rest: &str) -> Result<String, Fault> {
    match verb {
        "text" => text(alloc, replica),
        "held" => held(alloc, replica),
        "awaits" => awaits(alloc, replica, rest),
        "heads" => Ok(show::ids(alloc, &replica.head_ids()?)?),
        "cuts" => cuts(alloc, replica),
        "events" => Ok(show::number(alloc, replica.count())?),
        "find" => Ok(show::number_or_none(alloc, replica.graph().find(&id(rest)?))?),
        _ => Err(Fault::Unreadable),
    }
}

/// What was told of all pieces: where all was sound the cut, if `receive` was asked for, or that it was.
fn told(alloc: Global, verb: &str, pieces: &Pieces) -> Result<String, Fault> {
    let (accepted, waiting, repeats) = (pieces.accepted, pieces.waiting, pieces.repeats);
    let mut out = format!(in alloc; "accepted {accepted} waiting {waiting} repeats {repeats}")?;
    if pieces.sound && verb == "receive" {
        write!(out, " cut {}", pieces.cut)?;
    } else {
        write!(out, " sound {}", pieces.sound)?;
    }
    for (id, refusal) in &pieces.refused {
        write!(out, " {id} {refusal:?}")?;
    }
    Ok(out)
}

/// The events of a typed text of so many characters, the last one first, and without the first.
fn backwards(alloc: Global, count: u32) -> Result<Vec<Event>, Fault> {
    let agent = Name::read(b"a")?;
    let mut events = Vec::new(alloc);
    for seq in (1..count).rev() {
        events.push(typed(alloc, agent, seq)?)?;
    }
    Ok(events)
}

/// The number of an edit's events, or why it is refused.
fn edited(alloc: Global, answer: Result<u32, EditFault>) -> Result<String, Fault> {
    match answer {
        Ok(count) => Ok(show::number(alloc, count)?),
        Err(EditFault::OutOfMemory) => Err(Fault::OutOfMemory),
        Err(fault) => Ok(format!(in alloc; "{fault:?}")?),
    }
}

fn insert<L: Ledger>(
    alloc: Global,
    replica: &mut Replica,
    rest: &str,
    steps: &mut Steps<L>,
) -> Result<String, Fault> {
    let (word, rest) = first_word(rest);
    let agent = Name::read(word.as_bytes())?;
    let (at, text) = first_word(rest);
    let at = number(at)?;
    if replica.awaits(&agent) {
        return Err(Fault::Unreadable);
    }
    edited(alloc, replica.insert(agent, at, text, steps))
}

fn delete<L: Ledger>(
    alloc: Global,
    replica: &mut Replica,
    rest: &str,
    steps: &mut Steps<L>,
) -> Result<String, Fault> {
    let (word, rest) = first_word(rest);
    let agent = Name::read(word.as_bytes())?;
    let (at, n) = two_numbers(rest)?;
    if replica.awaits(&agent) {
        return Err(Fault::Unreadable);
    }
    edited(alloc, replica.delete(agent, at, n, steps))
}

/// Operations that an agent does in a row.
fn do_all<L: Ledger>(
    alloc: Global,
    replica: &mut Replica,
    rest: &str,
    steps: &mut Steps<L>,
) -> Result<String, Fault> {
    let (word, rest) = first_word(rest);
    let agent = Name::read(word.as_bytes())?;
    let ops = operations(alloc, rest)?;
    if replica.awaits(&agent) {
        return Err(Fault::Unreadable);
    }
    edited(alloc, replica.edit(agent, &ops, steps))
}

/// The operations, one a word, each written as that of an event.
fn operations(alloc: Global, text: &str) -> Result<Vec<Op>, Fault> {
    let mut ops = Vec::new(alloc);
    for word in text.split_whitespace() {
        let named = format!(in alloc; "a:0 {word}")?;
        let e = event(alloc, named.as_str())?;
        ops.push(e.op)?;
    }
    Ok(ops)
}

/// An agent undoes so many events, from an id on.
fn undo_from<L: Ledger>(
    alloc: Global,
    replica: &mut Replica,
    rest: &str,
    steps: &mut Steps<L>,
) -> Result<String, Fault> {
    let (word, rest) = first_word(rest);
    let agent = Name::read(word.as_bytes())?;
    let (word, count) = first_word(rest);
    let first = id(word)?;
    let count = number(count)?;
    if replica.awaits(&agent) {
        return Err(Fault::Unreadable);
    }
    let undone = undo(alloc, replica, agent, first.agent, first.seq, count, steps);
    undone_by(alloc, undone)
}

/// The number of an undo's events, or why it is refused.
fn undone_by(alloc: Global, answer: Result<u32, UndoFault>) -> Result<String, Fault> {
    match answer {
        Ok(count) => Ok(show::number(alloc, count)?),
        Err(UndoFault::NoEvent(id)) => Ok(format!(in alloc; "unknown {id}")?),
        Err(UndoFault::OutOfMemory) => Err(Fault::OutOfMemory),
        Err(fault) => Ok(format!(in alloc; "{fault:?}")?),
    }
}

/// Makes the replica anew of events, or tells why not: then it is as it was.
fn load<L: Ledger>(
    alloc: Global,
    replica: &mut Replica,
    rest: &str,
    steps: &mut Steps<L>,
) -> Result<String, Fault> {
    let events = history(alloc, rest)?;
    if events.len() > replica.limits().events() as usize {
        return Err(Fault::Unreadable);
    }
    loaded(alloc, make_anew(alloc, replica, events, steps))
}

/// Makes the replica anew of events, within the limits that it has.
fn make_anew<L: Ledger>(
    alloc: Global,
    replica: &mut Replica,
    events: Vec<Event>,
    steps: &mut Steps<L>,
) -> Result<(), LoadFault>
    requires { length events.items ≤ replica.old.limits.events }
{
    *replica = Replica::from_events(alloc, events, replica.limits(), steps)?;
    Ok(())
}

fn loaded(alloc: Global, answer: Result<(), LoadFault>) -> Result<String, Fault> {
    match answer {
        Ok(()) => Ok(show::text(alloc, "loaded")?),
        Err(LoadFault::OutOfMemory) => Err(Fault::OutOfMemory),
        Err(LoadFault::BadEvent { position, verdict }) => {
            Ok(format!(in alloc; "{position} {verdict:?}")?)
        }
    }
}

fn text(alloc: Global, replica: &Replica) -> Result<String, Fault> {
    Ok(show::bytes(alloc, &replica.text()?)?)
}

/// The text of a version, or the first of its ids that isn't held.
fn text_at<L: Ledger>(
    alloc: Global,
    replica: &Replica,
    rest: &str,
    steps: &mut Steps<L>,
) -> Result<String, Fault> {
    match replica.text_at(&ids(alloc, rest)?, steps) {
        Ok(text) => Ok(show::bytes(alloc, &text)?),
        Err(VersionFault::Unknown(id)) => Ok(format!(in alloc; "unknown {id}")?),
        Err(VersionFault::OutOfMemory) => Err(Fault::OutOfMemory),
    }
}

/// The replay, its lines one behind the other.
fn replay<L: Ledger>(
    alloc: Global,
    replica: &Replica,
    steps: &mut Steps<L>,
) -> Result<String, Fault> {
    let lines = show::bytes(alloc, &replay_text(alloc, replica, steps)?)?;
    let mut out = String::new(alloc);
    for word in lines.split_whitespace() {
        show::space(&mut out)?;
        out.push_str(word)?;
    }
    Ok(out)
}

/// The text, how long it is after each event, the positions of the heads, and their ids.
fn held(alloc: Global, replica: &Replica) -> Result<String, Fault> {
    let text = text(alloc, replica)?;
    let mut lengths = Vec::new(alloc);
    for count in 0..replica.count() {
        lengths.push(replica.length_at(count))?;
    }
    lengths.push(replica.len())?;
    let lengths = show::numbers(alloc, &lengths)?;
    let heads = show::numbers(alloc, replica.heads())?;
    let ids = show::ids(alloc, &replica.head_ids()?)?;
    Ok(format!(in alloc; "{text}; {lengths}; {heads}; {ids}")?)
}

fn awaits(alloc: Global, replica: &Replica, rest: &str) -> Result<String, Fault> {
    let agent = Name::read(rest.as_bytes())?;
    Ok(show::yes_or_no(alloc, replica.awaits(&agent))?)
}

/// The critical cuts.
fn cuts(alloc: Global, replica: &Replica) -> Result<String, Fault> {
    let mut cuts = Vec::new(alloc);
    for cut in 0..replica.count().saturating_add(2) {
        if replica.graph().is_cut(cut) {
            cuts.push(cut)?;
        }
    }
    Ok(show::numbers(alloc, &cuts)?)
}
