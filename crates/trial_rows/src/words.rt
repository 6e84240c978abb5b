//! The words of a row: ids, operations, events, histories.
//!
//! An event is written `b:1 X@3 <a:0,b:0`: its id, the character that it inserts and the index, and its parents. `del@3`
//! deletes, `mark@NAME` is a mark with the label. Events are parted by `;`.

ghost use Rattle.std.specs.Prelude.{◌<◌, length, IfOk};

use crate::fault::Fault;
use ew_model::event::{Event, Op};
use ew_model::id::Id;
use ew_model::name::Name;
use ew_model::parents::Parents;
use std::alloc::Global;

/// The first word, and what stands behind it.
pub fn first_word(text: &str) -> (&str, &str) {
    text.split_once(' ').unwrap_or((text, ""))
}

/// What stands on both sides of ` | `.
pub fn both_sides(text: &str) -> Result<(&str, &str), Fault> {
    text.split_once(" | ").ok_or(Fault::Unreadable)
}

pub fn number(text: &str) -> Result<u32, Fault> {
    Ok(text.parse::<u32>()?)
}

/// Two words that are numbers.
pub fn two_numbers(text: &str) -> Result<(u32, u32), Fault> {
    let (first, second) = first_word(text);
    Ok((number(first)?, number(second)?))
}

/// Numbers with a comma between two, or `-` for none.
pub fn numbers(alloc: Global, text: &str) -> Result<Vec<u32>, Fault> {
    let mut numbers = Vec::new(alloc);
    if text == "-" {
        return Ok(numbers);
    }
    for word in text.split(',') {
        numbers.push(number(word)?)?;
    }
    Ok(numbers)
}

pub fn character(text: &str) -> Result<char, Fault> {
    text.chars().next().ok_or(Fault::Unreadable)
}

pub fn id(text: &str) -> Result<Id, Fault> {
    let (agent, seq) = text.split_once(':').ok_or(Fault::Unreadable)?;
    Ok(Id {
        agent: Name::read(agent.as_bytes())?,
        seq: number(seq)?,
    })
}

/// Ids with a comma between two, or `-` for none.
pub fn ids(alloc: Global, text: &str) -> Result<Vec<Id>, Fault> {
    let mut ids = Vec::new(alloc);
    if text == "-" {
        return Ok(ids);
    }
    for word in text.split(',') {
        ids.push(id(word)?)?;
    }
    Ok(ids)
}

fn op(text: &str) -> Result<Op, Fault> {
    let (what, at) = text.split_once('@').ok_or(Fault::Unreadable)?;
    if what == "mark" {
        return Ok(Op::Mark {
            label: Name::read(at.as_bytes())?,
        });
    }
    let at = number(at)?;
    if what == "del" {
        return Ok(Op::Del { at });
    }
    let ch = character(what)?;
    Ok(Op::Ins { at, ch })
}

fn parents(alloc: Global, word: Option<&str>) -> Result<Parents, Fault> {
    let Some(word) = word else {
        return Ok(Parents::new(alloc)?);
    };
    let word = word.strip_prefix('<').ok_or(Fault::Unreadable)?;
    Ok(Parents::from_vec(ids(alloc, word)?))
}

pub fn event(alloc: Global, text: &str) -> Result<Event, Fault> {
    let mut words = text.split_whitespace();
    let id = id(words.next().ok_or(Fault::Unreadable)?)?;
    let op = op(words.next().ok_or(Fault::Unreadable)?)?;
    let parents = parents(alloc, words.next())?;
    Ok(Event { id, parents, op })
}

fn events(alloc: Global, text: &str) -> Result<Vec<Event>, Fault> {
    let mut events = Vec::new(alloc);
    for part in text.split(';') {
        events.push(event(alloc, part)?)?;
    }
    Ok(events)
}

/// The events, or none where there is no word.
pub fn history(alloc: Global, text: &str) -> Result<Vec<Event>, Fault>
    ensures { IfOk result (λ v. length v.items < 100000) }
{
    if text.is_empty() {
        return Ok(Vec::new(alloc));
    }
    let events = events(alloc, text)?;
    if events.len() >= 100_000 {
        return Err(Fault::Unreadable);
    }
    Ok(events)
}

/// The event with this number of an alphabet that one agent types, on the one before.
pub fn typed(alloc: Global, agent: Name, seq: u32) -> Result<Event, Fault> {
    let mut parents = Parents::new(alloc)?;
    if let Some(before) = seq.checked_sub(1) {
        parents.push(Id { agent, seq: before })?;
    }
    let ch = char::from(b'a' + (seq % 26) as u8);
    Ok(Event {
        id: Id { agent, seq },
        parents,
        op: Op::Ins { at: seq, ch },
    })
}

/// The bytes of a text, in which `%` and two digits stand for a byte.
pub fn unescaped(alloc: Global, text: &str) -> Result<Vec<u8>, Fault> {
    let mut bytes = Vec::new(alloc);
    let mut parts = text.split('%');
    if let Some(first) = parts.next() {
        bytes.extend_from_slice(first.as_bytes())?;
    }
    for part in parts {
        let (digits, rest) = part.split_at_checked(2).ok_or(Fault::Unreadable)?;
        bytes.push(u8::from_str_radix(digits, 16)?)?;
        bytes.extend_from_slice(rest.as_bytes())?;
    }
    Ok(bytes)
}
