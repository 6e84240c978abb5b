//! Rows of a text that is changed at an index.

use rope::Rope;
use std::alloc::Global;
use trial_rows::fault::Fault;
use trial_rows::report::Report;
use trial_rows::show;
use trial_rows::words::{character, first_word, number};

/// Rows of one text, from an empty one on.
pub fn run<'a>(alloc: Global, rows: &'a str, report: &mut Report<'a>) -> Result<(), Fault> {
    let mut text = Rope::new(alloc)?;
    for row in rows.split('\n') {
        let asked = report.ask(row)?;
        let answer = change(alloc, &mut text, asked)?;
        report.compare(answer.as_str())?;
    }
    Ok(())
}

fn change(alloc: Global, text: &mut Rope, asked: &str) -> Result<String, Fault> {
    let (verb, rest) = first_word(asked);
    match verb {
        "insert" => insert(text, rest)?,
        "remove" => remove(text, number(rest)?)?,
        "at" => return character_at(alloc, text, number(rest)?),
        _ => return Err(Fault::Unreadable),
    }
    written(alloc, text)
}

fn insert(text: &mut Rope, rest: &str) -> Result<(), Fault> {
    let (at, ch) = first_word(rest);
    let at = number(at)?;
    if at > text.len() || text.len() >= 1000 {
        return Err(Fault::Unreadable);
    }
    text.insert(at, character(ch)?)?;
    Ok(())
}

fn remove(text: &mut Rope, at: u32) -> Result<(), Fault> {
    if at >= text.len() {
        return Err(Fault::Unreadable);
    }
    text.remove(at)?;
    Ok(())
}

fn character_at(alloc: Global, text: &Rope, at: u32) -> Result<String, Fault> {
    if at >= text.len() {
        return Err(Fault::Unreadable);
    }
    Ok(show::characters(alloc, &[text.char_at(at)])?)
}

/// The text, and how many characters it has.
fn written(alloc: Global, text: &Rope) -> Result<String, Fault> {
    let mut bytes = Vec::new(alloc);
    text.write_to(&mut bytes)?;
    let shown = show::bytes(alloc, &bytes)?;
    let len = text.len();
    Ok(format!(in alloc; "{len} {shown}")?)
}
