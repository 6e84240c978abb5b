//! Rows of the words of the editor: scripts and versions are read, and ids, versions and characters are printed. Names and
//! limits too.

use ew_model::NoMem;
use ew_model::event::{Event, Op};
use ew_model::limits::Limits;
use ew_model::name::Name;
use ew_model::parents::Parents;
use script_reader::edit::Edit;
use script_reader::print::{print_char, print_id, print_version};
use script_reader::script::{ScriptFault, read_script};
use script_reader::version::{VersionTextFault, read_version};
use std::alloc::Global;
use std::fmt::Write;
use trial_rows::fault::Fault;
use trial_rows::show;
use trial_rows::words::{first_word, id, ids, number, two_numbers, unescaped};

pub fn answer(alloc: Global, asked: &str) -> Result<String, Fault> {
    let (verb, rest) = first_word(asked);
    match verb {
        "script" => script(alloc, rest),
        "read" => read(alloc, rest),
        "id" => Ok(show::bytes(alloc, &print_id(alloc, &id(rest)?)?)?),
        "version" => Ok(show::bytes(alloc, &print_version(alloc, &ids(alloc, rest)?)?)?),
        "character" => character(alloc, rest),
        "name" => name(alloc, rest),
        "limits" => limits(alloc, rest),
        "copy" => copy(alloc),
        _ => Err(Fault::Unreadable),
    }
}

/// The character with this number, as it is printed.
fn character(alloc: Global, rest: &str) -> Result<String, Fault> {
    let ch = char::from_u32(number(rest)?).ok_or(Fault::Unreadable)?;
    Ok(show::bytes(alloc, &print_char(alloc, ch)?)?)
}

/// The edits of a script with the numbers of their lines, or the number of the first bad one.
fn script(alloc: Global, rest: &str) -> Result<String, Fault> {
    let bytes = unescaped(alloc, rest)?;
    if bytes.len() > 1000 {
        return Err(Fault::Unreadable);
    }
    match read_script(alloc, &bytes) {
        Ok(edits) => Ok(tell_edits(alloc, edits.as_slice())?),
        Err(ScriptFault::BadLine(line)) => Ok(format!(in alloc; "bad line {line}")?),
        Err(ScriptFault::OutOfMemory) => Err(Fault::OutOfMemory),
    }
}

fn tell_edits(alloc: Global, edits: &[(u32, Edit)]) -> Result<String, NoMem> {
    let mut out = String::new(alloc);
    for (line, edit) in edits {
        push_edit(&mut out, *line, edit)?;
    }
    Ok(out)
}

/// The ids of a version, or that the bytes are none.
fn read(alloc: Global, rest: &str) -> Result<String, Fault> {
    match read_version(alloc, &unescaped(alloc, rest)?) {
        Ok(ids) => Ok(show::ids(alloc, &ids)?),
        Err(VersionTextFault::Unreadable) => Ok(show::text(alloc, "unreadable")?),
        Err(VersionTextFault::OutOfMemory) => Err(Fault::OutOfMemory),
    }
}

fn push_edit(out: &mut String, line: u32, edit: &Edit) -> Result<(), NoMem> {
    show::space(out)?;
    match edit {
        Edit::Ins { at, text } => write!(out, "{line} ins {at} {:?}", text.as_str()),
        Edit::Del { at, n } => write!(out, "{line} del {at} {n}"),
        Edit::Mark { label } => write!(out, "{line} mark {label}"),
    }
}

/// The name as it is printed, or why it is none.
fn name(alloc: Global, rest: &str) -> Result<String, Fault> {
    match Name::read(&unescaped(alloc, rest)?) {
        Ok(name) => Ok(format!(in alloc; "{name}")?),
        Err(fault) => Ok(format!(in alloc; "{fault:?}")?),
    }
}

/// Whether these are limits: of events, of those that wait, of input, and of what is edited.
fn limits(alloc: Global, rest: &str) -> Result<String, Fault> {
    if rest == "program" {
        return Ok(show::number(alloc, Limits::program().events())?);
    }
    let (events, rest) = first_word(rest);
    let (waiting, rest) = first_word(rest);
    let (input, body) = two_numbers(rest)?;
    let limits = Limits::new(number(events)?, number(waiting)?, input, body);
    Ok(show::yes_or_no(alloc, limits.is_some())?)
}

/// The id of an event's copy, if that is the same.
fn copy(alloc: Global) -> Result<String, Fault> {
    let mut parents = Parents::new(alloc)?;
    parents.push(id("a_1:0")?)?;
    let event = Event {
        id: id("a_1:1")?,
        parents,
        op: Op::Ins { at: 1, ch: 'x' },
    };
    let copy = event.copy()?;
    if !event.same(&copy) {
        return Ok(show::text(alloc, "another event")?);
    }
    Ok(format!(in alloc; "{}", copy.id)?)
}
