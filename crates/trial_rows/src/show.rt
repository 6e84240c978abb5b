//! Answers in words.

use ew_model::NoMem;
use ew_model::id::Id;
use ew_model::text_op::TextOp;
use std::alloc::Global;
use std::fmt::Write;

/// A space, unless nothing was written yet.
pub fn space(out: &mut String) -> Result<(), NoMem> {
    if out.is_empty() {
        return Ok(());
    }
    out.push(' ')?;
    Ok(())
}

pub fn text(alloc: Global, text: &str) -> Result<String, NoMem> {
    String::from_str(alloc, text)
}

pub fn yes_or_no(alloc: Global, yes: bool) -> Result<String, NoMem> {
    text(alloc, if yes { "yes" } else { "no" })
}

/// How many there are, up to the greatest number that is told.
pub fn count(count: usize) -> u32 {
    u32::try_from(count).unwrap_or(u32::MAX)
}

pub fn number(alloc: Global, number: u32) -> Result<String, NoMem> {
    format!(in alloc; "{number}")
}

/// The number, or `none`.
pub fn number_or_none(alloc: Global, found: Option<u32>) -> Result<String, NoMem> {
    match found {
        Some(found) => number(alloc, found),
        None => text(alloc, "none"),
    }
}

pub fn numbers(alloc: Global, numbers: &[u32]) -> Result<String, NoMem> {
    let mut out = String::new(alloc);
    for number in numbers {
        space(&mut out)?;
        write!(out, "{number}")?;
    }
    Ok(out)
}

pub fn ids(alloc: Global, ids: &[Id]) -> Result<String, NoMem> {
    let mut out = String::new(alloc);
    for id in ids {
        space(&mut out)?;
        write!(out, "{id}")?;
    }
    Ok(out)
}

pub fn characters(alloc: Global, characters: &[char]) -> Result<String, NoMem> {
    let mut out = String::new(alloc);
    for ch in characters {
        out.push(*ch)?;
    }
    Ok(out)
}

/// The text that these bytes are, or their hexadecimal digits.
pub fn bytes(alloc: Global, bytes: &[u8]) -> Result<String, NoMem> {
    if let Ok(shown) = str::from_utf8(bytes) {
        return text(alloc, shown);
    }
    let mut out = String::new(alloc);
    for byte in bytes {
        write!(out, "{byte:02x}")?;
    }
    Ok(out)
}

/// `ins 3 x`, `del 3`, or `nothing`.
pub fn push_operation(out: &mut String, op: &TextOp) -> Result<(), NoMem> {
    space(out)?;
    match op {
        TextOp::Ins { at, ch } => write!(out, "ins {at} {ch}"),
        TextOp::Del { at } => write!(out, "del {at}"),
        TextOp::Nothing => out.push_str("nothing"),
    }
}

pub fn operations(alloc: Global, ops: &[TextOp]) -> Result<String, NoMem> {
    let mut out = String::new(alloc);
    for op in ops {
        push_operation(&mut out, op)?;
    }
    Ok(out)
}
