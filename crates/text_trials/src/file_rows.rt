//! Rows of event files: bytes are read, and what is read is written again.

ghost use Rattle.std.specs.Prelude.{◌<◌};

use event_file::{EventReader, FileFault, RunOps, decode, encode, encode_runs, version_of};
use ew_model::NoMem;
use ew_model::event::Event;
use sha2::{Digest, Sha256};
use std::alloc::Global;
use std::fmt::Write;
use trial_rows::bytes::{bytes_of, changed};
use trial_rows::fault::Fault;
use trial_rows::show;
use trial_rows::words::{first_word, history, number};

/// The answer to a row about the file that these hexadecimal digits mean, without the digest after it.
pub fn answer(alloc: Global, digits: &str, asked: &str) -> Result<String, Fault> {
    let content = bytes_of(alloc, digits)?;
    let (verb, rest) = first_word(asked);
    match verb {
        "read" => read(alloc, &content, rest),
        "cut" => cut(alloc, &content),
        "alone" => alone(alloc, &content, rest),
        "at_once" => at_once(alloc, &content, rest),
        "written" => written(alloc, &content, rest),
        "digest" => Ok(hex::encode(alloc, &Sha256::digest(&content)[..])?),
        _ => Err(Fault::Unreadable),
    }
}

/// The content, and then its digest.
fn closed(alloc: Global, content: &[u8]) -> Result<Vec<u8>, NoMem> {
    let mut file = Vec::from_slice(alloc, content)?;
    file.extend_from_slice(&Sha256::digest(content))?;
    Ok(file)
}

/// Reads the changed content, closed by its digest, with room for so many events: changes after ` then ` are made to the file
/// with its digest. Answers what is wrong, or how many bytes are written again, where they are the same.
fn read(alloc: Global, content: &[u8], rest: &str) -> Result<String, Fault> {
    let (most, words) = first_word(rest);
    let (words, later) = words.split_once("then ").unwrap_or((words, ""));
    let content = changed(alloc, content, words)?;
    let file = closed(alloc, &content)?;
    let file = changed(alloc, &file, later)?;
    tell_read(alloc, &file, number(most)?)
}

fn tell_read(alloc: Global, file: &[u8], most: u32) -> Result<String, Fault> {
    match decode(alloc, file, most) {
        Ok(events) => {
            let again = if version_of(file) == Some(2) {
                encode_runs(alloc, &events)?
            } else {
                encode(alloc, &events)?
            };
            let same = again.as_slice() == file;
            let len = file.len();
            Ok(format!(in alloc; "{len} same {same}")?)
        }
        Err(fault) => tell_fault(alloc, fault),
    }
}

fn tell_fault(alloc: Global, fault: FileFault) -> Result<String, Fault> {
    match fault {
        FileFault::OutOfMemory => Err(Fault::OutOfMemory),
        FileFault::BadRecord { offset, kind } => Ok(format!(in alloc; "{offset} {kind:?}")?),
        FileFault::BadDigest { .. } => Ok(show::text(alloc, "another digest")?),
        fault => Ok(format!(in alloc; "{fault:?}")?),
    }
}

/// Cuts the file after each of its bytes. Answers how often it was short and told so with its length, how often it had another
/// digest and told the one that stood last, and how often neither.
fn cut(alloc: Global, content: &[u8]) -> Result<String, Fault> {
    let file = closed(alloc, content)?;
    let mut counts: [u32; 3] = [0, 0, 0];
    for len in 0..file.len() {
        let place = cut_at(alloc, &file[..len]);
        counts[place] = counts[place].saturating_add(1);
    }
    let [short, digest, neither] = counts;
    Ok(format!(in alloc; "short {short} digest {digest} neither {neither}")?)
}

fn cut_at(alloc: Global, file: &[u8]) -> usize
    ensures { result < 3 }
{
    match decode(alloc, file, 9) {
        Err(FileFault::Short { len }) if len == file.len() as u64 => 0,
        Err(FileFault::BadDigest { stored, .. }) if file.ends_with(&stored) => 1,
        _ => 2,
    }
}

/// Reads the changed content, closed by its digest, one event at a time. Answers how many operations are handed out alone, where
/// the events are those that are read as a whole.
fn alone(alloc: Global, content: &[u8], words: &str) -> Result<String, Fault> {
    let content = changed(alloc, content, words)?;
    let file = closed(alloc, &content)?;
    let events = read_with(decode(alloc, &file, 9))?;
    let mut reader = read_with(EventReader::new(alloc, &file, 9))?;
    let mut count: u32 = 0;
    for event in &events {
        if is_alone(&mut reader, event)? {
            count = count.saturating_add(1);
        }
    }
    Ok(format!(in alloc; "{count}")?)
}

/// Whether the operation of the next event, which must be this one, is handed out alone.
fn is_alone(reader: &mut EventReader, event: &Event) -> Result<bool, Fault> {
    if let Some(op) = reader.go_on() {
        return if op.same(&event.op) {
            Ok(true)
        } else {
            Err(Fault::Unreadable)
        };
    }
    match read_with(reader.next())? {
        Some(next) if next.same(event) => Ok(false),
        _ => Err(Fault::Unreadable),
    }
}

/// Reads the changed content, closed by its digest: an event, and then the rest of its run at once, as long as there is one. Answers
/// what was handed out at once.
fn at_once(alloc: Global, content: &[u8], words: &str) -> Result<String, Fault> {
    let content = changed(alloc, content, words)?;
    let file = closed(alloc, &content)?;
    let mut reader = read_with(EventReader::new(alloc, &file, 10))?;
    let mut shown = String::new(alloc);
    for _ in 0..10 {
        if read_with(reader.next())?.is_none() {
            break;
        }
        if let Some(ops) = reader.go_on_run() {
            show::space(&mut shown)?;
            show_run(&mut shown, &ops)?;
        }
    }
    Ok(shown)
}

/// Shows the kind of the operations, their first index, and how many they are.
fn show_run(shown: &mut String, ops: &RunOps) -> Result<(), NoMem> {
    let count = ops.count();
    match ops {
        RunOps::Insertions { at, .. } => write!(shown, "insert {at} {count}"),
        RunOps::Deletions { at, .. } => write!(shown, "delete {at} {count}"),
        RunOps::BackDeletions { at, .. } => write!(shown, "back {at} {count}"),
        RunOps::Mark { .. } => shown.push_str("mark"),
    }
}

fn read_with<T: Drop>(read: Result<T, FileFault>) -> Result<T, Fault> {
    match read {
        Ok(value) => Ok(value),
        Err(FileFault::OutOfMemory) => Err(Fault::OutOfMemory),
        Err(_) => Err(Fault::Unreadable),
    }
}

/// Whether the events are written as the content with its digest.
fn written(alloc: Global, content: &[u8], rest: &str) -> Result<String, Fault> {
    let file = closed(alloc, content)?;
    let events = history(alloc, rest)?;
    let Ok(read) = decode(alloc, &file, 9) else {
        return Err(Fault::Unreadable);
    };
    Ok(show::yes_or_no(alloc, are_same(&events, &read))?)
}

fn are_same(one: &[Event], other: &[Event]) -> bool {
    one.len() == other.len() && one.iter().zip(other).all(|(a, b)| a.same(b))
}
