//! The calls of a disk in memory, in words.

use event_journal::DiskCall;
use ew_model::NoMem;
use std::alloc::Global;
use std::fmt::Write;

pub fn tell_calls(alloc: Global, calls: &[DiskCall]) -> Result<String, NoMem> {
    let mut told = String::new(alloc);
    for call in calls {
        if !told.is_empty() {
            told.push_str(", ")?;
        }
        tell_call(&mut told, call)?;
    }
    Ok(told)
}

fn tell_call(told: &mut String, call: &DiskCall) -> Result<(), NoMem> {
    match call {
        DiskCall::Len { failed } => write!(told, "len{}", tell_failed(*failed)),
        DiskCall::Sync { failed } => write!(told, "sync{}", tell_failed(*failed)),
        DiskCall::Read { at, room, failed } => {
            write!(told, "read {at}+{room}{}", tell_failed(*failed))
        }
        DiskCall::Write { at, bytes } => write!(told, "write {at}+{}", bytes.len()),
        DiskCall::FailedWrite { at, bytes, left } => {
            write!(
                told,
                "write {at}+{} failed with {}",
                bytes.len(),
                left.len()
            )
        }
    }
}

fn tell_failed(failed: bool) -> &'static str {
    if failed { " failed" } else { "" }
}
