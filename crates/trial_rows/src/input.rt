//! The input of the trials, and how they end.

use crate::report::Report;
use std::alloc::Global;
use std::io::Read;
use std::process::ExitCode;

/// The status when receiving stopped since memory ran out, and went on.
const WENT_ON: u8 = 3;

/// All bytes of the input, or none where it can't be read. A piece for which there is no memory is taken again.
pub fn read_all<R: Read + Drop>(alloc: Global, mut input: R) -> Option<Vec<u8>> {
    let mut bytes = Vec::new(alloc);
    let mut piece = [0; 4096];
    for _ in 0..1_000_000 {
        let count = input.read(&mut piece).ok()?;
        if count == 0 {
            return Some(bytes);
        }
        if bytes.extend_from_slice(&piece[..count]).is_err() {
            bytes.extend_from_slice(&piece[..count]).ok()?;
        }
    }
    None
}

/// 0, or 1 where a row differed, or 3 where receiving stopped on the way, and went on.
pub fn status(report: &Report<'_>) -> ExitCode {
    if report.wrong() > 0 {
        ExitCode::FAILURE
    } else if report.stops() > 0 {
        ExitCode::from(WENT_ON)
    } else {
        ExitCode::from(0)
    }
}
