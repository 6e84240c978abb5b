//! Why bytes are no event file.

ghost use Rattle.std.specs.Prelude.{◌≡◌, length};
ghost use Rattle.event_file.specs.declared.fault.Stop.TheVariants.{OutOfMemory};
ghost use Rattle.event_file.specs.Reading.{IsStop};

use ew_model::NoMem;
use std::alloc::AllocFailed;
use thiserror::Error;

/// Why bytes are no event file: the first fault in reading order. Want of memory may come before it.
#[derive(Debug, Drop, Error)]
pub enum FileFault {
    /// No file has so few bytes.
    #[error("{len} bytes are too few")]
    Short { len: u64 },
    /// The first seven bytes aren't `EGWFILE`.
    #[error("the mark of event files is missing")]
    BadMagic,
    /// The version isn't one that is read.
    #[error("version {0} isn't known")]
    BadVersion(u8),
    /// The digest at the end isn't that of the bytes before it.
    #[error("the digest is {stored:?}, and that of the bytes is {found:?}")]
    BadDigest { stored: [u8; 32], found: [u8; 32] },
    /// The field that begins at the offset isn't as it should be.
    #[error("the field at byte {offset}: {kind}")]
    BadRecord { offset: u64, kind: RecordFault },
    /// The file says that it has more events than may be read.
    #[error("{count} events are too many")]
    TooMany { count: u32 },
    #[error("out of memory")]
    OutOfMemory,
}

/// What may be wrong with a field.
#[derive(Clone, Copy, Debug, PartialEq, Eq, Error)]
pub enum RecordFault {
    /// The field goes on past the start of the digest.
    #[error("cut off")]
    Cut,
    #[error("no name")]
    NameBad,
    #[error("a name that stood before")]
    NameTwice,
    /// The agent's number isn't that of an agent with an event before, nor the next number.
    #[error("a wrong agent number")]
    AgentNumber,
    #[error("an id that stood before")]
    IdTwice,
    #[error("more than 16 parents")]
    ParentCount,
    /// The parent's position isn't before the event's own.
    #[error("a parent that isn't before the event")]
    ParentPosition,
    /// The parent's id isn't above that of the parent before.
    #[error("parents that don't ascend")]
    ParentOrder,
    #[error("no kind of event")]
    KindBad,
    /// The first event goes on from the run before, and so belongs to it.
    #[error("run join")]
    RunJoin,
    /// No run of the kind has so many events there.
    #[error("run length")]
    RunLength,
    /// The number is no Unicode scalar value.
    #[error("no character")]
    Scalar,
    #[error("bytes behind the last record")]
    Trailing,
    #[error("an agent with no event")]
    UnusedAgent,
}

/// What ends the reading of a content early.
#[derive(Debug, Drop)]
pub(crate) enum Stop {
    /// A field has a fault. So many bytes of the content are left where that field begins.
    Field { left: usize, kind: RecordFault },
    /// The number of events is above the limit.
    OverLimit { count: u32 },
    OutOfMemory,
}

/// The fault of the field that begins at these bytes.
pub(crate) fn bad_field(field: &[u8], kind: RecordFault) -> Stop
    ensures { result ≡ Stop.Field (length field.now) kind }
{
    Stop::Field {
        left: field.len(),
        kind,
    }
}

/// The fault of a content of this length.
pub(crate) fn fault_of(stop: Stop, len: usize) -> FileFault
    ensures { IsStop stop len result }
{
    match stop {
        Stop::Field { left, kind } => FileFault::BadRecord {
            offset: len.saturating_sub(left) as u64,
            kind,
        },
        Stop::OverLimit { count } => FileFault::TooMany { count },
        Stop::OutOfMemory => FileFault::OutOfMemory,
    }
}

impl From<NoMem> for FileFault {
    ghost use Rattle.event_file.specs.declared.fault.FileFault.TheVariants.{OutOfMemory};

    ghost from_gives = { λ _ fault. fault ≡ OutOfMemory };

    fn from(_e: NoMem) -> FileFault {
        FileFault::OutOfMemory
    }
}

impl From<NoMem> for Stop {
    ghost from_gives = { λ _ stop. stop ≡ OutOfMemory };

    fn from(_e: NoMem) -> Stop {
        Stop::OutOfMemory
    }
}

impl<T: Drop> From<AllocFailed<T>> for Stop {
    ghost from_gives = { λ _ stop. stop ≡ OutOfMemory };

    fn from(_e: AllocFailed<T>) -> Stop {
        Stop::OutOfMemory
    }
}
