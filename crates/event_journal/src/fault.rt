//! Why a journal isn't opened, and why a batch isn't added.

ghost use Rattle.std.specs.Prelude.{◌≡◌};

use ew_model::NoMem;
use ew_outside::Failed;
use std::alloc::AllocFailed;
use thiserror::Error;

/// Why a journal isn't opened.
#[derive(Clone, Copy, Debug, PartialEq, Eq, Error)]
pub enum OpenFault {
    /// The disk failed, and has counted it.
    #[error("the disk failed")]
    Failed,
    /// The first bad place: a gate stands open there, and no batch is behind it.
    #[error("byte {offset}: bad batch")]
    BadBatch { offset: u64 },
    /// With the batch that passes the limit there are so many events.
    #[error("{count} events are too many")]
    TooMany { count: u32 },
    #[error("out of memory")]
    OutOfMemory,
}

impl From<Failed> for OpenFault {
    ghost use Rattle.event_journal.specs.declared.fault.OpenFault.{OpenFault};

    ghost from_gives = { λ _ fault. fault ≡ OpenFault.Failed };

    fn from(_: Failed) -> OpenFault {
        OpenFault::Failed
    }
}

impl From<NoMem> for OpenFault {
    ghost use Rattle.event_journal.specs.declared.fault.OpenFault.{OpenFault};

    ghost from_gives = { λ _ fault. fault ≡ OpenFault.OutOfMemory };

    fn from(_: NoMem) -> OpenFault {
        OpenFault::OutOfMemory
    }
}

impl<T: Drop> From<AllocFailed<T>> for OpenFault {
    ghost use Rattle.event_journal.specs.declared.fault.OpenFault.{OpenFault};

    ghost from_gives = { λ _ fault. fault ≡ OpenFault.OutOfMemory };

    fn from(_: AllocFailed<T>) -> OpenFault {
        OpenFault::OutOfMemory
    }
}

/// Why a batch isn't added.
#[derive(Clone, Copy, Debug, PartialEq, Eq, Error)]
pub enum AppendFault {
    /// The disk failed, and has counted it. The journal is closed from then on: open it again.
    #[error("the disk failed")]
    Failed,
    /// An append of this journal failed before.
    #[error("the journal is closed")]
    Closed,
    #[error("out of memory")]
    OutOfMemory,
}

impl From<NoMem> for AppendFault {
    ghost use Rattle.event_journal.specs.declared.fault.AppendFault.{AppendFault};

    ghost from_gives = { λ _ fault. fault ≡ AppendFault.OutOfMemory };

    fn from(_: NoMem) -> AppendFault {
        AppendFault::OutOfMemory
    }
}

impl<T: Drop> From<AllocFailed<T>> for AppendFault {
    ghost use Rattle.event_journal.specs.declared.fault.AppendFault.{AppendFault};

    ghost from_gives = { λ _ fault. fault ≡ AppendFault.OutOfMemory };

    fn from(_: AllocFailed<T>) -> AppendFault {
        AppendFault::OutOfMemory
    }
}
