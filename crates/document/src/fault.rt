//! Why a call of a document does nothing.

ghost use Rattle.std.specs.Prelude.{◌≡◌};
ghost use Rattle.document.specs.declared.fault.EditingFault.TheVariants as editing;
ghost use Rattle.document.specs.declared.fault.OpeningFault.TheVariants as opening;
ghost use Rattle.document.specs.declared.fault.RangeFault.TheVariants as range;
ghost use Rattle.document.specs.declared.fault.TalkingFault.TheVariants as talking;
ghost use Rattle.document.specs.declared.fault.UndoingFault.TheVariants as undoing;

use event_file::FileFault;
use ew_model::NoMem;
use peer_exchange::End;
use peer_frames::FrameFault;
use replica::{EditFault, LoadFault};
use thiserror::Error;
use undo::UndoFault;

/// Why an edit or a mark changes nothing. The first reason in this order is told.
#[derive(Clone, Copy, Debug, PartialEq, Eq, Error)]
pub enum EditingFault {
    /// An event of the agent is awaited, so that the number of its next one isn't known.
    #[error("an event of this agent is awaited")]
    Awaited,
    #[error("{0}")]
    Edit(EditFault),
}

impl From<EditFault> for EditingFault {
    ghost from_gives = { λ fault e. e ≡ editing.Edit fault };

    fn from(fault: EditFault) -> EditingFault {
        EditingFault::Edit(fault)
    }
}

/// Why events aren't undone. The first reason in this order is told.
#[derive(Clone, Copy, Debug, PartialEq, Eq, Error)]
pub enum UndoingFault {
    /// An event of the agent is awaited, so that the number of its next one isn't known.
    #[error("an event of this agent is awaited")]
    Awaited,
    #[error("{0}")]
    Undo(UndoFault),
}

impl From<UndoFault> for UndoingFault {
    ghost from_gives = { λ fault e. e ≡ undoing.Undo fault };

    fn from(fault: UndoFault) -> UndoingFault {
        UndoingFault::Undo(fault)
    }
}

/// Why bytes make no document.
#[derive(Debug, Drop, Error)]
pub enum OpeningFault {
    #[error("{0}")]
    File(FileFault),
    #[error("{0}")]
    Load(LoadFault),
}

impl From<FileFault> for OpeningFault {
    ghost from_gives = { λ fault e. e ≡ opening.File fault };

    fn from(fault: FileFault) -> OpeningFault {
        OpeningFault::File(fault)
    }
}

impl From<LoadFault> for OpeningFault {
    ghost from_gives = { λ fault e. e ≡ opening.Load fault };

    fn from(fault: LoadFault) -> OpeningFault {
        OpeningFault::Load(fault)
    }
}

/// Why nothing is found at a place.
#[derive(Clone, Copy, Debug, PartialEq, Eq, Error)]
pub enum RangeFault {
    /// What is asked for goes past the end: this is the length, or the number of events held.
    #[error("out of range, length {len}")]
    OutOfRange { len: u32 },
    #[error("out of memory")]
    OutOfMemory,
}

impl From<NoMem> for RangeFault {
    ghost from_gives = { λ _ e. e ≡ range.OutOfMemory };

    fn from(_: NoMem) -> RangeFault {
        RangeFault::OutOfMemory
    }
}

/// Why nothing more is taken of what a peer sends.
#[derive(Clone, Copy, Debug, PartialEq, Eq, Error)]
pub enum TalkingFault {
    #[error("{0}")]
    Frame(FrameFault),
    /// The session ends. What is to be sent says so too.
    #[error("the session ended: {0:?}")]
    Ended(End),
    #[error("out of memory")]
    OutOfMemory,
}

impl From<NoMem> for TalkingFault {
    ghost from_gives = { λ _ e. e ≡ talking.OutOfMemory };

    fn from(_: NoMem) -> TalkingFault {
        TalkingFault::OutOfMemory
    }
}

impl From<FrameFault> for TalkingFault {
    ghost from_gives = { λ fault e. e ≡ talking.Frame fault };

    fn from(fault: FrameFault) -> TalkingFault {
        TalkingFault::Frame(fault)
    }
}
