//! Why a caret can't be taken, or has no index.

ghost use Rattle.std.specs.Prelude.{◌≡◌};
ghost use Rattle.caret_places.specs.declared.fault.CaretFault.TheVariants as taking;
ghost use Rattle.caret_places.specs.declared.fault.IndexFault.TheVariants as standing;

use ew_model::NoMem;
use ew_model::id::Id;
use thiserror::Error;

/// Why a caret isn't taken. The first reason in this order is told.
#[derive(Clone, Copy, Debug, PartialEq, Eq, Error)]
pub enum CaretFault {
    /// The first id of the version, in the order given, that isn't held.
    #[error("unknown {0}")]
    Unknown(Id),
    /// The index is behind the end of the version's text, which has this length.
    #[error("out of range, length {len}")]
    OutOfRange { len: u32 },
    #[error("out of memory")]
    OutOfMemory,
}

impl From<NoMem> for CaretFault {
    ghost from_gives = { λ _ e. e ≡ taking.OutOfMemory };

    fn from(_e: NoMem) -> CaretFault {
        CaretFault::OutOfMemory
    }
}

/// Why carets have no indexes. The first caret with a reason is told.
#[derive(Clone, Copy, Debug, PartialEq, Eq, Error)]
pub enum IndexFault {
    /// No event with the caret's id is held.
    #[error("unknown {0}")]
    Unknown(Id),
    /// The event with the caret's id inserted no character.
    #[error("{0} inserts no character")]
    NoCharacter(Id),
    #[error("out of memory")]
    OutOfMemory,
}

impl From<NoMem> for IndexFault {
    ghost from_gives = { λ _ e. e ≡ standing.OutOfMemory };

    fn from(_e: NoMem) -> IndexFault {
        IndexFault::OutOfMemory
    }
}
