//! Why a replica answers no.

ghost use Rattle.std.specs.Prelude.{◌≡◌};
ghost use Rattle.replica.specs.declared.fault.LoadFault.TheVariants as load;
ghost use Rattle.replica.specs.declared.fault.EditFault.TheVariants as edit;
ghost use Rattle.replica.specs.declared.fault.VersionFault.TheVariants as version;

use ew_model::NoMem;
use ew_model::id::Id;
use ew_model::verdict::Verdict;
use thiserror::Error;

/// Why events make no replica.
#[derive(Clone, Copy, Debug, PartialEq, Eq, Error)]
pub enum LoadFault {
    /// The first event that isn't good behind those before it.
    #[error("the event at position {position} isn't good: {verdict:?}")]
    BadEvent { position: u32, verdict: Verdict },
    #[error("out of memory")]
    OutOfMemory,
}

impl From<NoMem> for LoadFault {
    ghost from_gives = { λ _ e. e ≡ load.OutOfMemory };

    fn from(_e: NoMem) -> LoadFault {
        LoadFault::OutOfMemory
    }
}

/// Why an edit is refused. The first reason in this order is told.
#[derive(Clone, Copy, Debug, PartialEq, Eq, Error)]
pub enum EditFault {
    /// The index, or the end of what is to be deleted, is behind the end of the text, which has this length.
    #[error("out of range, length {len}")]
    OutOfRange { len: u32 },
    /// There are more heads than one event may have parents.
    #[error("{heads} heads, more than 16")]
    TooManyHeads { heads: u32 },
    /// The history holds so many events, and has no room for the new ones.
    #[error("{count} events are held, with no room for the new ones")]
    Full { count: u32 },
    #[error("out of memory")]
    OutOfMemory,
}

impl From<NoMem> for EditFault {
    ghost from_gives = { λ _ e. e ≡ edit.OutOfMemory };

    fn from(_e: NoMem) -> EditFault {
        EditFault::OutOfMemory
    }
}

/// Why there is no text of a version.
#[derive(Clone, Copy, Debug, PartialEq, Eq, Error)]
pub enum VersionFault {
    /// The first of its ids, in the order given, that isn't held.
    #[error("unknown {0}")]
    Unknown(Id),
    #[error("out of memory")]
    OutOfMemory,
}

impl From<NoMem> for VersionFault {
    ghost from_gives = { λ _ e. e ≡ version.OutOfMemory };

    fn from(_e: NoMem) -> VersionFault {
        VersionFault::OutOfMemory
    }
}
