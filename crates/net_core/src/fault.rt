//! Why a step is refused.

ghost use Rattle.std.specs.Prelude.{◌≡◌};
ghost use Rattle.net_core.specs.Answers.{fault_of, fault_of_undo};
ghost use Rattle.net_core.specs.declared.fault.NetFault.TheVariants as fault;

use ew_model::NoMem;
use ew_model::id::Id;
use ew_model::name::Name;
use replica::EditFault;
use std::alloc::AllocFailed;
use thiserror::Error;
use undo::UndoFault;

/// Why a step is refused. The first reason in this order is told.
#[derive(Clone, Copy, Debug, PartialEq, Eq, Error)]
pub enum NetFault {
    /// There is no peer of this name. Of two names the first is told.
    #[error("no peer {0}")]
    NoPeer(Name),
    #[error("peer {0} is there")]
    PeerTwice(Name),
    #[error("no packet {0}")]
    NoPacket(u32),
    /// The first of the events to undo that the peer doesn't hold.
    #[error("unknown {0}")]
    NoEvent(Id),
    /// The index, or the end of what is to be deleted, is behind the end of the text, which has this length.
    #[error("out of range, length {len}")]
    OutOfRange { len: u32 },
    /// There are more heads than one event may have parents.
    #[error("{heads} heads, more than 16")]
    TooManyHeads { heads: u32 },
    /// The history holds so many events, and has no room for the new ones.
    #[error("{count} events are held, with no room for the new ones")]
    Full { count: u32 },
    #[error("out of memory")]
    OutOfMemory,
}

impl From<NoMem> for NetFault {
    ghost from_gives = { λ _ e. e ≡ fault.OutOfMemory };

    fn from(_: NoMem) -> NetFault {
        NetFault::OutOfMemory
    }
}

impl<T: Drop> From<AllocFailed<T>> for NetFault {
    ghost from_gives = { λ _ e. e ≡ fault.OutOfMemory };

    fn from(_: AllocFailed<T>) -> NetFault {
        NetFault::OutOfMemory
    }
}

impl From<EditFault> for NetFault {
    ghost from_gives = { λ f e. e ≡ fault_of f };

    fn from(fault: EditFault) -> NetFault {
        match fault {
            EditFault::OutOfRange { len } => NetFault::OutOfRange { len },
            EditFault::TooManyHeads { heads } => NetFault::TooManyHeads { heads },
            EditFault::Full { count } => NetFault::Full { count },
            EditFault::OutOfMemory => NetFault::OutOfMemory,
        }
    }
}

impl From<UndoFault> for NetFault {
    ghost from_gives = { λ f e. e ≡ fault_of_undo f };

    fn from(fault: UndoFault) -> NetFault {
        match fault {
            UndoFault::NoEvent(id) => NetFault::NoEvent(id),
            UndoFault::TooManyHeads { heads } => NetFault::TooManyHeads { heads },
            UndoFault::Full { count } => NetFault::Full { count },
            UndoFault::OutOfMemory => NetFault::OutOfMemory,
        }
    }
}
