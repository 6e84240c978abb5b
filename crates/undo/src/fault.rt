//! Why events aren't undone.

ghost use Rattle.std.specs.Prelude.{◌≡◌, Some, IsSome};
ghost use Rattle.undo.specs.declared.fault.UndoFault.TheVariants as fault;
ghost use Rattle.undo.specs.Answers.{fault_behind};

use ew_model::NoMem;
use ew_model::id::Id;
use replica::EditFault;
use thiserror::Error;

/// Why an undo is refused. The first reason in this order is told.
#[derive(Clone, Copy, Debug, PartialEq, Eq, Error)]
pub enum UndoFault {
    /// The first of the events, in order, that isn't held.
    #[error("unknown {0}")]
    NoEvent(Id),
    /// There are more heads than one event may have parents.
    #[error("{heads} heads, more than 16")]
    TooManyHeads { heads: u32 },
    /// The history holds so many events, and has no room for the new ones.
    #[error("{count} events are held, with no room for the new ones")]
    Full { count: u32 },
    #[error("out of memory")]
    OutOfMemory,
}

impl From<NoMem> for UndoFault {
    ghost from_gives = { λ _ e. e ≡ fault.OutOfMemory };

    fn from(_e: NoMem) -> UndoFault {
        UndoFault::OutOfMemory
    }
}

impl UndoFault {
    /// Why an undo is refused whose operations are refused for this. They are never out of range.
    pub(crate) fn of_edit(fault: EditFault) -> UndoFault
        requires { IsSome (fault_behind fault) }
        ensures { fault_behind fault ≡ Some result }
    {
        match fault {
            EditFault::TooManyHeads { heads } => UndoFault::TooManyHeads { heads },
            EditFault::Full { count } => UndoFault::Full { count },
            EditFault::OutOfMemory => UndoFault::OutOfMemory,
            EditFault::OutOfRange { .. } => unreachable!(),
        }
    }
}
