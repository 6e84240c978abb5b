//! Why a call of the outside gave up.
ghost use Rattle.std.specs.Prelude.{◌≡◌};
ghost use Rattle.ew_outside.specs.Faults.{fault_of};

use std::alloc::{AllocError, AllocFailed};
use thiserror::Error;

/// A source or a sink failed, and has counted it.
#[derive(Clone, Copy, Debug, PartialEq, Eq, Error)]
#[error("the call failed")]
pub struct Failed;

/// Why a shelf gave up. It counts a failure, and no want of memory.
#[derive(Clone, Copy, Debug, PartialEq, Eq, Error)]
pub enum ShelfFault {
    #[error("the shelf failed")]
    Failed,
    #[error("out of memory")]
    OutOfMemory,
}

impl From<AllocError> for ShelfFault {
    ghost use Rattle.std.specs.Prelude.{◌≡◌};
    ghost use Rattle.ew_outside.specs.declared.fault.ShelfFault.{ShelfFault};

    ghost from_gives = { λ _ fault. fault ≡ ShelfFault.OutOfMemory };

    fn from(_: AllocError) -> ShelfFault {
        ShelfFault::OutOfMemory
    }
}

impl<T: Drop> From<AllocFailed<T>> for ShelfFault {
    ghost use Rattle.std.specs.Prelude.{◌≡◌};
    ghost use Rattle.ew_outside.specs.declared.fault.ShelfFault.{ShelfFault};

    ghost from_gives = { λ _ fault. fault ≡ ShelfFault.OutOfMemory };

    fn from(_: AllocFailed<T>) -> ShelfFault {
        ShelfFault::OutOfMemory
    }
}

/// Why a run stops: an object of the outside failed, and has counted it, or memory ran out.
#[derive(Clone, Copy, Debug, PartialEq, Eq, Error)]
pub enum Fault {
    #[error("the shelf failed")]
    Shelf,
    #[error("the source failed")]
    Source,
    #[error("the sink failed")]
    Sink,
    #[error("out of memory")]
    OutOfMemory,
}

impl From<AllocError> for Fault {
    ghost use Rattle.std.specs.Prelude.{◌≡◌};
    ghost use Rattle.ew_outside.specs.declared.fault.Fault.{Fault};

    ghost from_gives = { λ _ fault. fault ≡ Fault.OutOfMemory };

    fn from(_: AllocError) -> Fault {
        Fault::OutOfMemory
    }
}

impl<T: Drop> From<AllocFailed<T>> for Fault {
    ghost use Rattle.std.specs.Prelude.{◌≡◌};
    ghost use Rattle.ew_outside.specs.declared.fault.Fault.{Fault};

    ghost from_gives = { λ _ fault. fault ≡ Fault.OutOfMemory };

    fn from(_: AllocFailed<T>) -> Fault {
        Fault::OutOfMemory
    }
}

impl From<ShelfFault> for Fault {
    ghost from_gives = { λ fault e. e ≡ fault_of fault };

    fn from(fault: ShelfFault) -> Fault {
        match fault {
            ShelfFault::Failed => Fault::Shelf,
            ShelfFault::OutOfMemory => Fault::OutOfMemory,
        }
    }
}
