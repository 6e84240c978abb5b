//! Why a row has no answer.

use ew_model::NoMem;
use ew_model::name::NameFault;
use std::alloc::AllocFailed;
use std::num::ParseIntError;

#[derive(Clone, Copy)]
pub enum Fault {
    OutOfMemory,
    /// The row isn't one of those that are read, or it asks for what may not be asked there.
    Unreadable,
}

impl From<NoMem> for Fault {
    fn from(_e: NoMem) -> Fault {
        Fault::OutOfMemory
    }
}

impl<T: Drop> From<AllocFailed<T>> for Fault {
    fn from(_e: AllocFailed<T>) -> Fault {
        Fault::OutOfMemory
    }
}

impl From<NameFault> for Fault {
    fn from(_e: NameFault) -> Fault {
        Fault::Unreadable
    }
}

impl From<ParseIntError> for Fault {
    fn from(_e: ParseIntError) -> Fault {
        Fault::Unreadable
    }
}
