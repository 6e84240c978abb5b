//! Why an event may not wait.

use ew_model::event::Event;
use std::fmt;
use thiserror::Error;

/// Why an event may not wait. The event is handed back.
#[derive(Drop, Error)]
pub enum PutFault {
    /// An event with its id waits.
    #[error("an event with this id waits")]
    Waits(Event),
    /// As many events wait as may.
    #[error("no more events may wait")]
    Full(Event),
    #[error("out of memory")]
    OutOfMemory(Event),
}

impl fmt::Debug for PutFault {
    fn fmt<W: fmt::Write>(&self, f: &mut fmt::Formatter<W>) -> fmt::Result {
        match self {
            PutFault::Waits(e) => write!(f, "Waits({})", e.id),
            PutFault::Full(e) => write!(f, "Full({})", e.id),
            PutFault::OutOfMemory(e) => write!(f, "OutOfMemory({})", e.id),
        }
    }
}
