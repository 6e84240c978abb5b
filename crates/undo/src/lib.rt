//! Undoing by new events. What an undo makes is found by one walk over all events.
#![tactic(auto)]

mod fate;
mod fates;
mod fault;
pub mod ops;
mod script;
mod undoing;
mod undone;

pub use fault::UndoFault;
pub use ops::{letter, undo_ops};
pub use undoing::undo;
pub use undone::Undone;
