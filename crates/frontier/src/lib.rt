//! The heads of a history, and what is asked of a history about its events' parents.
#![tactic(auto)]

pub mod events;
pub mod heads;

pub use events::{Chain, Parentage};
pub use heads::Frontier;
