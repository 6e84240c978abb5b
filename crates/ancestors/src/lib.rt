//! What a version knows of a history: its events and all their ancestors.
#![tactic(auto)]

pub mod difference;
mod pending;
mod sides;
pub mod spans;
pub mod versions;

pub use difference::diff;
pub use spans::{Span, Spans};
pub use versions::{closure, contains, is_reduced};
