//! The critical cuts of a history, kept as its events come.
#![tactic(auto)]

pub mod list;
mod older;
mod spans;

pub use list::Cuts;
