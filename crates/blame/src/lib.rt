//! The blame of a replica: who inserted which part of its text, or of a version's.
#![tactic(auto)]

pub mod blame;
mod escaped;
mod fitting;
mod letters;
mod lines;

pub use blame::blame_text;
