//! The listings of a history: its log, its heads, its marks, its numbers, and its replay.
#![tactic(auto)]

pub mod laws;
mod lines;
pub mod listings;
pub mod replays;

pub use lines::push_number;
pub use listings::{check_text, heads_text, log_text, marks_text};
pub use replays::{into_replay_text, replay_text};
