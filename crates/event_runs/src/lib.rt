//! What the events of a history do, and on which events: their operations and parents, by position, kept in runs.
#![tactic(auto)]

mod following;
mod lists;
pub mod ops;
mod runs;
mod starts;
pub mod storage;

pub use ops::RunOps;
pub use storage::EventRuns;
