//! Made histories: three peers that edit by numbers drawn from a seed, and give each other their events.
#![tactic(auto)]

mod draws;
pub mod laws;
mod making;
mod peers;
mod told;

pub use making::make;
