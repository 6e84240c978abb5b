//! Which agent made which event: ids and their positions, both ways, and the agents' numbers.
#![tactic(auto)]

mod positions;
mod runs;
pub mod table;

pub use table::AgentTable;
