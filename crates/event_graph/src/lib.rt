//! The history of a replica as a graph of events: found by id and by position, judged, made longer, and cut to a version.
#![tactic(auto)]

mod facts;
pub mod graph;
mod ids;
mod last;
mod missing;
pub mod near;
mod parts;
mod subgraph;

pub use facts::Facts;
pub use graph::{Graph, Hold};
pub use near::Near;
