//! The walk over an event graph: what each event does to the text of all events before it.
#![tactic(auto)]

pub mod answer;
mod apply;
mod cut;
mod emit;
pub mod kept;
mod moves;
pub mod placing;
pub mod replaying;
mod run;
mod text_order;
mod tombstones;
mod turn;
pub mod walking;

pub use advance_retreat::State;
pub use answer::{Placed, Walk, WalkedRuns};
pub use kept::KeptWalk;
pub use placing::placed;
pub use replaying::{replay, replay_runs};
pub use text_order::shown;
pub use tombstones::deleted;
pub use walking::{walk, walk_runs};
