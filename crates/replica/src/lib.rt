//! A replica: the events held, their text, and what local edits make of them. The text of events is found by one walk over
//! their graph.
#![tactic(auto)]

mod admit;
mod answer;
mod awaiting;
mod desk;
mod edit;
mod fault;
mod heads;
mod judging;
mod later;
pub mod laws;
mod lazy_text;
mod length_runs;
mod lengths;
mod listed;
mod load;
mod loading;
mod made;
mod marking;
mod offered;
mod operations;
mod past;
mod recent;
mod rounds;
mod state;
mod took;
mod walks;

pub use fault::{EditFault, LoadFault, VersionFault};
pub use loading::Loading;
pub use rope::Measure;
pub use state::Replica;
pub use took::{Stopped, Took};
