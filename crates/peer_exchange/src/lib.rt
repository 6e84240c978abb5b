//! What two peers say to each other: `ask` makes the question for what a replica lacks, and `answer` the reply to a frame.
//! `peer_definitions` says what is answered to each frame (`Answering`).
#![tactic(auto)]

mod answering;
mod events;
pub mod laws;
mod reply;

pub use answering::{answer, ask};
pub use events::event_frames;
pub use peer_definitions::end::End;
pub use reply::Reply;
