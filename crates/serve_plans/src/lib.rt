//! The command that serves a peer with a file, up to what is to be stored and printed at last. The replies to the peer's frames
//! are written by then.
#![tactic(auto)]

mod answering;
mod closing;
pub mod serve;
mod talk;
