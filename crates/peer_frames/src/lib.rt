//! Frames between peers: `encode` writes a frame, and a `FrameReader` finds frames in bytes that come in pieces of any length.
//! `encode_events` and `decode_events` write and read the body of an Events frame alone.
//! `peer_definitions` says how a frame is spelled (`Spelling`), and how bytes are cut into frames (`Cutting`).
#![tactic(auto)]

mod event_bodies;
mod fault;
mod format;
mod head;
mod input;
mod kind;
pub mod laws;
mod reader;
mod reading;
mod writing;

pub use event_bodies::{decode_events, encode_events};
pub use fault::FrameFault;
pub use peer_definitions::frame::{Counts, EventList, Frame};
pub use reader::FrameReader;
pub use writing::encode;
