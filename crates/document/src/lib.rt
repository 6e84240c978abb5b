//! A text with the history of all its changes, as one copy of it is kept: it is edited, saved, and exchanged with other copies.
//!
//! This is what an editor, a server or a command stands on. It has no files, no clock and no connections: bytes go in and come out.
#![tactic(auto)]

mod changes;
mod counted;
mod fault;
mod state;
mod talking;

pub use caret_places::IndexFault;
pub use carets::Caret;
pub use event_file::FileFault;
pub use ew_model::NoMem;
pub use ew_model::event::Op;
pub use ew_model::id::Id;
pub use ew_model::name::{Name, NameFault};
pub use ew_model::text_op::TextOp;
pub use fault::{EditingFault, OpeningFault, RangeFault, TalkingFault, UndoingFault};
pub use peer_exchange::End;
pub use peer_frames::{FrameFault, FrameReader};
pub use replica::{EditFault, LoadFault, Measure, VersionFault};
pub use state::Document;
pub use talking::new_peer;
pub use undo::UndoFault;
