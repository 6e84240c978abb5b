//! What is answered to a frame.

use peer_definitions::end::End;
use peer_definitions::frame::Frame;

/// The frames that are sent back, in order, and how the session ends, if it does.
#[derive(Drop)]
pub struct Reply {
    pub frames: Vec<Frame>,
    pub end: Option<End>,
}
