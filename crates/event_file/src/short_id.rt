//! Ids in eight bytes.

/// An id whose agent is told by its place among a file's agents.
#[derive(Clone, Copy)]
pub(crate) struct ShortId {
    pub(crate) agent: u32,
    pub(crate) seq: u32,
}
