//! The numbers that frames are made with.

/// The bytes of a frame before its body.
pub(crate) const HEAD_LEN: usize = 5;

/// The kind of an event that inserts.
pub(crate) const INSERTION: u8 = 0;

/// The kind of an event that deletes.
pub(crate) const DELETION: u8 = 1;

/// The kind of an event that is a mark: its label follows.
pub(crate) const MARK: u8 = 2;

/// The bytes of a Have with no counts.
pub(crate) const LEAST_HAVE: u32 = 4;

/// The most bytes of an agent's name and its count.
pub(crate) const MOST_COUNT: u32 = 37;
