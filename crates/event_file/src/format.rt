//! The numbers that an event file is made with.

/// What a file begins with.
pub(crate) const MAGIC: &[u8] = b"EGWFILE";

/// The version that has a record for each event.
pub(crate) const VERSION: u8 = 1;

/// The version that has a record for each run of events.
pub(crate) const RUNS_VERSION: u8 = 2;

/// The kind of a record that inserts.
pub(crate) const INSERTION: u8 = 0;

/// The kind of a record that deletes.
pub(crate) const DELETION: u8 = 1;

/// The kind of a record that is a mark: its label follows.
pub(crate) const MARK: u8 = 2;

/// The kind of a run of deletions at falling indices.
pub(crate) const BACK_DELETIONS: u8 = 3;

/// The bytes of a SHA-256 digest.
pub(crate) const DIGEST_LEN: usize = 32;

/// The bytes of the file of no events, the shortest.
pub(crate) const SHORTEST: usize = 48;

/// The most bytes of a name, its length among them.
pub(crate) const NAME_BYTES: usize = 33;

/// A little more than the bytes of a record with one parent.
pub(crate) const RECORD_BYTES: usize = 24;

/// A little more than the bytes of a character in a run.
pub(crate) const CHARACTER_BYTES: usize = 5;
