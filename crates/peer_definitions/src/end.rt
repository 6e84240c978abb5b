//! How a session ends.

use ew_model::id::Id;

/// How a session ends.
#[derive(Clone, Copy, Debug, PartialEq, Eq)]
pub enum End {
    /// A peer said so.
    Bye,
    /// The peers hold different events with this id.
    Clash(Id),
}
