//! What is answered about an event.

use crate::id::Id;

/// How an event stands to a history: the first of these that holds, from the top.
#[derive(Clone, Copy, Debug, PartialEq, Eq)]
pub enum Verdict {
    /// An equal event is held, or waits.
    Repeat,
    /// Another event with its id is held, or waits.
    Clash,
    /// Its own id is among its parents.
    SelfParent,
    /// It has more than 16 parents.
    TooManyParents,
    /// Its parents aren't strictly ascending.
    ParentsUnsorted,
    /// The first of its parents that isn't held.
    Unknown(Id),
    /// One of its parents is an ancestor of another.
    NotReduced,
    /// It isn't the first of its agent, and the one before isn't among its ancestors.
    Skipped,
    /// Its index is outside the text at its parents, which has this length.
    OutOfRange { len: u32 },
    /// None of these.
    Good,
}

/// Why a received event isn't taken.
#[derive(Clone, Copy, Debug, PartialEq, Eq)]
pub enum Refusal {
    Clash,
    SelfParent,
    TooManyParents,
    ParentsUnsorted,
    /// A parent isn't held, and no more events may wait.
    PoolFull,
    NotReduced,
    Skipped,
    /// The history holds as many events as it may.
    GraphFull,
    OutOfRange { len: u32 },
}
