//! The nodes of the tree of characters.

/// A node: the root, a character of the base by its number, or the character that the event at a position inserts.
#[derive(Clone, Copy, Debug, PartialEq, Eq, PartialOrd, Ord, Hash)]
pub enum Node {
    Root,
    Base(u32),
    Event(u32),
}
