//! A caret.

use ew_model::id::Id;

/// A place in a text, by the character that stood left of it when it was taken.
#[derive(Clone, Copy, PartialEq, Eq)]
pub enum Caret {
    /// No character stood there: the caret is at the start.
    Root,
    /// The character that the event with this id inserted.
    Behind(Id),
}
