//! What an event does to the text of all events before it.

/// One change of a text. Indices count Unicode scalar values.
#[derive(Clone, Copy, Debug, PartialEq, Eq)]
pub enum TextOp {
    /// Puts the character at the index.
    Ins { at: u32, ch: char },
    /// Deletes the character at the index.
    Del { at: u32 },
    /// Changes nothing: the character was deleted already.
    Nothing,
}
