//! The edits of a script.

use ew_model::name::Name;
use peer_definitions::text::Text;

/// A change of the text, or a named save, that a person asks for. Indices and numbers count Unicode scalar values.
#[derive(Drop)]
pub enum Edit {
    /// Puts the characters at the index.
    Ins { at: u32, text: Text },
    /// Deletes so many characters, from the index on.
    Del { at: u32, n: u32 },
    /// Saves the history under the label, and joins its heads.
    Mark { label: Name },
}
