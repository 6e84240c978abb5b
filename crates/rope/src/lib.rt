//! The text of a replica: a list of characters that insertions and deletions change one at a time. A text is changed at
//! an index, by a list of operations as a whole or not at all, and written out in UTF-8. Its characters stand in the leaves
//! of a tree, so each change touches one way from the root to a leaf.
#![tactic(auto)]

mod branch;
mod deletions;
mod extents;
mod halves;
mod kids;
mod leaf;
mod mend;
mod root;
mod spares;
mod text;
mod typed;

pub use extents::Measure;
pub use text::{Rope, Shape};
