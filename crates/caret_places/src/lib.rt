//! Where carets are taken in a version's text, and where they stand in that of a whole history.
#![tactic(auto)]

mod fault;
mod held;
pub mod indexes;
mod sides;
pub mod taking;
mod whole;

pub use fault::{CaretFault, IndexFault};
pub use held::{caret_at, index_of};
pub use indexes::{find_index, indexes_of};
pub use taking::{caret_in_version, carets_at};
pub use whole::{caret_in_text, index_in_text};
