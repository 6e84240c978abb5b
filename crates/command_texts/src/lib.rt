//! The texts of the program: what it prints of an edit or a merge, and why a line is refused, with the status and the text of each
//! reason.
#![tactic(auto)]

pub mod refusal;
pub mod texts;
