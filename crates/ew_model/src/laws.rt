//! Laws of the definitions. Each is the contract of a function without parameters.

pub mod arrival;
pub mod clearing;
pub mod cuts;
pub mod edits;
pub mod orders;
pub mod positions;
pub mod scripts;
pub mod texts;
pub mod touches;
pub mod walker;
