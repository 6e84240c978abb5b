//! From the commands `edit`, `merge`, `upgrade`, `undo` and `net` to what is to be stored, printed or said. Files and the input are read; nothing is
//! written yet.
#![tactic(auto)]

pub mod edit;
pub mod input;
pub mod merge;
pub mod net;
mod taking;
pub mod undoing;
pub mod upgrade;
