//! Files as a command opens them, and what a plan is: what is to be stored, printed or said. Nothing is written yet.
#![tactic(auto)]

pub mod load;
pub mod open;
pub mod reply;
pub mod store;
