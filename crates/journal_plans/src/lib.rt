//! The two commands of the journal, up to what is to be stored and printed at last: a script whose events are kept line by line, each
//! told once it stands, and the journal's events as a file.
#![tactic(auto)]

pub mod export;
mod keep;
mod open;
pub mod stop;
pub mod watch;
