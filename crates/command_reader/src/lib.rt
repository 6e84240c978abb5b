//! The words of a command line, read by `clap`: which command they are, if they are taken.
#![tactic(auto)]

mod cli;
pub mod words;
