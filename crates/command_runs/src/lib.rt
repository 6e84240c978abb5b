//! The top call: a command line is run over a shelf, a source and two sinks. First it is planned what is to be stored, printed or
//! said: files and the input are read then, and nothing is written yet.
#![tactic(auto)]

mod commands;
pub mod ending;
mod making;
mod plan;
pub mod start;
pub mod top;
