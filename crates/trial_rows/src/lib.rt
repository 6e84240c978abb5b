//! What the trials have in common: the groups of rows and the one way to run them, the words of a row, its bytes, answers in
//! words, numbers that are drawn, and what is told of all rows.
//!
//! Groups of rows are parted by an empty line. The first line of each tells what its rows are about and, after a colon, its
//! title. A row is what is asked and, after ` =`, the answer.
#![tactic(auto)]

pub mod bytes;
pub mod draws;
pub mod fault;
pub mod groups;
pub mod input;
pub mod report;
pub mod show;
pub mod words;
