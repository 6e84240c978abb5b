//! Labels of numbers, with a search for the last labelled number up to a given one. It is mostly one look at a block of numbers.
#![tactic(auto)]

mod block;
mod map;
mod table;
mod tree;

pub use map::PredecessorMap;
