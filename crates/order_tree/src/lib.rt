//! A counted tree of runs of characters: a list of runs, each under a label, that is changed in one place and summed up
//! over a front of it in the time of one way from the root to a leaf. Labels rise along the list; label 0 stands before
//! all runs.
#![tactic(auto)]

mod about;
mod branch;
mod change;
mod count;
mod edit;
mod entries;
mod finish;
mod halves;
mod kids;
mod label;
mod leaf;
mod part;
mod relabel;
mod root;
mod spares;
mod summary;
mod tree;
mod visible;

pub use about::Relabelled;
pub use change::{Alteration, Altered};
pub use ew_model::NoMem;
pub use tree::OrderTree;
pub use visible::Visible;
