//! The state of a walker: what applying one event does to the text, and how events are taken out of what is prepared and put
//! in again.
//!
//! It stands for a base, the events applied over it and what is prepared of them, by the characters in order with their states,
//! and the tree of their nodes.
//!
//! Events at neighbouring positions move in one go where they inserted the characters of one run, or deleted characters of one run
//! one after another, forwards or backwards, whether events inserted these or they are of the base. Any other event moves alone. Where all applied events are taken out of what is prepared
//! at once, one way over the runs does it.
//!
//! Insertions that go on from the one that was applied last, each right behind the one before, are applied in one go. So are deletions
//! at one index, as far as the characters that they delete are those of one run.
//!
//! What four of these buy: how many percent more instructions a run makes without each of them, for histories of 10,000 events. In the
//! first four columns every event's change is printed; in the last a file with one of two long branches takes in the other.
//!
//! | Without | two authors apart | two at one place | ten authors | forty authors | two branches |
//! |---|---|---|---|---|---|
//! | moves of deletions in one go | 1.2 | 5.7 | 10.5 | 11.0 | 0.0 |
//! | one way over all runs | 0.0 | -0.1 | 0.3 | 0.2 | 1.9 |
//! | insertions in one go | 6.0 | 4.9 | 23.8 | 21.1 | 19.2 |
//! | deletions in one go | 0.9 | 1.5 | 7.9 | 6.9 | 5.7 |
#![tactic(auto)]

mod fault;
mod line;
mod run;
mod runs;
mod state;
mod target;
mod tree;

pub use fault::ApplyFault;
pub use state::{Deleted, State};
