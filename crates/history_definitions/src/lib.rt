//! Words on histories that several crates speak of: the agents of a history and how many events each has, which events a list of
//! counts leaves out, the listings of a history and its replay as they are printed, versions as they are written, events that go on
//! from one another, and what is told of the answers to events that were received. They are definitions alone, and stand in the
//! crate's folder `specs`; `proofs` has what several crates need of ids and versions as they are written.
#![tactic(auto)]
