//! The characters of a walker in order, each with its states: runs of them in a counted tree, found by the label of their first
//! node, and a cursor at the run where characters are typed or deleted one after another.
//!
//! It answers what a new character hangs on and what a deletion does, and changes states of one character, of some or all
//! characters of a run, or of all.
//!
//! What three additions buy: how many percent more instructions a run makes without each of them, for histories of 10,000 events.
//! In the first four columns every event's change is printed; in the last a file with one of two long branches takes in the other.
//!
//! | Without | two authors apart | two at one place | ten authors | forty authors | two branches |
//! |---|---|---|---|---|---|
//! | the cursor | 7.5 | 9.3 | 28.5 | 27.2 | 18.9 |
//! | backspaces at the cursor | 1.1 | 1.0 | 2.6 | 3.2 | 4.0 |
//! | the last label beside the maps | 0.3 | 0.3 | 2.8 | 2.8 | 2.7 |
//!
//! With 100,000 events in two branches it is 5.5 for the backspaces.
#![tactic(auto)]

mod change;
mod characters;
mod cursor;
mod kept;
mod labels;
mod offsets;
mod runs;
mod slot;

pub use change::{Change, Kind, Positions};
pub use characters::{Characters, Deletion, Deletions};
pub use runs::Known;
pub use slot::{KnownRights, Slot};
