//! A journal of events that outlives a crash at any moment: a `Journal` adds batches of events to a `Disk`, each acknowledged once it
//! is synced, and reads them back when it is opened. `specs/Disk.antt` says what a disk does and what a crash may leave of it,
//! `specs/Journal.antt` what a journal is; `peer_definitions`' `Batches` says which batches bytes hold.
#![tactic(auto)]

mod disk;
mod fault;
mod file_disk;
mod journal;
mod laws;
mod mem_disk;
mod reading;
mod sound;
mod writing;

pub use disk::Disk;
pub use fault::{AppendFault, OpenFault};
pub use file_disk::FileDisk;
pub use journal::Journal;
pub use laws::{law_found, law_lasting};
pub use mem_disk::{DiskCall, MemDisk, Tear};
