//! The event file: a whole history in one string of bytes, closed by its digest. `encode` writes it in version 1 and
//! `encode_runs` in version 2, `decode` reads it back, or tells the first fault of bytes that are no file. `EventReader` hands out
//! one event at a time, or the rest of a run at once, and `RunWriter` takes in one at a time.
#![tactic(auto)]

mod agents;
mod event_records;
mod fault;
mod format;
mod id_runs;
mod input;
mod names;
mod open_run;
mod progress;
mod reader;
mod reading;
mod run_ops;
mod run_reader;
mod run_records;
mod run_writer;
mod seen;
mod short_id;
mod steps;
mod writing;

pub use agents::Agents;
pub use fault::{FileFault, RecordFault};
pub use reader::{EventReader, version_of};
pub use reading::decode;
pub use run_ops::RunOps;
pub use run_writer::RunWriter;
pub use writing::{encode, encode_runs};
