//! What a program reaches outside itself: a `Source` of bytes, a `Sink` of bytes and a `Shelf` of files.
//! Each counts its faults, so that a caller can prove why it gave up; where it tells what it holds, a caller can prove what it did.
//!
//! `Std..` and `Dir..` stand over the system. `Sure..` are in memory and don't fail; `Mem..` are in memory too and fail at the calls that a test lists.
#![tactic(auto)]

mod answers;
mod bounded_bytes;
mod calls;
mod counter;
mod dir_shelf;
mod fault;
mod file_map;
mod loaded_files;
mod mem_shelf;
mod mem_sink;
mod mem_source;
mod output;
mod replacing;
mod shelf;
mod sink;
mod source;
mod std_sink;
mod std_source;
mod sure_shelf;
mod sure_sink;
mod sure_source;
mod unread_bytes;

pub use answers::{counted, counted_or_starved, uncounted, unless};
pub use bounded_bytes::BoundedBytes;
pub use calls::Calls;
pub use counter::{Counter, Greatest};
pub use dir_shelf::DirShelf;
pub use fault::{Failed, Fault, ShelfFault};
pub use file_map::FileMap;
pub use mem_shelf::MemShelf;
pub use mem_sink::MemSink;
pub use mem_source::MemSource;
pub use output::{write_all, write_and_flush};
pub use shelf::Shelf;
pub use sink::Sink;
pub use source::Source;
pub use std_sink::StdSink;
pub use std_source::StdSource;
pub use sure_shelf::SureShelf;
pub use sure_sink::SureSink;
pub use sure_source::SureSource;
pub use unread_bytes::UnreadBytes;
