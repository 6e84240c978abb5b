//! Histories as files hold them: the events of a file's bytes, given one after another to be loaded, and the file of a graph or of a
//! replica.
#![tactic(auto)]

pub mod give;
pub mod written;
