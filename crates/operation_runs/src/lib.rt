//! Operations on a text, one behind the other, kept in runs.
#![tactic(auto)]

pub mod list;
pub mod reader;
pub mod run;
mod stored;

pub use list::OperationRuns;
pub use reader::RunReader;
pub use run::OperationRun;
