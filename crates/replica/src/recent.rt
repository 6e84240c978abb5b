//! What the latest events do to the text.

use operation_runs::OperationRuns;

/// What the events held from a number on do to the text, one operation for each.
#[derive(Drop)]
pub struct Recent {
    pub from: u32,
    pub ops: OperationRuns,
}
