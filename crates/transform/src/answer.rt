//! What walks answer.

use ew_model::text_op::TextOp;
use operation_runs::OperationRuns;

/// What a walk answers.
#[derive(Drop)]
pub struct Walk {
    /// What the walked events do, from the position on that was asked for (`emit_from`): each to the text of the events before it. They
    /// stand in the order of the events.
    pub ops: Vec<TextOp>,
    /// The position of the first event whose index is out of range, and the length of the text at its parents.
    pub stopped: Option<(u32, u32)>,
}

/// The same, with the operations in runs.
#[derive(Drop)]
pub struct WalkedRuns {
    /// What the walked events do, from the position on that was asked for (`emit_from`): each to the text of the events before it. They
    /// stand in the order of the events.
    pub ops: OperationRuns,
    /// The position of the first event whose index is out of range, and the length of the text at its parents.
    pub stopped: Option<(u32, u32)>,
}

/// Where everything stands in the tree of a whole history.
#[derive(Drop)]
pub struct Placed {
    /// The positions of the insertions, in the order of the tree; those of deleted characters too.
    pub order: Vec<u32>,
    /// The position of each deletion with that of the insertion whose character it deletes, in the order of the history.
    pub targets: Vec<(u32, u32)>,
}
