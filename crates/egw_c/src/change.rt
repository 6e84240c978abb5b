//! Changes of a text, as C sees them.

ghost use Rattle.std.specs.Prelude.{◌≡◌};
ghost use Rattle.egw_c.specs.Changes as model;

use ew_model::text_op::TextOp;

pub const NOTHING: u32 = 0;

pub const INSERTION: u32 = 1;

pub const DELETION: u32 = 2;

/// One change of a text: nothing, a character that is inserted at an index, or the deletion of the character there.
#[repr(C)]
#[derive(Clone, Copy)]
pub struct Change {
    pub kind: u32,
    pub at: u32,
    pub ch: u32,
}

/// The change that an operation makes.
pub fn change_of(op: &TextOp) -> Change
    ensures { result ≡ model.change_of op.now }
{
    match op {
        TextOp::Nothing => Change {
            kind: NOTHING,
            at: 0,
            ch: 0,
        },
        TextOp::Ins { at, ch } => Change {
            kind: INSERTION,
            at: *at,
            ch: *ch as u32,
        },
        TextOp::Del { at } => Change {
            kind: DELETION,
            at: *at,
            ch: 0,
        },
    }
}
