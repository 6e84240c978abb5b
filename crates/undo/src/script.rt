//! The operations of an undo, while they are made.

ghost use Rattle.std.specs.Prelude.{◌≡◌, ◌+◌, ◌<◌, ◌^◌, ◌++◌, [], OnOk, if◌then◌else◌};
ghost use Rattle.std.specs.List.{cons_option};
ghost use Rattle.undo_definitions.specs.Undoing.{change_of};

use ew_model::NoMem;
use ew_model::event::Op;
use std::alloc::Global;

/// The operations up to a character, and the index behind the wanted ones up to there.
#[derive(Drop)]
pub struct Script {
    pub ops: Vec<Op>,
    pub at: u32,
}

impl Script {
    /// Before the first character.
    pub fn new(alloc: Global) -> Script
        ensures ops { result.ops.items ≡ [] }
        ensures at { result.at ≡ 0 }
    {
        Script {
            ops: Vec::new(alloc),
            at: 0,
        }
    }

    /// Goes by a character: it is deleted where it is shown and not wanted, and inserted where it is wanted and not shown.
    pub fn pass(&mut self, ch: char, deleted: bool, wanted: bool) -> Result<(), NoMem>
        requires { self.old.at + 1 < 2 ^ 32 }
        ensures ops { OnOk result (self.new.ops.items ≡ self.old.ops.items ++ cons_option (change_of self.old.at ch deleted wanted) []) }
        ensures at { OnOk result (self.new.at ≡ (if wanted then self.old.at + 1 else self.old.at)) }
    {
        match (deleted, wanted) {
            (false, true) => {
                self.at += 1;
                Ok(())
            }
            (false, false) => {
                self.ops.push(Op::Del { at: self.at })?;
                Ok(())
            }
            (true, true) => {
                self.ops.push(Op::Ins { at: self.at, ch })?;
                self.at += 1;
                Ok(())
            }
            (true, false) => Ok(()),
        }
    }
}
