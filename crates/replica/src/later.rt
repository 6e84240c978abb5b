//! The operations behind the first one of an edit.

ghost use Rattle.std.specs.Prelude.{◌≡◌, ◌<◌, ◌^◌, length};
ghost use Rattle.replica.specs.Later.{later_ops};

use event_runs::RunOps;
use ew_model::event::Op;

/// The operations behind the first one of an edit, in order.
#[derive(Clone, Copy)]
pub enum Later<'a> {
    /// They go on from it by one step each.
    Run(RunOps<'a>),
    /// They may be any.
    Each(&'a [Op]),
}

impl<'a> Later<'a> {
    /// How many they are.
    pub fn count(self) -> u32
        requires { length (later_ops self) < 2 ^ 32 }
        ensures { result ≡ length (later_ops self.entry) }
    {
        match self {
            Later::Run(ops) => ops.count(),
            Later::Each(ops) => ops.len() as u32,
        }
    }
}
