//! Why an event isn't applied.

ghost use Rattle.std.specs.Prelude.{◌≡◌};
ghost use Rattle.advance_retreat.specs.declared.fault.ApplyFault.TheVariants as apply;

use ew_model::NoMem;
use thiserror::Error;

/// Why an event isn't applied. The state is as it was before.
#[derive(Clone, Copy, Debug, PartialEq, Eq, Error)]
pub enum ApplyFault {
    /// The index is past the end of what is prepared, which has so many visible characters.
    #[error("out of range, length {len}")]
    OutOfRange { len: u32 },
    /// There is no memory, or the state holds as many events or characters as it can: 2^24.
    #[error("out of memory")]
    OutOfMemory,
}

impl From<NoMem> for ApplyFault {
    ghost from_gives = { λ _ e. e ≡ apply.OutOfMemory };

    fn from(_e: NoMem) -> ApplyFault {
        ApplyFault::OutOfMemory
    }
}
