//! Why bytes begin with no frame.

use ew_model::NoMem;
use std::alloc::AllocFailed;
use thiserror::Error;

/// Why bytes begin with no frame.
#[derive(Clone, Copy, Debug, PartialEq, Eq, Error)]
pub enum FrameFault {
    /// The body has this many bytes by what the frame tells, which is above the limit of its kind.
    #[error("a body of {0} bytes is too long")]
    TooLong(u32),
    /// The first byte is none of a frame's kinds.
    #[error("{0} is no kind of frame")]
    BadKind(u8),
    /// The body isn't one of this kind of frame.
    #[error("the body isn't that of a frame")]
    BadBody,
    #[error("out of memory")]
    OutOfMemory,
}

impl From<NoMem> for FrameFault {
    ghost use Rattle.std.specs.Prelude.{◌≡◌};
    ghost use Rattle.peer_frames.specs.declared.fault.FrameFault.TheVariants.{OutOfMemory};

    ghost from_gives = { λ _ fault. fault ≡ OutOfMemory };

    fn from(_: NoMem) -> FrameFault {
        FrameFault::OutOfMemory
    }
}

impl<T: Drop> From<AllocFailed<T>> for FrameFault {
    ghost use Rattle.std.specs.Prelude.{◌≡◌};
    ghost use Rattle.peer_frames.specs.declared.fault.FrameFault.TheVariants.{OutOfMemory};

    ghost from_gives = { λ _ fault. fault ≡ OutOfMemory };

    fn from(_: AllocFailed<T>) -> FrameFault {
        FrameFault::OutOfMemory
    }
}
