//! What stops a line that opens the journal.
ghost use Rattle.std.specs.Prelude.{◌≡◌};

use ew_model::NoMem;
use ew_outside::{Fault, ShelfFault};

/// What stops a run: the disk failed, or something else did.
#[derive(Clone, Copy, Debug, PartialEq, Eq)]
pub enum Stop {
    Disk,
    Fault(Fault),
}

impl From<Fault> for Stop {
    ghost use Rattle.journal_plans.specs.declared.stop.Stop.{Stop};

    ghost from_gives = { λ fault stop. stop ≡ Stop.Fault fault };

    fn from(fault: Fault) -> Stop {
        Stop::Fault(fault)
    }
}

impl From<ShelfFault> for Stop {
    ghost use Rattle.ew_outside.specs.Faults.{fault_of};
    ghost use Rattle.journal_plans.specs.declared.stop.Stop.{Stop};

    ghost from_gives = { λ fault stop. stop ≡ Stop.Fault (fault_of fault) };

    fn from(fault: ShelfFault) -> Stop {
        Stop::Fault(Fault::from(fault))
    }
}

impl From<NoMem> for Stop {
    ghost use Rattle.ew_outside.specs.declared.fault.Fault.TheVariants.{OutOfMemory};
    ghost use Rattle.journal_plans.specs.declared.stop.Stop.{Stop};

    ghost from_gives = { λ _ stop. stop ≡ Stop.Fault OutOfMemory };

    fn from(_: NoMem) -> Stop {
        Stop::Fault(Fault::OutOfMemory)
    }
}
