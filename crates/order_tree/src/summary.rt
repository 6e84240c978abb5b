//! What a node keeps of the runs below each part of it.

ghost use Rattle.std.specs.Prelude.{◌≡◌, ◌+◌, ◌-◌, ◌≤◌, ◌<◌, ◌^◌, [], ◌∷◌};
ghost use Rattle.order_tree.specs.Parts.{sums_of};

use ew_model::run::Run;

/// The characters of some runs, counted: those inserted in what is prepared, those of them that aren't deleted there, and
/// those in the text.
#[derive(Clone, Copy, Debug, PartialEq, Eq)]
pub struct Sums {
    pub known: u32,
    pub prepared: u32,
    pub effect: u32,
}

/// What is kept of some runs with their labels: the first label, the last of a run with a known character (0 for none), and
/// their sums.
#[derive(Clone, Copy, Debug, PartialEq, Eq)]
pub struct Summary {
    pub first: u64,
    pub last_known: u64,
    pub sums: Sums,
}

impl Sums {
    pub const NONE: Sums = Sums {
        known: 0,
        prepared: 0,
        effect: 0,
    };

    /// The sums of one run.
    pub fn of<R: Run>(run: &R) -> Sums
        ensures known { result.known ≡ R.known run.now }
        ensures prepared { result.prepared ≡ R.prepared run.now }
        ensures effect { result.effect ≡ R.effect run.now }
    {
        Sums {
            known: run.known_sum(),
            prepared: run.prepared_sum(),
            effect: run.effect_sum(),
        }
    }

    /// Both together.
    pub fn plus(self, more: Sums) -> Sums
        requires known { self.known + more.known < 2 ^ 32 }
        requires prepared { self.prepared + more.prepared < 2 ^ 32 }
        requires effect { self.effect + more.effect < 2 ^ 32 }
        ensures { result ≡ record { known = self.known + more.known; prepared = self.prepared + more.prepared; effect = self.effect + more.effect } }
    {
        Sums {
            known: self.known + more.known,
            prepared: self.prepared + more.prepared,
            effect: self.effect + more.effect,
        }
    }

    /// What is left without some of them.
    pub fn minus(self, less: Sums) -> Sums
        requires known { less.known ≤ self.known }
        requires prepared { less.prepared ≤ self.prepared }
        requires effect { less.effect ≤ self.effect }
        ensures { result ≡ record { known = self.known - less.known; prepared = self.prepared - less.prepared; effect = self.effect - less.effect } }
    {
        Sums {
            known: self.known - less.known,
            prepared: self.prepared - less.prepared,
            effect: self.effect - less.effect,
        }
    }
}
