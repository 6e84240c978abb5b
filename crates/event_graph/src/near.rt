//! Where events were found last.

ghost use Rattle.std.specs.Prelude.{◌≡◌};

/// Where the events that were asked for last were found in a graph's runs. For the ones behind them it is looked there first, and
/// right behind. It changes no answer.
#[derive(Clone, Copy)]
pub struct Near {
    pub(crate) event: usize,
    pub(crate) id: usize,
    pub(crate) cut: usize,
}

impl Near {
    /// At the beginning.
    pub fn start() -> Near
        ensures { result ≡ record { event = 0; id = 0; cut = 0 } }
    {
        Near {
            event: 0,
            id: 0,
            cut: 0,
        }
    }
}
