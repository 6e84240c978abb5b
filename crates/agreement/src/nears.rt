//! Where events of two graphs were found last.

use event_graph::Near;

/// Where the events of the one graph and of the other were found last: the next ones are sought there first.
#[derive(Clone, Copy)]
pub struct Nears {
    pub ours: Near,
    pub theirs: Near,
}

impl Nears {
    /// At the beginning of both graphs.
    pub(crate) fn start() -> Nears {
        Nears {
            ours: Near::start(),
            theirs: Near::start(),
        }
    }
}
