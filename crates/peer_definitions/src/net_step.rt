//! The steps of a net script.

use crate::text::Text;
use ew_model::name::Name;

/// What a line of a net script asks for. A peer's name is its agent; packets are numbered from 0 in the order in which they
/// are made. Indices and numbers count Unicode scalar values, positions and numbers of events count events.
#[derive(Drop)]
pub enum NetStep {
    /// Adds a peer that holds nothing.
    Peer(Name),
    /// The peer puts the characters at the index of its text.
    Ins {
        who: Name,
        at: u32,
        text: Text,
    },
    /// The peer deletes so many characters of its text, from the index on.
    Del {
        who: Name,
        at: u32,
        n: u32,
    },
    /// The peer makes a mark with the label.
    Mark {
        who: Name,
        label: Name,
    },
    /// The peer undoes so many events of an agent, from a number on.
    Undo {
        who: Name,
        whose: Name,
        first: u32,
        count: u32,
    },
    /// Sets the peer's caret at the index of its text.
    Caret {
        who: Name,
        at: u32,
    },
    /// Prints where the peer's caret stands in its text.
    Where(Name),
    /// Makes a packet of all events of a peer for another.
    Push {
        from: Name,
        to: Name,
    },
    /// Makes a packet of at most `count` of a peer's events, from the position `skip` on.
    Send {
        from: Name,
        to: Name,
        skip: u32,
        count: u32,
    },
    /// Makes a packet that asks for what a peer lacks.
    Ask {
        from: Name,
        to: Name,
    },
    /// Hands the packet of this number to its receiver.
    Deliver(u32),
    /// Builds the peer again from the events that it holds.
    Restart(Name),
    /// Prints the peer's text.
    Show(Name),
    /// Prints whether all peers hold equal events.
    Agree,
}
