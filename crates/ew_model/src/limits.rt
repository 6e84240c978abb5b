//! The limits of a replica and of the program.

ghost use Rattle.std.specs.Prelude.{◌≡◌, ◌<◌, ◌≤◌, ◌^◌, ◌↔◌, IsSome, IfSome};
ghost use Rattle.ew_model.specs.Limits.{LimitNumbers, AreLimits, program_limits, most_file_bytes};

use std::marker::Model;

/// The most events of a history, and so the most characters of a text, under any limits.
pub const MOST_EVENTS: u32 = 16_777_216;
/// The most bytes of an input or a frame's body, under any limits.
pub const MOST_BYTES: u32 = 1_073_741_824;
/// The most parents of an event, and the most heads that one event can join.
pub const MOST_PARENTS: u32 = 16;
/// The bytes that tell a number of events, or of anything else, in a file and in a frame.
pub const COUNT_BYTES: u32 = 4;
/// The bytes in a frame of the greatest event that a history can hold: 37 for its id, 1 and 37 for each of 16 parents, and 34 for
/// its kind and a label.
pub const MOST_EVENT_BYTES: u32 = 664;
/// How many bytes of an input are asked for at a time.
pub const INPUT_PIECE: usize = 4096;

/// An Events frame with the greatest event that a history can hold.
const LEAST_BODY: u32 = COUNT_BYTES + MOST_EVENT_BYTES;
/// The bytes of the empty file.
const EMPTY_FILE: u64 = 48;
/// The most bytes that an event adds to a file: 33 for its agent's name, and 107 for its record.
const MOST_RECORD_BYTES: u64 = 140;

/// The most events of a history, events that wait, bytes of an input, and bytes of a frame's body. Contracts see the four
/// numbers.
#[derive(Clone, Copy)]
pub struct Limits {
    events: u32,
    waiting: u32,
    input: u32,
    body: u32,
}

impl Model for Limits {
    ghost use Rattle.ew_model.specs.Limits.{LimitNumbers, AreLimits};

    ghost Value = { LimitNumbers };

    ghost view = { λ l. record { events = l.events; waiting = l.waiting; input = l.input; body = l.body } };

    ghost invariant = { λ l. AreLimits (record { events = l.events; waiting = l.waiting; input = l.input; body = l.body }) };

    ghost inverse = { λ n. record { events = n.events; waiting = n.waiting; input = n.input; body = n.body } };
}

impl Limits {
    /// Limits of these numbers. None exactly where one is out of its range: 1 to 16,777,216 events, 0 to 16,777,216 that
    /// wait, 0 to 1,073,741,824 bytes of input, 668 to 1,073,741,824 bytes of a body.
    pub fn new(events: u32, waiting: u32, input: u32, body: u32) -> Option<Limits>
        ensures some { IsSome result ↔ AreLimits (record { events = events; waiting = waiting; input = input; body = body }) }
        ensures value { IfSome result (λ l. l ≡ record { events = events; waiting = waiting; input = input; body = body }) }
    {
        if events < 1 || events > MOST_EVENTS || waiting > MOST_EVENTS {
            return None;
        }
        if input > MOST_BYTES || body < LEAST_BODY || body > MOST_BYTES {
            return None;
        }
        Some(Limits {
            events,
            waiting,
            input,
            body,
        })
    }

    /// The limits of the program: 16,777,216 events, 65,536 that wait, 16,777,216 bytes of input, 1,048,576 of a body.
    pub fn program() -> Limits
        ensures { result ≡ program_limits }
    {
        Limits {
            events: MOST_EVENTS,
            waiting: 65_536,
            input: 16_777_216,
            body: 1_048_576,
        }
    }

    /// The most events of a history.
    pub fn events(&self) -> u32
        ensures value { result ≡ self.now.events }
        ensures range { AreLimits self.now }
    {
        self.events
    }

    /// The most events that wait.
    pub fn waiting(&self) -> u32
        ensures value { result ≡ self.now.waiting }
        ensures range { AreLimits self.now }
    {
        self.waiting
    }

    /// The most bytes of an input.
    pub fn input(&self) -> u32
        ensures value { result ≡ self.now.input }
        ensures range { AreLimits self.now }
    {
        self.input
    }

    /// The most bytes of a file of such a history.
    pub fn file_bytes(&self) -> u64
        ensures value { result ≡ most_file_bytes self.now.events }
        ensures small { result < 2 ^ 62 }
    {
        EMPTY_FILE + MOST_RECORD_BYTES * u64::from(self.events)
    }

    /// The most bytes of a frame's body.
    pub fn body(&self) -> u32
        ensures value { result ≡ self.now.body }
        ensures range { AreLimits self.now }
    {
        self.body
    }
}
