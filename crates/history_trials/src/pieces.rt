//! Receiving in pieces, and what is told of all of them together.

ghost use Rattle.std.specs.Prelude.{◌<◌, ◌^◌, length};

use crate::readback::is_read_back;
use ew_model::NoMem;
use ew_model::event::Event;
use ew_model::id::Id;
use ew_model::steps::Steps;
use ew_model::verdict::Refusal;
use replica::{Replica, Stopped, Took};
use std::alloc::Global;
use std::sync::ledger::Ledger;

/// What was told of the pieces so far.
#[derive(Drop)]
pub struct Pieces {
    pub accepted: u64,
    pub repeats: u64,
    pub refused: Vec<(Id, Refusal)>,
    /// How many events wait.
    pub waiting: u32,
    /// The least cut that was told.
    pub cut: u32,
    /// Whether receiving stopped for want of memory.
    pub stopped: bool,
    /// Whether each state on the way was read back, and each event that was judged was counted once.
    pub sound: bool,
}

impl Pieces {
    /// Nothing yet, where so many events wait already.
    pub fn new(alloc: Global, waiting: u32) -> Pieces {
        Pieces {
            accepted: 0,
            repeats: 0,
            refused: Vec::new(alloc),
            waiting,
            cut: u32::MAX,
            stopped: false,
            sound: true,
        }
    }

    /// Takes in what was told of so many judged events.
    fn add(&mut self, took: &Took, judged: usize) -> Result<(), NoMem> {
        let refused = took.refused.len() as u64;
        let kept = u64::from(took.accepted)
            .saturating_add(u64::from(took.waiting))
            .saturating_add(u64::from(took.repeats));
        let before = (judged as u64).saturating_add(u64::from(self.waiting));
        self.sound = self.sound && kept.saturating_add(refused) == before;
        self.accepted = self.accepted.saturating_add(u64::from(took.accepted));
        self.repeats = self.repeats.saturating_add(u64::from(took.repeats));
        self.waiting = took.waiting;
        self.cut = self.cut.min(took.cut);
        for (id, refusal) in &took.refused {
            self.refused.push((*id, *refusal))?;
        }
        Ok(())
    }
}

/// Receives events. Answers what was told, and those that weren't judged, for want of memory.
fn take_in<L: Ledger>(
    alloc: Global,
    replica: &mut Replica,
    events: Vec<Event>,
    steps: &mut Steps<L>,
) -> (Took, Vec<Event>)
    requires { length events.items < 2 ^ 32 }
{
    match replica.receive(events, steps) {
        Ok(took) => (took, Vec::new(alloc)),
        Err(Stopped { took, rest }) => (took, rest),
    }
}

/// How many events wait.
pub fn waiting<L: Ledger>(alloc: Global, replica: &mut Replica, steps: &mut Steps<L>) -> u32 {
    let (took, _rest) = take_in(alloc, replica, Vec::new(alloc), steps);
    took.waiting
}

/// Receives a piece, and answers those of its events that weren't judged.
fn receive_piece<L: Ledger>(
    alloc: Global,
    replica: &mut Replica,
    events: Vec<Event>,
    pieces: &mut Pieces,
    steps: &mut Steps<L>,
) -> Result<Vec<Event>, NoMem> {
    let given = events.len();
    if given > u32::MAX as usize {
        return Err(NoMem);
    }
    let (took, rest) = take_in(alloc, replica, events, steps);
    pieces.add(&took, given.saturating_sub(rest.len()))?;
    pieces.sound = pieces.sound && is_read_back(alloc, replica, steps)?;
    Ok(rest)
}

/// Receives events, and again what was handed back of them.
pub fn receive_all<L: Ledger>(
    alloc: Global,
    replica: &mut Replica,
    events: Vec<Event>,
    pieces: &mut Pieces,
    steps: &mut Steps<L>,
) -> Result<(), NoMem> {
    let rest = receive_piece(alloc, replica, events, pieces, steps)?;
    if rest.is_empty() {
        return Ok(());
    }
    pieces.stopped = true;
    let rest = receive_piece(alloc, replica, rest, pieces, steps)?;
    pieces.sound = pieces.sound && rest.is_empty();
    Ok(())
}
