//! The state of a replica, read back: a replica made of the events that it holds has the same.

use ew_model::NoMem;
use ew_model::steps::Steps;
use replica::{LoadFault, Replica};
use std::alloc::Global;
use std::sync::ledger::Ledger;

/// Whether the text after each event is as long in both, and the same cuts are critical.
fn have_same_lengths(one: &Replica, other: &Replica) -> bool {
    if one.count() != other.count() {
        return false;
    }
    for count in 0..one.count() {
        let same = one.length_at(count) == other.length_at(count);
        if !same || one.graph().is_cut(count) != other.graph().is_cut(count) {
            return false;
        }
    }
    one.len() == other.len()
}

/// Whether a replica made of the events held has the same text, lengths, heads and critical cuts.
pub fn is_read_back<L: Ledger>(
    alloc: Global,
    replica: &Replica,
    steps: &mut Steps<L>,
) -> Result<bool, NoMem> {
    let events = replica.events()?;
    let again = match Replica::from_events(alloc, events, replica.limits(), steps) {
        Ok(again) => again,
        Err(LoadFault::OutOfMemory) => return Err(NoMem),
        Err(LoadFault::BadEvent { .. }) => return Ok(false),
    };
    are_the_same(&again, replica)
}

fn are_the_same(again: &Replica, replica: &Replica) -> Result<bool, NoMem> {
    let text = replica.text()?;
    Ok(
        again.agrees(replica)
            && again.text()? == text
            && again.heads() == replica.heads()
            && have_same_lengths(again, replica),
    )
}
