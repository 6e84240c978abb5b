//! What receiving answers.

use ew_model::event::Event;
use ew_model::id::Id;
use ew_model::verdict::Refusal;

/// What was answered to received events.
#[derive(Drop)]
pub struct Took {
    /// How many events were appended, from the waiting ones too.
    pub accepted: u32,
    /// How many events wait now.
    pub waiting: u32,
    /// How many were held or waited already.
    pub repeats: u32,
    /// Those that were refused, in order of judging.
    pub refused: Vec<(Id, Refusal)>,
    /// The greatest critical cut of the history that isn't above the number of events held before.
    pub cut: u32,
}

/// Memory was short on the way. What is told was done, and no more.
#[derive(Drop)]
pub struct Stopped {
    pub took: Took,
    /// The received events that weren't judged, in order.
    pub rest: Vec<Event>,
}
