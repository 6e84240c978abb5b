//! Batches of events, and the limits of the journals that they are appended to.

use ew_model::event::Event;
use ew_model::limits::Limits;
use std::alloc::Global;
use trial_rows::fault::Fault;
use trial_rows::words::{first_word, history, number};

#[derive(Drop)]
pub struct Batches {
    pub limits: Limits,
    pub batches: Vec<Vec<Event>>,
    /// The events of all batches, in order.
    events: Vec<Event>,
}

impl Batches {
    /// `EVENTS BODY a:0 x@0 | a:1 y@1; a:2 mark@m`: the limits, and batches with ` | ` between two. There may be none.
    pub fn read(alloc: Global, words: &str) -> Result<Batches, Fault> {
        let (most_events, rest) = first_word(words);
        let (most_body, texts) = first_word(rest);
        let limits = Limits::new(number(most_events)?, 0, 0, number(most_body)?).ok_or(
            Fault::Unreadable,
        )?;
        let mut batches = Vec::new(alloc);
        let mut events = Vec::new(alloc);
        for text in texts.split(" | ").filter(|text| !text.is_empty()) {
            let batch = history(alloc, text)?;
            for event in &batch {
                events.push(event.copy()?)?;
            }
            batches.push(batch)?;
        }
        Ok(Batches {
            limits,
            batches,
            events,
        })
    }

    /// Whether these events are the first ones here.
    pub fn begin_with(&self, events: &[Event]) -> bool {
        events.len() <= self.events.len() && events.iter().zip(&self.events).all(|(e, o)| e.same(o))
    }
}
