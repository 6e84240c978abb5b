//! Where searches for runs begin.

ghost use Rattle.std.specs.Prelude.{◌≡◌, ◌+◌, ◌/◌, ◌<◌, ◌^◌, [], length, take, slice_get, OnOk, OnErr};

use ew_model::NoMem;
use std::alloc::Global;

/// One place is kept for so many events.
const SPACING: u32 = 16;

/// The place of a run for each sixteenth event: of the run that has it, or of one before that. A search begins there. It finds the
/// run of an event wherever it begins, so no contract says which places these are: they save time.
#[derive(Drop)]
pub struct Starts {
    places: Vec<u32>,
}

impl Starts {
    /// No places. It takes no memory.
    pub fn new(alloc: Global) -> Starts
        ensures { result.places.items ≡ [] }
    {
        Starts {
            places: Vec::new(alloc),
        }
    }

    /// The place where the search for the run of an event begins, if one is kept.
    pub fn get(&self, position: u32) -> Option<usize>
        ensures { result ≡ slice_get self.now.places.items (position / 16) }
    {
        let place = self.places.get((position / SPACING) as usize)?;
        Some(*place as usize)
    }

    /// Keeps places for so many events. A new one is that of the last of so many runs.
    pub fn set_count(&mut self, count: u32, runs: usize) -> Result<(), NoMem>
        requires { runs < 2 ^ 32 }
        ensures many { OnOk result (length self.new.places.items ≡ (count + 15) / 16) }
        ensures same { OnErr result (self.new.places.items ≡ self.old.places.items) }
    {
        let places = places_of(count);
        if self.places.len() != places {
            self.places.resize(places, runs.saturating_sub(1) as u32)?;
        }
        Ok(())
    }

    /// Leaves the places of the first so many events.
    pub fn truncate(&mut self, count: u32)
        ensures { self.new.places.items ≡ take ((count + 15) / 16) self.old.places.items }
    {
        self.places.truncate(places_of(count));
    }
}

/// How many places so many events have.
fn places_of(count: u32) -> usize
    ensures { result ≡ (count + 15) / 16 }
{
    count.div_ceil(SPACING) as usize
}
