//! What holds of any journal's bytes, and of a journal over every list of calls and crashes.

ghost use Rattle.event_journal.specs.FoundLaw.{BatchesAreFound};
ghost use Rattle.event_journal.specs.LastingLaw.{NoBatchIsLost};

/// No acknowledged batch is ever lost.
pub fn law_lasting()
    ensures { NoBatchIsLost }
{}

/// Any bytes hold batches, and then there is a bad place or none. (`peer_frames` proves that there is one such reading.)
pub fn law_found()
    ensures { BatchesAreFound }
{}
