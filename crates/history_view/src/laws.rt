//! What a reader of the listings may rely on.

ghost use Rattle.history_view.specs.LogLaw.{LogsDiffer};
ghost use Rattle.history_view.specs.ReplayLaw.{ReplaysMakeText};

/// A log is read back: no two histories with different events have the same log.
pub fn law_logs()
    ensures { LogsDiffer }
{}

/// The replay of a good history is read in one way, as operations, and doing these in order, from the empty text on, makes its text.
pub fn law_replays()
    ensures { ReplaysMakeText }
{}
