//! What holds of questions and answers.

ghost use Rattle.peer_exchange.specs.Laws.{FramesAreFull, MissingAreUnheld};

/// Asked with the summary of a good history, just the events are missing that it doesn't hold, where one id names one event.
pub fn law_missing()
    ensures { MissingAreUnheld }
{}

/// The events of an answer are cut into frames that are full but the last, and they are all there, in order.
pub fn law_frames()
    ensures { FramesAreFull }
{}
