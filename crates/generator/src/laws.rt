//! What holds of every made history.

ghost use Rattle.generator.specs.Laws.{EditsAreSteps, GiftsArePushes, MadePeersAgree, MakingsAreNets};

/// Where no more edits are made than a history may have events, none is refused, and what is printed ends with `agree yes`. A drawn
/// edit is a local edit of a peer in a net, and a gift is a push that is delivered at once. So what is made is what three peers
/// make in a net by such steps.
pub fn law_made()
    ensures agreement { MadePeersAgree }
    ensures edits { EditsAreSteps }
    ensures gifts { GiftsArePushes }
    ensures nets { MakingsAreNets }
{}
