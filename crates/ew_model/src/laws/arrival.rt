//! What receiving leaves.

ghost use Rattle.ew_model.specs.ArrivalLaw.{ArrivalAgrees};
ghost use Rattle.ew_model.specs.MergeLaw.{HistoriesMerge, HistoriesMergeUnlessTheyClash};
ghost use Rattle.ew_model.specs.ReachLaws.{ArrivalsAppend};
ghost use Rattle.ew_model.specs.ReceivingLaws.{AncestorsJudge, ArrivalsEnd, ArrivalsKeep, GoodHasNoBad};
ghost use Rattle.ew_model.specs.StopLaws.{JudgementsAreAFront};

/// Whatever arrives, what is held stays good, no id comes to stand twice, and no list grows too long.
pub fn law_arrivals()
    ensures { ArrivalsKeep }
{}

/// An event is judged by its ancestors.
pub fn law_ancestors()
    ensures { AncestorsJudge }
{}

/// The same events, received in any order and with any repeats, leave the same events held and the same waiting,
/// where no list is full.
pub fn law_arrival()
    ensures { ArrivalAgrees }
{}

/// A good history that is received where nothing waits is taken whole, where no list is full.
pub fn law_merge()
    ensures { HistoriesMerge }
{}

/// The answers alone tell that it was: where none of them is a clash, and the history isn't full.
pub fn law_merge_unless_clash()
    ensures { HistoriesMergeUnlessTheyClash }
{}

/// Receiving goes on until nothing is left to judge.
pub fn law_arrivals_end()
    ensures { ArrivalsEnd }
{}

/// A list of events is good exactly where none of them is bad.
pub fn law_good()
    ensures { GoodHasNoBad }
{}

/// What was held stays, and what came behind it are the events answered Good, in order.
pub fn law_appends()
    ensures { ArrivalsAppend }
{}

/// Where receiving stops between two judgements, what is held and what was answered is a front of what receiving all comes to,
/// and what is still to come is the end of what was received. Which events were judged then is a law of `history_laws`.
pub fn law_stops()
    ensures { JudgementsAreAFront }
{}
