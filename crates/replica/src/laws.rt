//! What holds of replicas that received events in whatever order, and of what receiving takes.

ghost use Rattle.ew_model.specs.ArrivalLaw.{ArrivalAgrees};
ghost use Rattle.ew_model.specs.ReceivingLaws.{AncestorsJudge};
ghost use Rattle.ew_model.specs.TextLaws.{EqualSetsAgree};
ghost use Rattle.replica.specs.Sparing.{CutsSpare};

use ew_model::laws::{arrival, texts};

/// Replicas with equal events show equal text.
pub fn law_equal()
    ensures { EqualSetsAgree }
{
    texts::law_equal();
}

/// The same events, received in any order and with any repeats, leave the same events held and the same waiting,
/// where no list is full.
pub fn law_arrival()
    ensures { ArrivalAgrees }
{
    arrival::law_arrival();
}

/// An event is judged by its ancestors.
pub fn law_ancestors()
    ensures { AncestorsJudge }
{
    arrival::law_ancestors();
}

/// The touches of a walk from a critical cut on are those of the events behind the cut alone. So they don't depend on how many
/// events stand before it.
pub fn law_cuts()
    ensures { CutsSpare }
{}
