//! What texts are.

ghost use Rattle.ew_model.specs.TextLaws.{EqualSetsAgree, EventsMeanTheirIndex, HeadsHoldAll, OperationsFit, OperationsMakeText};

/// An index is meant in the text at the event's parents: the text of the version that ends with the event is that text with
/// the event's own change.
pub fn law_index()
    ensures { EventsMeanTheirIndex }
{}

/// Replicas with equal events show equal text.
pub fn law_equal()
    ensures { EqualSetsAgree }
{}

/// A text is what the operations of its events make of the empty text.
pub fn law_operations()
    ensures { OperationsMakeText }
{}

/// Each operation is in range where it is done.
pub fn law_fit()
    ensures { OperationsFit }
{}

/// The version of the heads is the whole history.
pub fn law_heads()
    ensures { HeadsHoldAll }
{}
