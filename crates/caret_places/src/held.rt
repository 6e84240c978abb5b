//! Carets in the texts of a replica.

ghost use Rattle.std.specs.Prelude.{◌≡◌, ◌↔◌, ◌+◌, ◌<◌, ◌≤◌, ℕ, None, Some, length, IfOk};
ghost use Rattle.ew_model.specs.declared.id.Id.{Id};
ghost use Rattle.ew_model.specs.Ancestors.{version_events};
ghost use Rattle.ew_model.specs.Texts.{visible_at};
ghost use Rattle.ew_model.specs.Touches.{touches};
ghost use Rattle.ew_model.specs.Verdicts.{first_unknown};
ghost use Rattle.carets.specs.Sides as model;
ghost use Rattle.caret_places.specs.Faults.{fault_of};

use crate::fault::CaretFault;
use crate::taking::caret_in_version;
use crate::whole::index_in_text;
use carets::Caret;
use ew_model::NoMem;
use ew_model::id::Id;
use ew_model::steps::Steps;
use replica::Replica;
use std::alloc::Global;
use std::sync::ledger::Ledger;

/// The caret at an index of a version's text. It takes at most one walk, over the version's own events.
pub fn caret_at<L: Ledger>(
    alloc: Global,
    replica: &Replica,
    version: &[Id],
    at: u32,
    steps: &mut Steps<L>,
) -> Result<Caret, CaretFault>
    ensures caret { IfOk result (λ c. model.caret_at replica.now.held version.now at ≡ Some c) }
    ensures unknown { (x : Id) → result ≡ Err (CaretFault.Unknown x) ↔ (first_unknown replica.now.held version.now ≡ Some x) }
    ensures out_of_range { (len : ℕ) → result ≡ Err (CaretFault.OutOfRange len) → (len ≡ length (visible_at replica.now.held version.now)) × (len < at) }
    ensures most { steps.new ≤ steps.old + touches (version_events replica.now.held version.now) 0 }
{
    caret_in_version(alloc, replica.graph(), version, at, steps)
}

/// The index of a caret in the text, where the caret is at the start or behind a character that the replica holds. It takes one walk
/// over all events.
pub fn index_of<L: Ledger>(
    alloc: Global,
    replica: &Replica,
    caret: &Caret,
    steps: &mut Steps<L>,
) -> Result<u32, NoMem>
    requires { fault_of replica.now.held caret.now ≡ None }
    ensures index { IfOk result (λ i. i ≡ model.side replica.now.held caret.now) }
    ensures most { steps.new ≤ steps.old + touches replica.now.held 0 }
{
    index_in_text(alloc, replica.graph(), caret, steps)
}
