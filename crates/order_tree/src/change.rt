//! Another run in the place of a label's, always or where a test lets it.

ghost use Rattle.std.specs.Prelude.{◌≡◌, ℕ, ◌+◌, ◌-◌, ◌<◌, ◌≤◌, Option, Some, None, length, Contains, vec_capacity};
ghost use Rattle.order_tree.specs.Pairs.{IsRising, changed};
ghost use Rattle.order_tree.specs.Parts.{sums_of, IsMoved};
ghost use Rattle.order_tree.specs.Alterations.{IsAnswer};

use crate::part::place_of;
use crate::summary::Sums;
use ew_model::run::Run;

/// What a change took off the sums of runs, and what it added to them.
#[derive(Clone, Copy, Debug)]
pub struct Moved {
    pub lost: Sums,
    pub gained: Sums,
}

/// A change that a run takes or refuses.
pub trait Alteration<R: Run> {
    /// The change may be tried on this run.
    ghost suits: { Self → R → Type 0 };

    /// Trying it on a run may answer this: the run that comes in its place, or None where the run refuses it.
    ghost makes: { Self → R → Option R → Type 0 };

    /// The run that comes in the place of this one; None where this one refuses the change.
    fn alter(&self, run: &R) -> Option<R>
        requires { suits self.now run.now }
        ensures { makes self.now run.now result };
}

/// The run of a label before a change that it took, and after it.
#[derive(Clone, Copy)]
pub struct Altered<R: Run> {
    pub before: R,
    pub after: R,
}

/// A run that took a change, and what this did to the sums.
#[derive(Clone, Copy)]
pub struct Taken<R: Run> {
    pub altered: Altered<R>,
    pub moved: Moved,
}

/// Puts another run in the place of a label's in a leaf.
pub fn change_entry<R: Run + Drop>(entries: &mut Vec<(u64, R)>, label: u64, run: R) -> Moved
    requires room { 16 ≤ vec_capacity entries.old }
    requires rising { IsRising entries.old.items }
    requires held { (r : R) × Contains entries.old.items (label, r) }
    ensures pairs { entries.new.items ≡ changed entries.old.items label run }
    ensures moved { IsMoved (sums_of R.Run entries.old.items) result.lost result.gained (sums_of R.Run entries.new.items) }
    ensures gained { result.gained.known ≡ R.known run }
    ensures room { 16 ≤ vec_capacity entries.new }
{
    let list = entries.as_slice();
    let k = place_of(list, label);
    let lost = Sums::of(&list[k].1);
    let gained = Sums::of(&run);
    entries[k] = (label, run);
    Moved { lost, gained }
}

/// Tries a change on the run of a label in a leaf. None, and nothing changes, where the run refuses it.
pub fn alter_entry<R: Run + Copy + Drop, A: Alteration<R>>(
    entries: &mut Vec<(u64, R)>,
    label: u64,
    alteration: &A,
) -> Option<Taken<R>>
    requires room { 16 ≤ vec_capacity entries.old }
    requires rising { IsRising entries.old.items }
    requires held { (r : R) × Contains entries.old.items (label, r) }
    requires suits { (run : R) → Contains entries.old.items (label, run) → A.suits alteration.now run }
    ensures taken { IsAnswer R.Run (A.makes alteration.now) label entries.old.items entries.new.items result }
    ensures room { 16 ≤ vec_capacity entries.new }
{
    let list = entries.as_slice();
    let k = place_of(list, label);
    let before = list[k].1;
    let after = alteration.alter(&before)?;
    let lost = Sums::of(&before);
    let gained = Sums::of(&after);
    entries[k] = (label, after);
    Some(Taken {
        altered: Altered { before, after },
        moved: Moved { lost, gained },
    })
}
