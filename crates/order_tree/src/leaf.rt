//! Edits of a leaf.

ghost use Rattle.std.specs.Prelude.{◌≡◌, ℕ, ◌+◌, ◌-◌, ◌<◌, ◌≤◌, Some, None, [], ◌∷◌, ◌++◌, length, Contains, vec_capacity, IfSome, IfNone, IfOk, IsOkAnd, OnErr};
ghost use Rattle.order_tree.specs.Pairs.{IsRising, HasRoomBelow};
ghost use Rattle.order_tree.specs.Blocks.{items_of, IsHalved, IsSupplied};
ghost use Rattle.order_tree.specs.Edits.{IsPlaced, IsFree, IsEdited};

use crate::edit::{Edit, put};
use crate::label::share;
use crate::part::{entries_up_to, free_before, place_of};
use crate::spares::{MOST_PARTS, Spares};
use crate::summary::Sums;
use ew_model::NoMem;
use ew_model::run::Run;

/// Where an edit goes: its label, the greatest label that is free behind all runs here, and how many full nodes stand right above.
#[derive(Clone, Copy, Debug)]
pub struct Way {
    pub label: u64,
    pub most: u64,
    pub above: u32,
}

/// What an edit of a leaf did: the label of its new run, the sums lost and gained, and the second half where it was cut in two.
#[derive(Drop)]
pub struct LeafEdited<R: Run> {
    pub own: u64,
    pub lost: Sums,
    pub gained: Sums,
    pub tail: Option<Vec<(u64, R)>>,
}

/// Does an edit in a leaf.
pub fn edit_leaf<R: Run + Drop>(
    entries: &mut Vec<(u64, R)>,
    edit: Edit<R>,
    way: Way,
    spares: &mut Spares<R>,
) -> Result<LeafEdited<R>, NoMem>
    requires some { 1 ≤ length entries.old.items }
    requires few { length entries.old.items ≤ 16 }
    requires room { 16 ≤ vec_capacity entries.old }
    requires rising { IsRising entries.old.items }
    requires placed { IsPlaced R.Run edit way.label entries.old.items }
    requires label { IsFree edit (way.most + 1) entries.old.items way.label }
    requires spares { spares.old ≡ 0 }
    ensures edited { IfOk result (λ d. IsEdited R.Run edit (way.most + 1) way.label entries.old.items (entries.new.items ++ items_of d.tail) d.own d.lost d.gained) }
    ensures halved { IfOk result (λ d. IsHalved way.above entries.new.items d.tail spares.new) }
    ensures room { 16 ≤ vec_capacity entries.new }
    ensures err { OnErr result (entries.new.items ≡ entries.old.items) }
{
    match edit {
        Edit::Insert(run) => insert_entry(entries, run, way, spares),
        Edit::Split { at, given } => split_entry(entries, at, given, way, spares),
    }
}

/// Puts a run behind a label.
fn insert_entry<R: Run + Drop>(
    entries: &mut Vec<(u64, R)>,
    run: R,
    way: Way,
    spares: &mut Spares<R>,
) -> Result<LeafEdited<R>, NoMem>
    requires some { 1 ≤ length entries.old.items }
    requires few { length entries.old.items ≤ 16 }
    requires room { 16 ≤ vec_capacity entries.old }
    requires rising { IsRising entries.old.items }
    requires label { HasRoomBelow (way.most + 1) entries.old.items way.label }
    requires spares { spares.old ≡ 0 }
    ensures edited { IfOk result (λ d. IsEdited R.Run (Edit.Insert run) (way.most + 1) way.label entries.old.items (entries.new.items ++ items_of d.tail) d.own d.lost d.gained) }
    ensures halved { IfOk result (λ d. IsHalved way.above entries.new.items d.tail spares.new) }
    ensures room { 16 ≤ vec_capacity entries.new }
    ensures err { OnErr result (entries.new.items ≡ entries.old.items) }
{
    let list = entries.as_slice();
    let k = entries_up_to(list, way.label);
    let most = free_before(list, k, way.most);
    let own = spares.choose(way.label, most);
    let block = block_for(list.len(), way.above, spares)?;
    let gained = Sums::of(&run);
    let tail = put(entries, k, (own, run), block);
    Ok(LeafEdited {
        own,
        lost: Sums::NONE,
        gained,
        tail,
    })
}

/// Cuts the run of a label, and puts its second part behind it, under the label that is given, or one that is free there.
fn split_entry<R: Run + Drop>(
    entries: &mut Vec<(u64, R)>,
    at: u32,
    given: Option<u64>,
    way: Way,
    spares: &mut Spares<R>,
) -> Result<LeafEdited<R>, NoMem>
    requires some { 1 ≤ length entries.old.items }
    requires few { length entries.old.items ≤ 16 }
    requires room { 16 ≤ vec_capacity entries.old }
    requires rising { IsRising entries.old.items }
    requires placed { IsPlaced R.Run (Edit.Split at given) way.label entries.old.items }
    requires label { IsFree (Edit.Split at given) (way.most + 1) entries.old.items way.label }
    requires spares { spares.old ≡ 0 }
    ensures edited { IfOk result (λ d. IsEdited R.Run (Edit.Split at given) (way.most + 1) way.label entries.old.items (entries.new.items ++ items_of d.tail) d.own d.lost d.gained) }
    ensures halved { IfOk result (λ d. IsHalved way.above entries.new.items d.tail spares.new) }
    ensures room { 16 ≤ vec_capacity entries.new }
    ensures err { OnErr result (entries.new.items ≡ entries.old.items) }
{
    let list = entries.as_slice();
    let k = place_of(list, way.label);
    let most = free_before(list, k + 1, way.most);
    let run = &list[k].1;
    let own = label_for(given, way.label, most, at, run.size());
    let block = block_for(list.len(), way.above, spares)?;
    let lost = Sums::of(run);
    let (first, second) = run.split(at);
    let gained = Sums::of(&first).plus(Sums::of(&second));
    entries[k] = (way.label, first);
    let tail = put(entries, k + 1, (own, second), block);
    Ok(LeafEdited {
        own,
        lost,
        gained,
        tail,
    })
}

/// The label that is given, or the share of what is free above `label` and up to `most` of the second part of a run of so many
/// characters, where it is cut at one of them.
fn label_for(given: Option<u64>, label: u64, most: u64, at: u32, size: u32) -> u64
    requires inside { at < size }
    requires free { IfNone given (label < most) }
    requires between { IfSome given (λ own. (label < own) × (own ≤ most)) }
    ensures above { label < result }
    ensures within { result ≤ most }
    ensures given { IfSome given (λ own. result ≡ own) }
{
    match given {
        Some(own) => own,
        None => share(label, most, at, size),
    }
}

/// Takes the blocks that one more run of a leaf needs, which has so many: none where there is room.
fn block_for<R: Run + Drop>(
    runs: usize,
    above: u32,
    spares: &mut Spares<R>,
) -> Result<Option<Vec<(u64, R)>>, NoMem>
    requires few { runs ≤ 16 }
    requires spares { spares.old ≡ 0 }
    ensures { IfOk result (λ block. IsSupplied runs above block spares.new) }
{
    if runs < MOST_PARTS {
        return Ok(None);
    }
    Ok(Some(spares.leaf_block(above)?))
}
