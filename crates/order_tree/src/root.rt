//! Edits of a whole tree.

ghost use Rattle.std.specs.Prelude.{◌≡◌, ℕ, ◌+◌, ◌*◌, ◌^◌, ◌<◌, ◌≤◌, true, None, is_some, ◌++◌, length, vec_capacity, IfOk, OnErr};
ghost use Rattle.order_tree.specs.Pairs.{IsRising, SumsFit, HasRoom};
ghost use Rattle.order_tree.specs.Edits.{IsPlaced, IsFree, StaysFit};
ghost use Rattle.order_tree.specs.Relabels.{relabelled, renamed, reached};
ghost use Rattle.order_tree.specs.Rights.{pairs_of_right, IsLike, IsLeft};
ghost use Rattle.order_tree.specs.Whole.{tree_of, IsTreeEdit};

use crate::branch::Branch;
use crate::edit::Edit;
use crate::leaf::Way;
use crate::spares::Spares;
use ew_model::NoMem;
use ew_model::run::Run;
use ew_model::steps::Steps;
use std::sync::ledger::Ledger;

/// Does an edit of a tree with runs, and answers the label of its new run.
pub fn edit_root<R: Run + Drop, L: Ledger>(
    root: &mut Option<Branch<R>>,
    label: u64,
    edit: Edit<R>,
    spares: &mut Spares<R>,
    visits: &mut Steps<L>,
) -> Result<u64, NoMem>
    requires some { is_some root.old ≡ true }
    requires rising { IsRising (tree_of root.old).pairs }
    requires placed { IsPlaced R.Run edit label (tree_of root.old).pairs }
    requires label { IsFree edit (2 ^ 64) (tree_of root.old).pairs label }
    requires fits { StaysFit R.Run edit label (tree_of root.old).pairs }
    requires deep { (tree_of root.old).depth + 1 < 2 ^ 32 }
    requires spares { spares.old ≡ 0 }
    ensures edited { IfOk result (λ own. IsTreeEdit R.Run edit label (tree_of root.old) (tree_of root.new) own) }
    ensures err { OnErr result (tree_of root.new ≡ tree_of root.old) }
    ensures cost { visits.new ≡ visits.old + (tree_of root.old).depth }
{
    let Some(branch) = root else { unreachable!() };
    let way = Way {
        label,
        most: u64::MAX,
        above: 1,
    };
    let done = branch.edit(edit, way, spares, visits)?;
    raise(root, done.right, spares);
    Ok(done.own)
}

/// Puts a new root above the old one and its second half, where it was cut in two.
fn raise<R: Run + Drop>(
    root: &mut Option<Branch<R>>,
    right: Option<Branch<R>>,
    spares: &mut Spares<R>,
)
    requires some { is_some root.old ≡ true }
    requires enough { 2 ^ (tree_of root.old).depth ≤ 2 * length (tree_of root.old).pairs }
    requires like { IsLike (tree_of root.old).depth right }
    requires left { IsLeft 1 right spares.old }
    requires fit { SumsFit R.Run ((tree_of root.old).pairs ++ pairs_of_right right) }
    requires deep { (tree_of root.old).depth + 1 < 2 ^ 32 }
    ensures pairs { (tree_of root.new).pairs ≡ (tree_of root.old).pairs ++ pairs_of_right right }
    ensures enough { 2 ^ (tree_of root.new).depth ≤ 2 * length (tree_of root.new).pairs }
{
    let Some(right) = right else { return };
    let Some(left) = root.take() else {
        unreachable!()
    };
    let depth = left.depth() + 1;
    let mut kids = spares.take();
    kids.push_reserved(left);
    kids.push_reserved(right);
    *root = Some(Branch::inner(depth, kids));
}

/// Puts a run behind a label, or before all runs at label 0, and answers its new label.
pub fn insert_run<R: Run + Drop, L: Ledger>(
    root: &mut Option<Branch<R>>,
    label: u64,
    run: R,
    spares: &mut Spares<R>,
    visits: &mut Steps<L>,
) -> Result<u64, NoMem>
    requires rising { IsRising (tree_of root.old).pairs }
    requires room { HasRoom (tree_of root.old).pairs label }
    requires fits { StaysFit R.Run (Edit.Insert run) label (tree_of root.old).pairs }
    requires deep { (tree_of root.old).depth + 1 < 2 ^ 32 }
    requires spares { spares.old ≡ 0 }
    ensures edited { IfOk result (λ own. IsTreeEdit R.Run (Edit.Insert run) label (tree_of root.old) (tree_of root.new) own) }
    ensures err { OnErr result (tree_of root.new ≡ tree_of root.old) }
    ensures cost { visits.new ≡ visits.old + (tree_of root.old).depth }
{
    if root.is_none() {
        return plant(root, label, run, spares);
    }
    edit_root(root, label, Edit::Insert(run), spares, visits)
}

/// Puts the first run.
fn plant<R: Run + Drop>(
    root: &mut Option<Branch<R>>,
    label: u64,
    run: R,
    spares: &mut Spares<R>,
) -> Result<u64, NoMem>
    requires none { root.old ≡ None }
    requires room { HasRoom (tree_of root.old).pairs label }
    requires fits { StaysFit R.Run (Edit.Insert run) label (tree_of root.old).pairs }
    requires spares { spares.old ≡ 0 }
    ensures edited { IfOk result (λ own. IsTreeEdit R.Run (Edit.Insert run) label (tree_of root.old) (tree_of root.new) own) }
    ensures err { OnErr result (tree_of root.new ≡ tree_of root.old) }
{
    let own = spares.choose(label, u64::MAX);
    let mut entries = spares.leaf_block(0)?;
    entries.push_reserved((own, run));
    *root = Some(Branch::leaf(entries));
    Ok(own)
}

/// Gives the runs of a tree new labels, the first a step above 0 and each a step above the one before, and notes of each
/// run the old label and the new, and the run.
pub fn relabel_root<R: Run + Copy, L: Ledger>(
    root: &mut Option<Branch<R>>,
    step: u64,
    given: &mut Vec<(u64, (u64, R))>,
    visits: &mut Steps<L>,
)
    requires room { length given.old.items + length (tree_of root.old).pairs ≤ vec_capacity given.old }
    requires small { reached step 0 (tree_of root.old).pairs < 2 ^ 64 }
    ensures pairs { (tree_of root.new).pairs ≡ relabelled step 0 (tree_of root.old).pairs }
    ensures depth { (tree_of root.new).depth ≡ (tree_of root.old).depth }
    ensures given { given.new.items ≡ given.old.items ++ renamed step 0 (tree_of root.old).pairs }
    ensures onward { length (tree_of root.old).pairs + 16 * visits.old ≤ 16 * visits.new }
    ensures cost { visits.new ≤ visits.old + 2 * length (tree_of root.old).pairs }
{
    let Some(branch) = root else { return };
    branch.relabel(0, step, given, visits);
}
