//! Changes of a whole tree, which has no node where there are no characters.

ghost use Rattle.std.specs.Prelude.{◌≡◌, ◌+◌, ◌*◌, ◌^◌, ◌<◌, ◌≤◌, [], ◌++◌, length, take, IfOk, IsOk, OnOk, OnErr};
ghost use Rattle.ew_model.specs.Operations.{changed_by_all};
ghost use Rattle.ew_model.specs.TextLaws.{AllFit};
ghost use Rattle.rope.specs.Changes.{room_for_all};
ghost use Rattle.rope.specs.Deletions.{without, DeletesFrom};
ghost use Rattle.rope.specs.Lengths.{most_chars, AllStayShort};
ghost use Rattle.rope.specs.Typed.{typed, with_more, IsTyped};
ghost use Rattle.rope.specs.Whole.{chars_of_root, depth_of, IsRoot, IsRooted};
ghost use Rattle.rope.specs.Rights.{IsLike, IsLeft, chars_of_right};
ghost use Rattle.operation_runs.specs.Runs.{run_ops, RunFits};

use crate::branch::Branch;
use crate::deletions::first_deletions;
use crate::spares::Spares;
use crate::typed::{MOST_TYPED, put_typed, typed_length};
use ew_model::NoMem;
use ew_model::text_op::TextOp;
use operation_runs::{OperationRun, OperationRuns};
use std::alloc::Global;

/// How many blocks one insertion needs at most.
pub const MOST_BLOCKS: u32 = 25;

/// A tree with the same nodes.
pub fn copy_root(root: &Option<Branch>, alloc: Global) -> Result<Option<Branch>, NoMem>
    ensures { IfOk result (λ copy. copy ≡ root.now) }
{
    match root {
        None => Ok(None),
        Some(branch) => Ok(Some(branch.copy(alloc)?)),
    }
}

/// Puts the characters of typed operations in at an index. What is wanting for them is taken before the first change.
pub fn insert_typed(
    root: &mut Option<Branch>,
    at: u32,
    ops: &[TextOp],
    spares: &mut Spares,
) -> Result<(), NoMem>
    requires within { at ≤ length (chars_of_root root.old) }
    requires short { length (chars_of_root root.old) + length (typed ops.now) ≤ most_chars }
    requires some { 0 < length (typed ops.now) }
    requires few { length ops.now ≤ 32 }
    requires root { IsRoot root.old }
    ensures ok { OnOk result (chars_of_root root.new ≡ with_more (chars_of_root root.old) at (typed ops.now)) }
    ensures err { OnErr result (root.new ≡ root.old) }
    ensures root { IsRoot root.new }
    ensures leaves { spares.old.leaves ≤ spares.new.leaves + 1 }
    ensures nodes { spares.old.nodes ≤ spares.new.nodes + 25 }
    ensures sure { 1 ≤ spares.old.leaves → 25 ≤ spares.old.nodes → IsOk result }
{
    let Some(branch) = root else {
        return plant(root, ops, spares);
    };
    let right = branch.insert(at, ops, 1, spares)?;
    raise(root, right, spares);
    Ok(())
}

/// Puts the first characters.
fn plant(root: &mut Option<Branch>, ops: &[TextOp], spares: &mut Spares) -> Result<(), NoMem>
    requires none { chars_of_root root.old ≡ [] }
    requires some { 0 < length (typed ops.now) }
    requires few { length ops.now ≤ 32 }
    ensures ok { OnOk result (chars_of_root root.new ≡ with_more [] 0 (typed ops.now)) }
    ensures err { OnErr result (root.new ≡ root.old) }
    ensures root { IsRoot root.old → IsRoot root.new }
    ensures leaves { spares.old.leaves ≤ spares.new.leaves + 1 }
    ensures nodes { spares.old.nodes ≤ spares.new.nodes }
    ensures sure { 1 ≤ spares.old.leaves → IsOk result }
{
    spares.hold(1, 0)?;
    let mut leaf = spares.take_leaf();
    put_typed(&mut leaf, 0, ops);
    *root = Some(Branch::leaf(leaf));
    Ok(())
}

/// Puts a new root above the old one and its second part, where it was cut in two.
fn raise(root: &mut Option<Branch>, right: Option<Branch>, spares: &mut Spares)
    requires root { IsRooted root.old }
    requires like { IsLike (depth_of root.old) right }
    requires left { IsLeft 1 right spares.old.nodes }
    requires small { length (chars_of_root root.old) + length (chars_of_right right) < 2 ^ 32 }
    requires deep { depth_of root.old + 1 < 2 ^ 32 }
    ensures chars { chars_of_root root.new ≡ chars_of_root root.old ++ chars_of_right right }
    ensures root { IsRooted root.new }
    ensures leaves { spares.new.leaves ≡ spares.old.leaves }
    ensures nodes { spares.old.nodes ≤ spares.new.nodes + 1 }
{
    let Some(right) = right else { return };
    let Some(left) = root.take() else {
        unreachable!()
    };
    let depth = left.depth() + 1;
    let mut kids = spares.take_block();
    kids.push_reserved(left);
    kids.push_reserved(right);
    *root = Some(Branch::inner(depth, kids));
}

/// Takes so many characters out from an index on.
pub fn remove_chars(root: &mut Option<Branch>, at: u32, many: u32)
    requires within { at + many ≤ length (chars_of_root root.old) }
    requires small { length (chars_of_root root.old) < 2 ^ 32 }
    requires root { IsRoot root.old }
    ensures chars { chars_of_root root.new ≡ without (chars_of_root root.old) at many }
    ensures root { IsRoot root.new }
{
    let mut left = many;
    while left > 0 {
        left -= remove_in_leaf(root, at, left);
    }
}

/// Takes characters out of the leaf with an index, from there on: so many, or all that it has there. Answers how many.
fn remove_in_leaf(root: &mut Option<Branch>, at: u32, most: u32) -> u32
    requires within { at < length (chars_of_root root.old) }
    requires some { 1 ≤ most }
    requires small { length (chars_of_root root.old) < 2 ^ 32 }
    requires root { IsRoot root.old }
    ensures chars { chars_of_root root.new ≡ without (chars_of_root root.old) at result }
    ensures some { 1 ≤ result }
    ensures most { result ≤ most }
    ensures inside { at + result ≤ length (chars_of_root root.old) }
    ensures root { IsRoot root.new }
{
    let Some(mut branch) = root.take() else {
        unreachable!()
    };
    let many = branch.remove(at, most);
    *root = lowered(branch);
    many
}

/// The tree of a branch after a removal: a root with one branch gives way to it, and a leaf without characters to nothing.
fn lowered(branch: Branch) -> Option<Branch>
    ensures chars { chars_of_root result ≡ branch.chars }
    ensures root { IsRoot result }
{
    if branch.is_sound() {
        return Some(branch);
    }
    match branch.into_last() {
        None => None,
        Some((kid, _)) => Some(kid),
    }
}

/// Does the operations one after another. After a refusal some of them are done.
pub fn change_all(
    root: &mut Option<Branch>,
    ops: &[TextOp],
    spares: &mut Spares,
) -> Result<(), NoMem>
    requires fit { AllFit (chars_of_root root.old) ops.now }
    requires short { AllStayShort (chars_of_root root.old) ops.now }
    requires root { IsRoot root.old }
    ensures ok { OnOk result (chars_of_root root.new ≡ changed_by_all ops.now (chars_of_root root.old)) }
    ensures root { IsRoot root.new }
    ensures sure { room_for_all ops.now ≤ spares.old.leaves → 25 * room_for_all ops.now ≤ spares.old.nodes → IsOk result }
{
    let mut rest = ops;
    while !rest.is_empty() {
        let many = change_first(root, rest, spares)?;
        let (_, behind) = rest.split_at(many);
        rest = behind;
    }
    Ok(())
}

/// Does the first of the operations, and with an insertion those that type on behind it, with a deletion those that delete on at its place or
/// before it. Answers how many are done.
fn change_first(
    root: &mut Option<Branch>,
    ops: &[TextOp],
    spares: &mut Spares,
) -> Result<usize, NoMem>
    requires some { 0 < length ops.now }
    requires fit { AllFit (chars_of_root root.old) ops.now }
    requires short { AllStayShort (chars_of_root root.old) ops.now }
    requires root { IsRoot root.old }
    ensures some { IfOk result (λ n. (1 ≤ n) × (n ≤ length ops.now)) }
    ensures ok { IfOk result (λ n. chars_of_root root.new ≡ changed_by_all (take n ops.now) (chars_of_root root.old)) }
    ensures root { IsRoot root.new }
    ensures leaves { IfOk result (λ n. spares.old.leaves ≤ spares.new.leaves + room_for_all (take n ops.now)) }
    ensures nodes { IfOk result (λ n. spares.old.nodes ≤ spares.new.nodes + 25 * room_for_all (take n ops.now)) }
    ensures sure { room_for_all ops.now ≤ spares.old.leaves → 25 * room_for_all ops.now ≤ spares.old.nodes → IsOk result }
{
    match ops[0] {
        TextOp::Ins { at, .. } => change_typed(root, at, ops, spares),
        TextOp::Del { at } => Ok(change_deleted(root, at, ops)),
        TextOp::Nothing => Ok(1),
    }
}

/// Does the insertions that stand first among the operations, each of which types on behind the one before. Answers how many.
fn change_typed(
    root: &mut Option<Branch>,
    at: u32,
    ops: &[TextOp],
    spares: &mut Spares,
) -> Result<usize, NoMem>
    requires some { 0 < length ops.now }
    requires first { IsTyped at (take 1 ops.now) }
    requires fit { AllFit (chars_of_root root.old) ops.now }
    requires short { AllStayShort (chars_of_root root.old) ops.now }
    requires root { IsRoot root.old }
    ensures some { IfOk result (λ n. (1 ≤ n) × (n ≤ length ops.now)) }
    ensures ok { IfOk result (λ n. chars_of_root root.new ≡ changed_by_all (take n ops.now) (chars_of_root root.old)) }
    ensures root { IsRoot root.new }
    ensures leaves { IfOk result (λ n. spares.old.leaves ≤ spares.new.leaves + room_for_all (take n ops.now)) }
    ensures nodes { IfOk result (λ n. spares.old.nodes ≤ spares.new.nodes + 25 * room_for_all (take n ops.now)) }
    ensures sure { room_for_all ops.now ≤ spares.old.leaves → 25 * room_for_all ops.now ≤ spares.old.nodes → IsOk result }
{
    let many = typed_length(at, ops);
    insert_typed(root, at, &ops[..many], spares)?;
    Ok(many)
}

/// Does the deletions that stand first among the operations, of which the first is at an index. Answers how many.
fn change_deleted(root: &mut Option<Branch>, at: u32, ops: &[TextOp]) -> usize
    requires some { 0 < length ops.now }
    requires first { DeletesFrom at (take 1 ops.now) }
    requires fit { AllFit (chars_of_root root.old) ops.now }
    requires short { AllStayShort (chars_of_root root.old) ops.now }
    requires root { IsRoot root.old }
    ensures some { 1 ≤ result }
    ensures within { result ≤ length ops.now }
    ensures ok { chars_of_root root.new ≡ changed_by_all (take result ops.now) (chars_of_root root.old) }
    ensures root { IsRoot root.new }
{
    let (place, many) = first_deletions(at, ops);
    remove_chars(root, place, many as u32);
    many
}

/// Does the operations one after another. After a refusal some of them are done.
pub fn change_by_runs(
    alloc: Global,
    root: &mut Option<Branch>,
    ops: &OperationRuns,
) -> Result<(), NoMem>
    requires fit { AllFit (chars_of_root root.old) ops.now }
    requires short { AllStayShort (chars_of_root root.old) ops.now }
    requires root { IsRoot root.old }
    ensures ok { OnOk result (chars_of_root root.new ≡ changed_by_all ops.now (chars_of_root root.old)) }
    ensures root { IsRoot root.new }
{
    let mut spares = Spares::new(alloc);
    let mut some = Vec::with_capacity(alloc, MOST_TYPED)?;
    let mut reader = ops.reader();
    while let Some(run) = reader.next_run() {
        change_by_run(root, run, &mut some, &mut spares)?;
    }
    Ok(())
}

/// Does the operations of a run one after another. After a refusal some of them are done. `some` is room for those that are done at once.
fn change_by_run(
    root: &mut Option<Branch>,
    run: OperationRun<'_>,
    some: &mut Vec<TextOp>,
    spares: &mut Spares,
) -> Result<(), NoMem>
    requires fits { RunFits run }
    requires some { 0 < length (run_ops run) }
    requires fit { AllFit (chars_of_root root.old) (run_ops run) }
    requires short { AllStayShort (chars_of_root root.old) (run_ops run) }
    requires root { IsRoot root.old }
    ensures ok { OnOk result (chars_of_root root.new ≡ changed_by_all (run_ops run.entry) (chars_of_root root.old)) }
    ensures root { IsRoot root.new }
{
    match run {
        OperationRun::Insertions { at, chars: _ } => insert_run(root, at, run, some, spares),
        OperationRun::Deletions { at, count } => {
            remove_chars(root, at, count);
            Ok(())
        }
        OperationRun::BackDeletions { at, count } => {
            remove_chars(root, at - (count - 1), count);
            Ok(())
        }
        OperationRun::Nothings { count: _ } => Ok(()),
    }
}

/// Does the insertions of a run, the first of which is at an index. After a refusal some of them are done.
fn insert_run(
    root: &mut Option<Branch>,
    at: u32,
    run: OperationRun<'_>,
    some: &mut Vec<TextOp>,
    spares: &mut Spares,
) -> Result<(), NoMem>
    requires fits { RunFits run }
    requires typed { IsTyped at (run_ops run) }
    requires fit { AllFit (chars_of_root root.old) (run_ops run) }
    requires short { AllStayShort (chars_of_root root.old) (run_ops run) }
    requires root { IsRoot root.old }
    ensures ok { OnOk result (chars_of_root root.new ≡ changed_by_all (run_ops run.entry) (chars_of_root root.old)) }
    ensures root { IsRoot root.new }
{
    let count = run.count();
    let mut from = 0;
    while from < count {
        let many = (count - from).min(MOST_TYPED as u32);
        set_to(some, run.part(from, from + many))?;
        insert_typed(root, at + from, some, spares)?;
        from += many;
    }
    Ok(())
}

/// Puts the operations of a run in the place of others, one by one.
fn set_to(ops: &mut Vec<TextOp>, run: OperationRun<'_>) -> Result<(), NoMem>
    requires { RunFits run }
    ensures { OnOk result (ops.new.items ≡ run_ops run.entry) }
{
    ops.clear();
    run.push_to(ops)
}
