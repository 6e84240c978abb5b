//! A text, and how long it was after each operation.

ghost use Rattle.std.specs.Prelude.{◌≡◌, ℕ, ◌≤◌, [], ◌++◌, List, length, take, None, Some, IfOk, OnOk, OnErr, false};
ghost use Rattle.ew_model.specs.declared.event.Event.{Event};
ghost use Rattle.ew_model.specs.Operations.{changed_by_all};
ghost use Rattle.ew_model.specs.TextLaws.{AllFit};
ghost use Rattle.ew_model.specs.Texts.{text_of};
ghost use Rattle.operation_runs.specs.Runs.{run_ops, RunFits};
ghost use Rattle.rope.specs.Lengths.{AllStayShort};
ghost use Rattle.replica.specs.LengthRuns.{course_of, AllTake};
ghost use Rattle.replica.specs.Lengths.{lengths_through, prefix_lengths};

use crate::lazy_text::LazyText;
use crate::length_runs::{Course, LengthRuns};
use ew_model::NoMem;
use ew_model::text_op::TextOp;
use operation_runs::{OperationRun, OperationRuns};
use std::alloc::Global;

/// The text that the operations make of the empty one, and how long it is after each. The text is made when it is asked for.
pub fn written(alloc: Global, ops: OperationRuns) -> Result<(LazyText, LengthRuns), NoMem>
    requires fit { AllFit [] ops }
    requires short { AllStayShort [] ops }
    ensures text { IfOk result (λ made. made.0 ≡ record { characters = changed_by_all ops []; told = Some ops; made = false }) }
    ensures lengths { IfOk result (λ made. made.1 ≡ lengths_through [] ops) }
{
    let mut lengths = LengthRuns::new(alloc);
    let mut len = 0;
    let mut reader = ops.reader();
    while let Some(run) = reader.next_run() {
        len = push_lengths_of_run(&mut lengths, len, run)?;
    }
    Ok((LazyText::told(alloc, ops, len), lengths))
}

/// Does the operations to the text, and puts how long it is after each behind the other lengths. Where memory is wanting,
/// the text is as before, and some of the lengths may be there.
pub fn write(text: &mut LazyText, lengths: &mut LengthRuns, ops: &[TextOp]) -> Result<(), NoMem>
    requires fit { AllFit text.old.characters ops.now }
    requires short { AllStayShort text.old.characters ops.now }
    ensures text { OnOk result (text.new.characters ≡ changed_by_all ops.now text.old.characters) }
    ensures told { OnOk result (text.new.told ≡ None) }
    ensures lengths { OnOk result (lengths.new ≡ lengths.old ++ lengths_through text.old.characters ops.now) }
    ensures same_text { OnErr result (text.new ≡ text.old) }
    ensures front { OnErr result (take (length lengths.old) lengths.new ≡ lengths.old) }
{
    let len = push_lengths(lengths, text, ops)?;
    text.apply(ops, len)
}

/// The same of operations in runs.
pub fn write_runs(
    alloc: Global,
    text: &mut LazyText,
    lengths: &mut LengthRuns,
    ops: &OperationRuns,
) -> Result<(), NoMem>
    requires fit { AllFit text.old.characters ops.now }
    requires short { AllStayShort text.old.characters ops.now }
    ensures text { OnOk result (text.new.characters ≡ changed_by_all ops.now text.old.characters) }
    ensures told { OnOk result (text.new.told ≡ None) }
    ensures lengths { OnOk result (lengths.new ≡ lengths.old ++ lengths_through text.old.characters ops.now) }
    ensures same_text { OnErr result (text.new ≡ text.old) }
    ensures front { OnErr result (take (length lengths.old) lengths.new ≡ lengths.old) }
{
    let ops = ops.to_vec(alloc)?;
    write(text, lengths, &ops)
}

/// Puts how long the text would be after each of the operations behind the other lengths, and answers how long it would be after all.
/// Where memory is wanting, some of the lengths may be there.
fn push_lengths(lengths: &mut LengthRuns, text: &LazyText, ops: &[TextOp]) -> Result<u32, NoMem>
    requires fit { AllFit text.now.characters ops.now }
    requires short { AllStayShort text.now.characters ops.now }
    ensures ok { OnOk result (lengths.new ≡ lengths.old ++ lengths_through text.now.characters ops.now) }
    ensures long { IfOk result (λ len. len ≡ length (changed_by_all ops.now text.now.characters)) }
    ensures front { OnErr result (take (length lengths.old) lengths.new ≡ lengths.old) }
{
    let mut len = text.len();
    for op in ops {
        let course = course_of(op);
        lengths.push(course, len, 1)?;
        len = course.after(len, 1);
    }
    Ok(len)
}

/// Puts how long a text of `len` characters is after each of the operations of a run behind the other lengths, and answers how long it is
/// after all.
fn push_lengths_of_run(
    lengths: &mut LengthRuns,
    len: u32,
    run: OperationRun<'_>,
) -> Result<u32, NoMem>
    requires fits { RunFits run }
    requires text { (text : List ℕ) × (length text ≡ len) × AllFit text (run_ops run) × AllStayShort text (run_ops run) }
    ensures lengths { (text : List ℕ) → length text ≡ len → AllFit text (run_ops run.entry) → AllStayShort text (run_ops run.entry) → OnOk result (lengths.new ≡ lengths.old ++ lengths_through text (run_ops run.entry)) }
    ensures long { (text : List ℕ) → length text ≡ len → AllFit text (run_ops run.entry) → AllStayShort text (run_ops run.entry) → IfOk result (λ n. n ≡ length (changed_by_all (run_ops run.entry) text)) }
{
    let course = course_of_run(&run);
    let many = run.count();
    lengths.push(course, len, many)?;
    Ok(course.after(len, many))
}

/// The course that the length of a text takes with an operation.
fn course_of(op: &TextOp) -> Course
    ensures { result ≡ course_of op.now }
{
    match op {
        TextOp::Ins { .. } => Course::Rises,
        TextOp::Del { .. } => Course::Falls,
        TextOp::Nothing => Course::Stays,
    }
}

/// The course that it takes with each of the operations of a run.
fn course_of_run(run: &OperationRun<'_>) -> Course
    ensures { AllTake result (run_ops run.now) }
{
    match run {
        OperationRun::Insertions { .. } => Course::Rises,
        OperationRun::Deletions { .. } => Course::Falls,
        OperationRun::BackDeletions { .. } => Course::Falls,
        OperationRun::Nothings { .. } => Course::Stays,
    }
}

/// How many characters the text of the first `count` events has, by the lengths kept: number i is that of the first i + 1.
pub fn length_below(lengths: &LengthRuns, count: u32) -> u32
    requires { count ≤ length lengths.now }
    ensures { (history : List Event) → lengths.now ≡ prefix_lengths history → result ≡ length (text_of (take count history)) }
{
    match count.checked_sub(1) {
        Some(last) => lengths.get(last),
        None => 0,
    }
}
