//! Runs of two graphs, compared at once.

ghost use Rattle.std.specs.Prelude.{◌<◌, ◌≤◌, length, IfSome, IsTrue};
ghost use Rattle.ew_model.specs.Ancestors.{ids_of};
ghost use Rattle.agent_ids.specs.IdRuns.{AreNextFrom};
ghost use Rattle.operation_runs.specs.Runs.{run_ops};
ghost use Rattle.agreement.specs.Sharing.{AreSameEdits, GoOnAlike};

use crate::nears::Nears;
use event_graph::Graph;
use operation_runs::OperationRun;

/// At most so many events are compared at once. Where they differ, the first is compared alone, and the rest is tried again from the next
/// one on. So a difference costs at most half as many comparisons as the square of this number, once.
const MOST_AT_ONCE: u32 = 1024;

/// A number of events of `a` from the position `one` on that make the same edits as those of `b` from `other` on. In both graphs each
/// behind the first has the next id of its agent, and the event before it as its only parent. None where the runs of both don't tell it
/// at once.
pub fn going_on_alike(a: &Graph, one: u32, b: &Graph, other: u32, nears: &mut Nears) -> Option<u32>
    requires within_a { one < length a.now }
    requires within_b { other < length b.now }
    ensures { IfSome result (GoOnAlike a.now one b.now other) }
{
    let ours = a.rest_near(one, &mut nears.ours);
    let theirs = b.rest_near(other, &mut nears.theirs);
    let ids = next_ids(a, one, b, other, nears);
    let count = ours.count().min(theirs.count()).min(ids + 1);
    begin_alike(ours, theirs, count).then_some(count)
}

/// How many events right behind these ones have the next ids of their agents in both graphs, fewer than are compared at once.
fn next_ids(a: &Graph, one: u32, b: &Graph, other: u32, nears: &mut Nears) -> u32
    requires within_a { one < length a.now }
    requires within_b { other < length b.now }
    ensures most { result < MOST_AT_ONCE }
    ensures ours { AreNextFrom (ids_of a.now) one result }
    ensures theirs { AreNextFrom (ids_of b.now) other result }
{
    let ours = a.next_ids_near(one, &mut nears.ours);
    let theirs = b.next_ids_near(other, &mut nears.theirs);
    ours.min(theirs).min(MOST_AT_ONCE - 1)
}

/// Whether both runs, which are of one kind, are seen to begin with the same so many insertions or deletions. It may say no: then the
/// events are compared one by one.
fn begin_alike(ours: OperationRun<'_>, theirs: OperationRun<'_>, count: u32) -> bool
    requires ours { count ≤ length (run_ops ours) }
    requires theirs { count ≤ length (run_ops theirs) }
    ensures { IsTrue result → AreSameEdits (run_ops ours.entry) (run_ops theirs.entry) count }
{
    match (ours, theirs) {
        (
            OperationRun::Insertions { at, chars },
            OperationRun::Insertions {
                at: other,
                chars: others,
            },
        ) => at == other && chars[..count as usize] == others[..count as usize],
        (
            OperationRun::Deletions { at, count: _ },
            OperationRun::Deletions {
                at: other,
                count: _,
            },
        ) => at == other,
        (
            OperationRun::BackDeletions { at, count: _ },
            OperationRun::BackDeletions {
                at: other,
                count: _,
            },
        ) => at == other,
        _ => false,
    }
}
