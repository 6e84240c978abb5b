//! The ids of a file's events, in runs of neighbours.

ghost use Rattle.std.specs.Prelude.{◌≡◌, ◌≤◌, ◌<◌, ◌^◌, ◌+◌, ◌-◌, suc, [], ◌++◌, true, length, slice_get, Some, IfSome, IfNone, vec_capacity};
ghost use Rattle.std.specs.List.{AllWithin};
ghost use Rattle.event_file.specs.declared.id_runs.IdRun.{IdRun};
ghost use Rattle.event_file.specs.IdRuns.{short_run, short_ids, last_short, AreIdRuns, IsLastBegun, IsBehind, with_more};

use crate::short_id::ShortId;

/// Neighbouring ids of one agent, which is told by its place among a file's agents.
#[derive(Clone, Copy)]
pub(crate) struct IdRun {
    /// The position of the first id.
    pub(crate) start: u32,
    pub(crate) agent: u32,
    /// The number of the first id.
    pub(crate) seq: u32,
    /// How many more there are.
    pub(crate) more: u32,
}

/// How many ids there are.
fn count(runs: &[IdRun]) -> u32
    requires runs { AreIdRuns 0 runs.now }
    requires few { length (short_ids runs.now) < 2 ^ 32 }
    ensures { result ≡ length (short_ids runs.now) }
{
    match runs.last() {
        Some(run) => run.start + run.more + 1,
        None => 0,
    }
}

/// The last id and its position, if there is one.
pub(crate) fn last_id(runs: &[IdRun]) -> Option<(u32, ShortId)>
    requires runs { AreIdRuns 0 runs.now }
    requires few { length (short_ids runs.now) < 2 ^ 32 }
    ensures { result ≡ last_short (short_ids runs.now) }
{
    match runs.last() {
        Some(run) => Some((
            run.start + run.more,
            ShortId {
                agent: run.agent,
                seq: run.seq + run.more,
            },
        )),
        None => None,
    }
}

/// The id at a position, if there are so many.
pub(crate) fn id_at(runs: &[IdRun], position: u32) -> Option<ShortId>
    requires { AreIdRuns 0 runs.now }
    ensures { result ≡ slice_get (short_ids runs.now) position }
{
    let run = last_begun(runs, position)?;
    let behind = position - run.start;
    if behind > run.more {
        return None;
    }
    Some(ShortId {
        agent: run.agent,
        seq: run.seq + behind,
    })
}

/// The last run that begins at a position or before it.
fn last_begun(runs: &[IdRun], position: u32) -> Option<IdRun>
    requires { AreIdRuns 0 runs.now }
    ensures some { IfSome result (IsLastBegun runs.now position) }
    ensures none { IfNone result (runs.now ≡ []) }
{
    let begun = count_to(runs, position);
    if begun == 0 {
        return None;
    }
    Some(runs[begun - 1])
}

/// How many of the runs begin at a position or before it.
fn count_to(runs: &[IdRun], position: u32) -> usize
    requires { AreIdRuns 0 runs.now }
    ensures bound { result ≤ length runs.now }
    ensures to { AllWithin (λ r. r.start ≤ position) runs.now 0 result }
    ensures behind { AllWithin (λ r. position < r.start) runs.now result (length runs.now) }
{
    runs.partition_point(|run| run.start <= position)
}

/// Puts an id and so many more behind the others: into the last run, where that goes on with them, or else into a run of their
/// own.
pub(crate) fn put(runs: &mut Vec<IdRun>, first: ShortId, more: u32)
    requires runs { AreIdRuns 0 runs.old.items }
    requires room { length runs.old.items < vec_capacity runs.old }
    requires few { length (short_ids runs.old.items) + suc more < 2 ^ 32 }
    requires fits { first.seq + more < 2 ^ 32 }
    ensures ids { short_ids runs.new.items ≡ short_ids runs.old.items ++ short_run first.agent first.seq (suc more) }
    ensures runs { AreIdRuns 0 runs.new.items }
{
    let start = count(runs);
    if goes_on(runs, first) {
        lengthen_last(runs, more + 1);
    } else {
        runs.push_reserved(IdRun {
            start,
            agent: first.agent,
            seq: first.seq,
            more,
        });
    }
}

/// Whether the last run goes on with an id.
fn goes_on(runs: &[IdRun], id: ShortId) -> bool
    requires { AreIdRuns 0 runs.now }
    ensures { result ≡ true → IsBehind runs.now id }
{
    match runs.last() {
        Some(run) => {
            let last = run.seq + run.more;
            run.agent == id.agent && last < id.seq && id.seq - last == 1
        }
        None => false,
    }
}

/// Gives the last run so many ids more.
fn lengthen_last(runs: &mut Vec<IdRun>, by: u32)
    requires { (r : IdRun) → slice_get runs.old.items (length runs.old.items - 1) ≡ Some r → r.more + by < 2 ^ 32 }
    ensures { runs.new.items ≡ with_more runs.old.items by }
{
    let count = runs.len();
    if count > 0 {
        runs[count - 1].more += by;
    }
}
