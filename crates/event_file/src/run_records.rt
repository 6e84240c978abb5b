//! Records of runs.

ghost use Rattle.std.specs.Prelude.{◌≡◌, ◌<◌, ◌≤◌, ◌+◌, ◌^◌, true, not, slice_get, Some};
ghost use Rattle.file_words.specs.FileFaults.{field, only, number};
ghost use Rattle.file_words.specs.FileFaults.RecordFault.{RunJoin, RunLength, IdTwice};
ghost use Rattle.file_words.specs.FileRuns.{first_op, joins, indices_fit, may_be_count, are_new, read_run_ops};
ghost use Rattle.event_file.specs.Reading.{Gives};
ghost use Rattle.event_file.specs.OpenRuns.{run_of};
ghost use Rattle.event_file.specs.Runs.{ops_as};

use crate::fault::{RecordFault, Stop, bad_field};
use crate::format::{BACK_DELETIONS, INSERTION, MARK};
use crate::input::Input;
use crate::open_run::OpenRun;
use crate::progress::Progress;
use crate::run_ops::{RunOps, read_ops_of};
use ew_model::id::Id;

/// How many numbers there are of 32 bits.
const NUMBERS: u64 = 0x1_0000_0000;

/// What the events of a record do, whose first one has this id, of the agent at this place, and these parents.
#[tactic(auto, unfolding(file_words::specs::FileRuns::read_run_ops))]
pub(crate) fn read_run_ops<'a>(
    progress: &Progress,
    last: &Option<OpenRun<'a>>,
    left: u32,
    place: u32,
    id: &Id,
    parents: &[Id],
    input: &mut Input<'a>,
) -> Result<RunOps<'a>, Stop>
    requires { slice_get progress.now.agents place ≡ Some id.now.agent }
    ensures { Gives (λ ops. (ops_as ops, input.new.left.now)) result
        (read_run_ops progress.now.events (run_of last.now) left id.now parents.now input.old.left.now) }
{
    let kind = input.run_kind()?;
    if kind == MARK {
        let label = input.name()?;
        return Ok(RunOps::Mark { label });
    }
    let at = first_index(last, id, parents, kind, input)?;
    let count = run_length(progress, left, place, id, kind, at, input)?;
    read_ops_of(kind, at, count, input)
}

/// The index of a record's first event, which doesn't continue the run before.
fn first_index(
    last: &Option<OpenRun>,
    id: &Id,
    parents: &[Id],
    kind: u8,
    input: &mut Input,
) -> Result<u32, Stop>
    ensures { Gives (λ at. (at, input.new.left.now)) result
        (field number (only (λ at. not (joins (run_of last.now) (record { id = id.now; parents = parents.now; op = first_op kind at })))) RunJoin input.old.left.now) }
{
    let field = input.left;
    let at = input.number()?;
    if joins(last, id, parents, kind, at) {
        return Err(bad_field(field, RecordFault::RunJoin));
    }
    Ok(at)
}

/// Whether there is a run before, and this event continues it.
fn joins(last: &Option<OpenRun>, id: &Id, parents: &[Id], kind: u8, at: u32) -> bool
    ensures { result ≡ joins (run_of last.now) (record { id = id.now; parents = parents.now; op = first_op kind at }) }
{
    match last {
        Some(run) => run.is_continued_by(id, parents, kind, at),
        None => false,
    }
}

/// How many events a record has. Their ids are new.
fn run_length(
    progress: &Progress,
    left: u32,
    place: u32,
    id: &Id,
    kind: u8,
    at: u32,
    input: &mut Input,
) -> Result<u32, Stop>
    requires { slice_get progress.now.agents place ≡ Some id.now.agent }
    ensures { Gives (λ count. (count, input.new.left.now)) result
        (field (field number (only (may_be_count left id.now kind at)) RunLength) (only (are_new progress.now.events id.now)) IdTwice input.old.left.now) }
{
    let field = input.left;
    let count = input.number()?;
    if !may_be_count(left, id, kind, at, count) {
        return Err(bad_field(field, RecordFault::RunLength));
    }
    if !progress.are_new(place, id, count) {
        return Err(bad_field(field, RecordFault::IdTwice));
    }
    Ok(count)
}

/// Whether a run of the kind may have so many events, of so many that are left, from an id and an index on.
fn may_be_count(left: u32, id: &Id, kind: u8, at: u32, count: u32) -> bool
    ensures value { result ≡ may_be_count left id.now kind at count }
    ensures some { result ≡ true → 0 < count }
    ensures fits { result ≡ true → id.now.seq + count ≤ 2 ^ 32 }
{
    let too_few = if kind == BACK_DELETIONS { 1 } else { 0 };
    count > too_few
        && count <= left
        && id.seq as u64 + count as u64 <= NUMBERS
        && indices_fit(kind, at, count)
}

/// Whether the indices of so many operations of the kind, from an index on, are of 32 bits.
fn indices_fit(kind: u8, at: u32, count: u32) -> bool
    ensures { result ≡ indices_fit kind at count }
{
    if kind == INSERTION {
        return at as u64 + count as u64 <= NUMBERS;
    }
    if kind == BACK_DELETIONS {
        return count as u64 <= at as u64 + 1;
    }
    true
}
