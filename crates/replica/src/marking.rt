//! Local marks: the events that join the heads under a label.

ghost use Rattle.std.specs.Prelude.{◌≡◌, ◌+◌, ◌<◌, ◌≤◌, ◌^◌, true, [], ◌++◌, length, find, slice_get, replicate, IfOk, IfSome, OnOk, OnErr};
ghost use Rattle.std.specs.Option.{option_and_then};
ghost use Rattle.ew_model.specs.Edits as model;
ghost use Rattle.ew_model.specs.Ids.{ids_ascend};
ghost use Rattle.ew_model.specs.Verdicts.{IsGood};
ghost use Rattle.event_graph.specs.Keeping.{AreAdmittedAfter};
ghost use Rattle.replica.specs.Marking.{ids_of_one, marked_event};

use crate::heads::head_ids;
use crate::length_runs::{Course, LengthRuns};
use event_graph::Graph;
use ew_model::NoMem;
use ew_model::event::{Event, Op};
use ew_model::id::Id;
use ew_model::limits::MOST_PARENTS;
use ew_model::name::Name;
use ew_model::parents::Parents;
use std::alloc::Global;

/// The events of an agent's mark: each joins heads, and after the last one it is the only head.
#[tactic(auto, unfolding(ew_model::specs::Edits::events_of_mark))]
pub fn mark_events(
    alloc: Global,
    graph: &Graph,
    agent: Name,
    label: Name,
) -> Result<Vec<Event>, NoMem>
    requires good { IsGood graph.now }
    requires few { length graph.now < 2 ^ 31 }
    ensures { IfOk result (λ v. v.items ≡ model.events_of_mark graph.now agent label) }
{
    let first = graph.count_of(&agent);
    let heads = joining_order(alloc, graph, &agent)?;
    joins(alloc, agent, first, label, &heads)
}

/// The heads in the order in which a mark joins them: first the lowest that knows the agent's last event, then the others,
/// ascending.
#[tactic(auto, unfolding(ew_model::specs::Edits::joining_order))]
fn joining_order(alloc: Global, graph: &Graph, agent: &Name) -> Result<Vec<Id>, NoMem>
    requires { IsGood graph.now }
    ensures { IfOk result (λ v. v.items ≡ model.joining_order graph.now agent.now) }
{
    let mut heads = head_ids(alloc, graph)?;
    if let Some(place) = place_of_own(graph, agent, &heads)? {
        let own = heads.remove(place);
        heads.insert(0, own)?;
    }
    Ok(heads)
}

/// The place of the first of these ascending ids that knows the agent's last event. It is sought by halves: where one of some ids
/// knows it, one of more ids does.
fn place_of_own(graph: &Graph, agent: &Name, ids: &[Id]) -> Result<Option<usize>, NoMem>
    requires good { IsGood graph.now }
    requires ascending { ids_ascend ids.now ≡ true }
    ensures value { IfOk result (λ place. option_and_then (slice_get ids.now) place ≡ find (model.knows_agent graph.now agent.now) ids.now) }
    ensures within { IfOk result (λ place. IfSome place (λ k. k < length ids.now)) }
{
    if ids.is_empty() || !graph.know_last_of(ids, agent)? {
        return Ok(None);
    }
    // None of the first `before` ids knows it, and one of the first `through` does.
    let mut before = 0;
    let mut through = ids.len();
    while before + 1 < through {
        let half = before + (through - before) / 2;
        if graph.know_last_of(&ids[..half], agent)? {
            through = half;
        } else {
            before = half;
        }
    }
    Ok(Some(before))
}

/// Marks of an agent from a number on: the first joins the first 16 of these ids, and each further one the mark before it and the
/// next 15.
fn joins(
    alloc: Global,
    agent: Name,
    first: u32,
    label: Name,
    ids: &[Id],
) -> Result<Vec<Event>, NoMem>
    requires { first + length ids.now + 1 < 2 ^ 32 }
    ensures { IfOk result (λ v. v.items ≡ model.joins_of agent label first [] (model.in_groups 16 ids.now)) }
{
    let mut made = Vec::new(alloc);
    let mut seq = first;
    let mut before = None;
    let mut room = MOST_PARENTS as usize;
    let mut left = ids;
    while left.len() > room {
        let (group, others) = left.split_at(room);
        let id = Id { agent, seq };
        made.push(join(alloc, id, label, before, group)?)?;
        before = Some(id);
        seq += 1;
        room = MOST_PARENTS as usize - 1;
        left = others;
    }
    made.push(join(alloc, Id { agent, seq }, label, before, left)?)?;
    Ok(made)
}

/// A mark with this id and label that joins the mark before it, if there is one, and the ids of a group.
fn join(
    alloc: Global,
    id: Id,
    label: Name,
    before: Option<Id>,
    group: &[Id],
) -> Result<Event, NoMem>
    ensures { IfOk result (λ e. e ≡ marked_event id label (ids_of_one before ++ group.now)) }
{
    let mut parents = Vec::with_capacity(alloc, MOST_PARENTS as usize)?;
    if let Some(mark) = before {
        parents.push(mark)?;
    }
    parents.extend_from_slice(group)?;
    parents.sort_unstable();
    Ok(Event {
        id,
        parents: Parents::from_vec(parents),
        op: Op::Mark { label },
    })
}

/// Puts events behind the others, and for each of them the length of the text, which stays: all of it or nothing.
pub fn extend_marks(
    graph: &mut Graph,
    lengths: &mut LengthRuns,
    len: u32,
    made: &[Event],
) -> Result<(), NoMem>
    requires admitted { AreAdmittedAfter graph.old made.now }
    requires room { length graph.old + length made.now < 2 ^ 32 }
    ensures graph { OnOk result (graph.new ≡ graph.old ++ made.now) }
    ensures lengths { OnOk result (lengths.new ≡ lengths.old ++ replicate (length made.now) len) }
    ensures same_graph { OnErr result (graph.new ≡ graph.old) }
    ensures same_lengths { OnErr result (lengths.new ≡ lengths.old) }
{
    let count = lengths.count();
    lengths.push(Course::Stays, len, made.len() as u32)?;
    if let Err(fault) = admit_or_none(graph, made) {
        lengths.truncate(count);
        return Err(fault);
    }
    Ok(())
}

/// Puts events behind the others: all of them or none.
fn admit_or_none(graph: &mut Graph, made: &[Event]) -> Result<(), NoMem>
    requires admitted { AreAdmittedAfter graph.old made.now }
    requires room { length graph.old + length made.now < 2 ^ 32 }
    ensures graph { OnOk result (graph.new ≡ graph.old ++ made.now) }
    ensures same { OnErr result (graph.new ≡ graph.old) }
{
    let hold = graph.hold()?;
    for e in made {
        if let Err(fault) = graph.admit(e) {
            graph.drop_tail(hold);
            return Err(fault);
        }
    }
    graph.keep(hold);
    Ok(())
}
