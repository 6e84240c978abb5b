//! The file of a graph's events. Nothing holds them as a list.
ghost use Rattle.std.specs.Prelude.{◌≡◌, ◌+◌, ◌<◌, ◌≤◌, ◌^◌, true, length, slice_get, Some, IfOk, IsTrue, OnOk};
ghost use Rattle.std.specs.List.{All};
ghost use Rattle.ew_model.specs.declared.event.Event.{Event};
ghost use Rattle.ew_model.specs.declared.id.Id.{Id};
ghost use Rattle.ew_model.specs.Ancestors.{ids_of, is_held};
ghost use Rattle.ew_model.specs.Writable.{agents_of, IsWritable};
ghost use Rattle.file_words.specs.FileRuns.{file2_of};
ghost use Rattle.event_file.specs.Places.{agent_place, place_of, places_of};
ghost use Rattle.event_file.specs.RunWriting.{ArePut};
ghost use Rattle.stored_histories.specs.IdRuns.{FollowAt, GoOnTo, StandsOnOne};

use event_file::{Agents, RunWriter};
use event_graph::{Graph, Near};
use ew_model::NoMem;
use ew_model::id::Id;
use frontier::Parentage;
use replica::Replica;
use std::alloc::Global;

/// The event file in runs of a replica's events.
pub fn file_of(alloc: Global, replica: &Replica) -> Result<Vec<u8>, NoMem>
    ensures { IfOk result (λ bytes. bytes.items ≡ file2_of replica.now.held) }
{
    let _count = replica.count();
    written(alloc, replica.graph())
}

/// The event file in runs of a graph's events.
pub fn written(alloc: Global, graph: &Graph) -> Result<Vec<u8>, NoMem>
    requires { IsWritable graph.now }
    ensures { IfOk result (λ bytes. bytes.items ≡ file2_of graph.now) }
{
    let agents = agents_in(alloc, graph)?;
    let mut writer = RunWriter::new(alloc, agents.as_slice(), graph.count())?;
    put_events(alloc, graph, &agents, &mut writer)?;
    writer.finish()
}

/// The agents of the events, in the order of their first ones.
fn agents_in(alloc: Global, graph: &Graph) -> Result<Agents, NoMem>
    requires { length graph.now < 2 ^ 32 }
    ensures { IfOk result (λ agents. agents ≡ agents_of graph.now) }
{
    let mut agents = Agents::new(alloc);
    let mut near = Near::start();
    let mut position = 0;
    while position < graph.count() {
        let first = graph.id_near(position, &mut near);
        agents.add(&first.agent)?;
        position = end_of_ids(graph, &first, position);
    }
    Ok(agents)
}

/// A position up to which the events from one on are one agent's, the numbers rising by one. The first one's id is given.
fn end_of_ids(graph: &Graph, first: &Id, position: u32) -> u32
    requires { slice_get (ids_of graph.now) position ≡ Some first.now }
    ensures from { position < result }
    ensures to { result ≤ length graph.now }
    ensures ids { GoOnTo (ids_of graph.now) first.now position result }
{
    let count = graph.count();
    // Of so many events it is known. Their number is doubled as long as that holds of the last one too.
    let mut many = 1;
    while many <= count - position - many && stands_behind(graph, first, position, 2 * many - 1) {
        many *= 2;
    }
    position + many
}

/// Whether the event so many positions behind one has the number so many above that one's, and its agent. Then so it is with all
/// between them, since an agent's numbers rise in the graph.
fn stands_behind(graph: &Graph, first: &Id, position: u32, more: u32) -> bool
    requires first { slice_get (ids_of graph.now) position ≡ Some first.now }
    requires room { position + more < 2 ^ 32 }
    ensures { IsTrue result → GoOnTo (ids_of graph.now) first.now position (position + more + 1) }
{
    let _count = graph.count();
    match first.seq.checked_add(more) {
        Some(seq) => {
            let agent = first.agent;
            is_at(graph, &Id { agent, seq }, position + more)
        }
        None => false,
    }
}

/// Whether the event at a position has this id.
fn is_at(graph: &Graph, id: &Id, position: u32) -> bool
    ensures { IsTrue result → slice_get (ids_of graph.now) position ≡ Some id.now }
{
    match graph.find(id) {
        Some(found) => found == position,
        None => false,
    }
}

/// Puts all events behind the start of their file.
fn put_events(
    alloc: Global,
    graph: &Graph,
    agents: &Agents,
    writer: &mut RunWriter,
) -> Result<(), NoMem>
    requires writable { IsWritable graph.now }
    requires agents { agents.now ≡ agents_of graph.now }
    requires none { ArePut graph.now 0 writer.old }
    ensures { OnOk result (ArePut graph.now (length graph.now) writer.new) }
{
    let mut parents = Vec::new(alloc);
    let mut near = Near::start();
    let mut position = 0;
    while position < graph.count() {
        let first = graph.id_near(position, &mut near);
        let end = end_of_ids(graph, &first, position);
        let agent = agents.number_of(&first.agent);
        put_piece(
            graph,
            agent,
            &first,
            position,
            end,
            &mut near,
            &mut parents,
            writer,
        )?;
        position = end;
    }
    Ok(())
}

/// Puts the events from a position up to another behind the others. They are one agent's, with the number of each one above that of the
/// one before; the agent's place and the first id are given. `near` tells where the event before them was found, and `parents` is room
/// for the positions of an event's parents.
fn put_piece(
    graph: &Graph,
    agent: u32,
    first: &Id,
    position: u32,
    end: u32,
    near: &mut Near,
    parents: &mut Vec<u32>,
    writer: &mut RunWriter,
) -> Result<(), NoMem>
    requires writable { IsWritable graph.now }
    requires agent { agent ≡ agent_place graph.now first.now.agent }
    requires ids { GoOnTo (ids_of graph.now) first.now position end }
    requires from { position < end }
    requires to { end ≤ length graph.now }
    requires put { ArePut graph.now position writer.old }
    ensures { OnOk result (ArePut graph.now end writer.new) }
{
    put_event(graph, agent, position, near, parents, writer)?;
    for next in position + 1..end {
        put_next(graph, agent, next, near, parents, writer)?;
    }
    Ok(())
}

/// Puts the event at a position behind the others. It is the next one of the agent of the event before it.
fn put_next(
    graph: &Graph,
    agent: u32,
    position: u32,
    near: &mut Near,
    parents: &mut Vec<u32>,
    writer: &mut RunWriter,
) -> Result<(), NoMem>
    requires writable { IsWritable graph.now }
    requires named { (x : Id) × (slice_get (ids_of graph.now) position ≡ Some x) × (agent ≡ agent_place graph.now x.agent) }
    requires follows { FollowAt (ids_of graph.now) position }
    requires put { ArePut graph.now position writer.old }
    ensures { OnOk result (ArePut graph.now (position + 1) writer.new) }
{
    if goes_on(graph, position, near) {
        put_on_last(graph, agent, position, near, parents, writer)
    } else {
        put_event(graph, agent, position, near, parents, writer)
    }
}

/// The same of an event that has the one before it as its only parent. Most often its operation takes the step of the last run.
fn put_on_last(
    graph: &Graph,
    agent: u32,
    position: u32,
    near: &mut Near,
    parents: &mut Vec<u32>,
    writer: &mut RunWriter,
) -> Result<(), NoMem>
    requires writable { IsWritable graph.now }
    requires named { (x : Id) × (slice_get (ids_of graph.now) position ≡ Some x) × (agent ≡ agent_place graph.now x.agent) }
    requires follows { FollowAt (ids_of graph.now) position }
    requires behind { StandsOnOne graph.now position }
    requires put { ArePut graph.now position writer.old }
    ensures { OnOk result (ArePut graph.now (position + 1) writer.new) }
{
    let op = graph.op_near(position, near);
    if writer.go_on(&op)? {
        Ok(())
    } else {
        put_event(graph, agent, position, near, parents, writer)
    }
}

/// Puts the event at a position behind the others. Its agent's place is given.
fn put_event(
    graph: &Graph,
    agent: u32,
    position: u32,
    near: &mut Near,
    parents: &mut Vec<u32>,
    writer: &mut RunWriter,
) -> Result<(), NoMem>
    requires writable { IsWritable graph.now }
    requires named { (x : Id) × (slice_get (ids_of graph.now) position ≡ Some x) × (agent ≡ agent_place graph.now x.agent) }
    requires put { ArePut graph.now position writer.old }
    ensures { OnOk result (ArePut graph.now (position + 1) writer.new) }
{
    find_parents(graph, position, near, parents)?;
    let id = graph.id_near(position, near);
    let op = graph.op_near(position, near);
    writer.put(agent, id.seq, parents, &op)
}

/// Whether the event at a position has the one before it as its only parent. It may say no where it has.
fn goes_on(graph: &Graph, position: u32, near: &mut Near) -> bool
    requires { position < length graph.now }
    ensures { IsTrue result → StandsOnOne graph.now position }
{
    let _count = graph.count();
    graph.chain_start_near(position, near) < position
}

/// Leaves the positions of the parents of the event at a position, in the order of their ids.
fn find_parents(
    graph: &Graph,
    position: u32,
    near: &mut Near,
    found: &mut Vec<u32>,
) -> Result<(), NoMem>
    requires writable { IsWritable graph.now }
    requires within { position < length graph.now }
    ensures { (e : Event) → slice_get graph.now position ≡ Some e → OnOk result (found.new.items ≡ places_of graph.now e.parents) }
{
    let _count = graph.count();
    if graph.chain_start_near(position, near) < position {
        found.clear();
        found.push(position - 1)?;
        return Ok(());
    }
    let positions = graph.parents_of(position);
    if positions.len() > 1 {
        let event = graph.event_near(position, near)?;
        return find_all(graph, event.parents.as_slice(), found);
    }
    found.clear();
    found.extend_from_slice(positions.as_slice())?;
    Ok(())
}

/// Leaves the positions of these events.
fn find_all(graph: &Graph, ids: &[Id], found: &mut Vec<u32>) -> Result<(), NoMem>
    requires { All (λ x. is_held graph.now x ≡ true) ids.now }
    ensures { OnOk result (found.new.items ≡ places_of graph.now ids.now) }
{
    found.clear();
    for id in ids {
        found.push(position_of(graph, id))?;
    }
    Ok(())
}

/// The position of an event that is held.
fn position_of(graph: &Graph, id: &Id) -> u32
    requires { is_held graph.now id.now ≡ true }
    ensures { result ≡ place_of graph.now id.now }
{
    match graph.find(id) {
        Some(position) => position,
        None => unreachable!(),
    }
}
