//! Writing an event file.

ghost use Rattle.std.specs.Prelude.{◌≡◌, ◌<◌, ◌≤◌, ◌^◌, ◌∷◌, ◌++◌, length, map, flat_map, unwrap_or, OnOk, IfOk, IsSome, All};
ghost use Rattle.std.specs.BTreeMap.{get};
ghost use Rattle.ew_model.specs.Ids.{id_cmp};
ghost use Rattle.ew_model.specs.Bytes.{four_bytes, name_bytes, op_bytes};
ghost use Rattle.ew_model.specs.Writable.{agents_of, IsWritable};
ghost use Rattle.file_words.specs.File.{record_bytes, with_digest, file_of};
ghost use Rattle.file_words.specs.FileRuns.{file2_of};
ghost use Rattle.event_file.specs.RunWriting.{ArePut};
ghost use Rattle.event_file.specs.Writing.{start_of, fields_of};

use crate::agents::Agents;
use crate::format::{
    DELETION, INSERTION, MAGIC, MARK, NAME_BYTES, RECORD_BYTES, SHORTEST, VERSION,
};
use crate::run_writer::RunWriter;
use ew_model::NoMem;
use ew_model::event::{Event, Op};
use ew_model::id::Id;
use ew_model::name::Name;
use sha2::{Digest, Sha256};
use std::alloc::Global;
use std::collections::BTreeMap;

/// The one event file of the events.
#[tactic(auto, unfolding(file_words::specs::File::file_of, file_words::specs::File::file_content))]
pub fn encode(alloc: Global, events: &[Event]) -> Result<Vec<u8>, NoMem>
    requires { IsWritable events.now }
    ensures { IfOk result (λ bytes. bytes.items ≡ file_of events.now) }
{
    let agents = Agents::of(alloc, events)?;
    let count = events.len() as u32;
    let size = usual_size(agents.as_slice(), count, RECORD_BYTES);
    let mut out = Vec::with_capacity(alloc, size)?;
    put_start(&mut out, VERSION, agents.as_slice(), count)?;
    put_records(alloc, &mut out, &agents, events)?;
    close(out)
}

/// The event file in runs of the events.
pub fn encode_runs(alloc: Global, events: &[Event]) -> Result<Vec<u8>, NoMem>
    requires { IsWritable events.now }
    ensures { IfOk result (λ bytes. bytes.items ≡ file2_of events.now) }
{
    let agents = Agents::of(alloc, events)?;
    let mut writer = RunWriter::new(alloc, agents.as_slice(), events.len() as u32)?;
    put_runs(alloc, &mut writer, &agents, events)?;
    writer.finish()
}

/// The bytes, closed by their digest.
pub(crate) fn close(mut out: Vec<u8>) -> Result<Vec<u8>, NoMem>
    ensures { IfOk result (λ bytes. bytes.items ≡ with_digest out.items) }
{
    let digest = Sha256::digest(out.as_slice());
    out.extend_from_slice(&digest)?;
    Ok(out)
}

/// How many bytes a file of so many agents and events mostly has at most, where an event mostly takes so many.
pub(crate) fn usual_size(agents: &[Name], count: u32, each: usize) -> usize
    requires agents { length agents.now < 2 ^ 32 }
    requires each { each < 2 ^ 16 }
{
    SHORTEST + NAME_BYTES * agents.len() + each * count as usize
}

pub(crate) fn put_number(out: &mut Vec<u8>, n: u32) -> Result<(), NoMem>
    ensures { OnOk result (out.new.items ≡ out.old.items ++ four_bytes n) }
{
    out.extend_from_slice(&n.to_le_bytes())
}

pub(crate) fn put_name(out: &mut Vec<u8>, name: &Name) -> Result<(), NoMem>
    ensures { OnOk result (out.new.items ≡ out.old.items ++ name_bytes name.now) }
{
    let bytes = name.as_slice();
    out.push(bytes.len() as u8)?;
    out.extend_from_slice(bytes)
}

/// What stands before the records.
pub(crate) fn put_start(
    out: &mut Vec<u8>,
    version: u8,
    agents: &[Name],
    count: u32,
) -> Result<(), NoMem>
    requires { length agents.now < 2 ^ 32 }
    ensures { OnOk result (out.new.items ≡ out.old.items ++ start_of version agents.now count) }
{
    out.extend_from_slice(MAGIC)?;
    out.push(version)?;
    put_agents(out, agents)?;
    put_number(out, count)
}

fn put_agents(out: &mut Vec<u8>, agents: &[Name]) -> Result<(), NoMem>
    requires { length agents.now < 2 ^ 32 }
    ensures { OnOk result (out.new.items ≡ out.old.items ++
        (four_bytes (length agents.now) ++ flat_map name_bytes agents.now)) }
{
    put_number(out, agents.len() as u32)?;
    for name in agents {
        put_name(out, name)?;
    }
    Ok(())
}

fn put_records(
    alloc: Global,
    out: &mut Vec<u8>,
    agents: &Agents,
    events: &[Event],
) -> Result<(), NoMem>
    requires writable { IsWritable events.now }
    requires agents { agents.now ≡ agents_of events.now }
    ensures { OnOk result (out.new.items ≡ out.old.items ++ flat_map (record_bytes events.now) events.now) }
{
    let mut positions = BTreeMap::new(alloc);
    let mut parents = Vec::new(alloc);
    for (i, event) in events.iter().enumerate() {
        find_all(&positions, event.parents.as_slice(), &mut parents)?;
        let agent = agents.number_of(&event.id.agent);
        put_record(out, agent, event.id.seq, &parents, &event.op)?;
        positions.insert(event.id, i as u32)?;
    }
    Ok(())
}

/// Puts the events behind the start of their file.
fn put_runs(
    alloc: Global,
    writer: &mut RunWriter,
    agents: &Agents,
    events: &[Event],
) -> Result<(), NoMem>
    requires writable { IsWritable events.now }
    requires agents { agents.now ≡ agents_of events.now }
    requires none { ArePut events.now 0 writer.old }
    ensures { OnOk result (ArePut events.now (length events.now) writer.new) }
{
    let mut positions = BTreeMap::new(alloc);
    let mut parents = Vec::new(alloc);
    for (i, event) in events.iter().enumerate() {
        find_all(&positions, event.parents.as_slice(), &mut parents)?;
        let agent = agents.number_of(&event.id.agent);
        writer.put(agent, event.id.seq, &parents, &event.op)?;
        positions.insert(event.id, i as u32)?;
    }
    Ok(())
}

/// The positions of these ids.
fn find_all(positions: &BTreeMap<Id, u32>, ids: &[Id], found: &mut Vec<u32>) -> Result<(), NoMem>
    requires { All (λ x. IsSome (get id_cmp positions.now x)) ids.now }
    ensures { OnOk result (found.new.items ≡ map (λ x. unwrap_or (get id_cmp positions.now x) 0) ids.now) }
{
    found.clear();
    for id in ids {
        found.push(position_of(positions, id))?;
    }
    Ok(())
}

fn position_of(positions: &BTreeMap<Id, u32>, id: &Id) -> u32
    requires { IsSome (get id_cmp positions.now id.now) }
    ensures { result ≡ unwrap_or (get id_cmp positions.now id.now) 0 }
{
    match positions.get(id) {
        Some(position) => *position,
        None => unreachable!(),
    }
}

/// A record: the places of the agent and of the parents, and what is the event's own.
fn put_record(
    out: &mut Vec<u8>,
    agent: u32,
    seq: u32,
    parents: &[u32],
    op: &Op,
) -> Result<(), NoMem>
    requires { length parents.now ≤ 16 }
    ensures { OnOk result (out.new.items ≡ out.old.items ++ fields_of agent seq parents.now op.now) }
{
    put_number(out, agent)?;
    put_number(out, seq)?;
    put_parents(out, parents)?;
    put_operation(out, op)
}

pub(crate) fn put_parents(out: &mut Vec<u8>, parents: &[u32]) -> Result<(), NoMem>
    requires { length parents.now ≤ 16 }
    ensures { OnOk result (out.new.items ≡ out.old.items ++ (length parents.now ∷ flat_map four_bytes parents.now)) }
{
    out.push(parents.len() as u8)?;
    for parent in parents {
        put_number(out, *parent)?;
    }
    Ok(())
}

fn put_operation(out: &mut Vec<u8>, op: &Op) -> Result<(), NoMem>
    ensures { OnOk result (out.new.items ≡ out.old.items ++ op_bytes op.now) }
{
    match op {
        Op::Ins { at, ch } => {
            out.push(INSERTION)?;
            put_number(out, *at)?;
            put_number(out, *ch as u32)
        }
        Op::Del { at } => {
            out.push(DELETION)?;
            put_number(out, *at)
        }
        Op::Mark { label } => {
            out.push(MARK)?;
            put_name(out, label)
        }
    }
}
