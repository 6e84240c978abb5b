//! Lists of ids.

ghost use Rattle.std.specs.Prelude.{◌≡◌, ◌<◌, IfOk, length, map};
ghost use Rattle.std.specs.List.{All};
ghost use Rattle.ew_model.specs.Ids.{is_among, ids_ascend};
ghost use Rattle.history_definitions.specs.Agents.{agents_of, count_of};
ghost use Rattle.event_graph.specs.Keeping.{id_of};

use agent_ids::AgentTable;
use ew_model::NoMem;
use ew_model::id::Id;
use ew_model::name::Name;
use std::alloc::Global;

/// Whether the id is among these.
pub fn is_among(ids: &[Id], x: &Id) -> bool
    ensures { result ≡ is_among ids.now x.now }
{
    ids.iter().any(|y| x.is(y))
}

/// Whether each id is lower than the next.
pub fn ascend(ids: &[Id]) -> bool
    ensures { result ≡ ids_ascend ids.now }
{
    for (i, x) in ids.iter().enumerate() {
        if i + 1 < ids.len() && !x.compare(&ids[i + 1]).is_lt() {
            return false;
        }
    }
    true
}

/// The ids at these positions.
pub fn ids_at(alloc: Global, table: &AgentTable, positions: &[u32]) -> Result<Vec<Id>, NoMem>
    requires { All (λ p. p < length table.now) positions.now }
    ensures { IfOk result (λ v. v.items ≡ map (id_of table.now) positions.now) }
{
    let mut ids = Vec::with_capacity(alloc, positions.len())?;
    for position in positions {
        ids.push(table.id_at(*position))?;
    }
    Ok(ids)
}

/// The agents, in order of first use.
pub fn agents(alloc: Global, table: &AgentTable) -> Result<Vec<Name>, NoMem>
    ensures { IfOk result (λ v. v.items ≡ agents_of table.now) }
{
    let count = table.agent_count();
    let mut names = Vec::with_capacity(alloc, count as usize)?;
    for n in 0..count {
        names.push(table.name_of(n))?;
    }
    Ok(names)
}

/// Each of these agents with how many ids it has.
pub fn counts(alloc: Global, table: &AgentTable, names: &[Name]) -> Result<Vec<(Name, u32)>, NoMem>
    ensures { IfOk result (λ v. v.items ≡ map (λ name. (name, count_of table.now name)) names.now) }
{
    let mut counts = Vec::with_capacity(alloc, names.len())?;
    for name in names {
        counts.push((*name, table.count_of(name)))?;
    }
    Ok(counts)
}
