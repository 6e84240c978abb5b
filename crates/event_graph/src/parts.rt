//! The parts of a graph, changed together.

ghost use Rattle.std.specs.Prelude.{◌≡◌, ◌+◌, ◌-◌, ◌<◌, ◌^◌, List, ℕ, [], ◌∷◌, ◌++◌, length, true, Some, IfOk, OnOk, OnErr};
ghost use Rattle.std.specs.List.{All};
ghost use Rattle.ew_model.specs.declared.id.Id.{Id};
ghost use Rattle.ew_model.specs.Positions.{AreParents, IsHistoryOfParents, frontier_of, is_reduced_at};
ghost use Rattle.history_definitions.specs.Agents.{count_of};
ghost use Rattle.agent_ids.specs.IdRuns.{ids_from, last_in};
ghost use Rattle.critical.specs.KeptCuts.{chain_parents, kept_for};
ghost use Rattle.event_graph.specs.Afters.{StandsOn, id_after};
ghost use Rattle.event_graph.specs.declared.parts.After.TheVariants.{Last};
ghost use Rattle.event_runs.specs.BareEvents.{bare};
ghost use Rattle.event_runs.specs.RunOps.{chain_on, IndicesFit, ops_of};
ghost use Rattle.history_definitions.specs.Chains.{next_id};

use agent_ids::AgentTable;
use critical::Cuts;
use event_runs::{EventRuns, RunOps};
use ew_model::NoMem;
use ew_model::event::Op;
use ew_model::id::Id;
use frontier::Frontier;
use smallvec::SmallVec;
use std::alloc::Global;

/// What a new event comes after, and its id.
#[derive(Clone, Copy)]
pub enum After {
    /// The last event, which is the only head. It has the next id of that event's agent, which isn't made.
    Last,
    /// All heads.
    Heads(Id),
    /// Other events than the heads.
    Other(Id),
}

/// Puts one more event behind the others, in each of the parts or in none. Where its parents aren't the heads, these, which may be many,
/// aren't copied.
pub fn append(
    alloc: Global,
    ids: &mut AgentTable,
    runs: &mut EventRuns,
    heads: &mut Frontier,
    cuts: &mut Cuts,
    after: &After,
    op: &Op,
    parents: &[u32],
) -> Result<(), NoMem>
    requires some { (x : Id) × (id_after after.now ids.old ≡ Some x) }
    requires next { (x : Id) → id_after after.now ids.old ≡ Some x → x.seq ≡ count_of ids.old x.agent }
    requires alike { length ids.old ≡ length runs.old }
    requires cut_count { cuts.old.count ≡ length runs.old }
    requires below { All (λ h. h < length runs.old) heads.old }
    requires parents { AreParents (length runs.old) parents.now }
    requires few { after.now ≡ Last → 0 < length runs.old }
    requires room { length runs.old + 1 < 2 ^ 32 }
    ensures ids { OnOk result ((x : Id) → id_after after.now ids.old ≡ Some x → ids.new ≡ ids.old ++ x ∷ []) }
    ensures runs { OnOk result (runs.new ≡ runs.old ++ bare op.now parents.now ∷ []) }
    ensures heads { OnOk result ((history : List (List ℕ)) → IsHistoryOfParents history → length runs.old ≡ length history → heads.old ≡ frontier_of history → StandsOn after.now (length runs.old) heads.old parents.now → heads.new ≡ frontier_of (history ++ parents.now ∷ [])) }
    ensures cuts { OnOk result ((history : List (List ℕ)) → IsHistoryOfParents history → cuts.old ≡ kept_for history → heads.old ≡ frontier_of history → StandsOn after.now (length runs.old) heads.old parents.now → is_reduced_at history parents.now ≡ true → cuts.new ≡ kept_for (history ++ parents.now ∷ [])) }
    ensures same_ids { OnErr result (ids.new ≡ ids.old) }
    ensures same_runs { OnErr result (runs.new ≡ runs.old) }
    ensures same_heads { OnErr result (heads.new ≡ heads.old) }
    ensures same_cuts { OnErr result (cuts.new ≡ cuts.old) }
{
    let count = runs.count();
    append_id(ids, after)?;
    if let Err(fault) = append_bare(alloc, runs, heads, cuts, after, op, parents) {
        ids.truncate(count);
        return Err(fault);
    }
    Ok(())
}

/// Puts the id behind the others.
fn append_id(ids: &mut AgentTable, after: &After) -> Result<(), NoMem>
    requires some { (x : Id) × (id_after after.now ids.old ≡ Some x) }
    requires next { (x : Id) → id_after after.now ids.old ≡ Some x → x.seq ≡ count_of ids.old x.agent }
    requires room { length ids.old + 1 < 2 ^ 32 }
    ensures ok { OnOk result ((x : Id) → id_after after.now ids.old ≡ Some x → ids.new ≡ ids.old ++ x ∷ []) }
    ensures err { OnErr result (ids.new ≡ ids.old) }
{
    match after {
        After::Last => ids.append_next(),
        After::Heads(id) | After::Other(id) => ids.append(*id),
    }
}

/// The same for the parts that don't know ids.
fn append_bare(
    alloc: Global,
    runs: &mut EventRuns,
    heads: &mut Frontier,
    cuts: &mut Cuts,
    after: &After,
    op: &Op,
    parents: &[u32],
) -> Result<(), NoMem>
    requires cut_count { cuts.old.count ≡ length runs.old }
    requires below { All (λ h. h < length runs.old) heads.old }
    requires parents { AreParents (length runs.old) parents.now }
    requires few { after.now ≡ Last → 0 < length runs.old }
    requires room { length runs.old + 1 < 2 ^ 32 }
    ensures runs { OnOk result (runs.new ≡ runs.old ++ bare op.now parents.now ∷ []) }
    ensures heads { OnOk result ((history : List (List ℕ)) → IsHistoryOfParents history → length runs.old ≡ length history → heads.old ≡ frontier_of history → StandsOn after.now (length runs.old) heads.old parents.now → heads.new ≡ frontier_of (history ++ parents.now ∷ [])) }
    ensures cuts { OnOk result ((history : List (List ℕ)) → IsHistoryOfParents history → cuts.old ≡ kept_for history → heads.old ≡ frontier_of history → StandsOn after.now (length runs.old) heads.old parents.now → is_reduced_at history parents.now ≡ true → cuts.new ≡ kept_for (history ++ parents.now ∷ [])) }
    ensures same_runs { OnErr result (runs.new ≡ runs.old) }
    ensures same_heads { OnErr result (heads.new ≡ heads.old) }
    ensures same_cuts { OnErr result (cuts.new ≡ cuts.old) }
{
    let count = runs.count();
    runs.append_ref(op, parents)?;
    if let Err(fault) = move_heads(alloc, heads, cuts, after, count, parents) {
        runs.truncate(count);
        return Err(fault);
    }
    Ok(())
}

/// Takes the event after so many others into the heads and the cuts.
fn move_heads(
    alloc: Global,
    heads: &mut Frontier,
    cuts: &mut Cuts,
    after: &After,
    count: u32,
    parents: &[u32],
) -> Result<(), NoMem>
    requires cut_count { cuts.old.count ≡ count }
    requires below { All (λ h. h < count) heads.old }
    requires parents { AreParents count parents.now }
    requires few { after.now ≡ Last → 0 < count }
    requires room { count + 1 < 2 ^ 32 }
    ensures heads { OnOk result ((history : List (List ℕ)) → IsHistoryOfParents history → count ≡ length history → heads.old ≡ frontier_of history → StandsOn after.now count heads.old parents.now → heads.new ≡ frontier_of (history ++ parents.now ∷ [])) }
    ensures cuts { OnOk result ((history : List (List ℕ)) → IsHistoryOfParents history → cuts.old ≡ kept_for history → heads.old ≡ frontier_of history → StandsOn after.now count heads.old parents.now → is_reduced_at history parents.now ≡ true → cuts.new ≡ kept_for (history ++ parents.now ∷ [])) }
    ensures same_heads { OnErr result (heads.new ≡ heads.old) }
    ensures same_cuts { OnErr result (cuts.new ≡ cuts.old) }
{
    match after {
        After::Last => {
            let next = only_head(alloc, count)?;
            cuts.push_on_last()?;
            *heads = next;
        }
        After::Heads(_) => {
            let next = only_head(alloc, count)?;
            cuts.push(parents, heads)?;
            *heads = next;
        }
        After::Other(_) => {
            heads.insert_event(count, parents)?;
            cuts.push_apart(parents);
        }
    }
    Ok(())
}

/// The frontier whose one head stands at a position.
fn only_head(alloc: Global, position: u32) -> Result<Frontier, NoMem>
    ensures { IfOk result (λ heads. heads ≡ position ∷ []) }
{
    let heads = SmallVec::from_slice(alloc, &[position])?;
    Ok(Frontier::from_rising(heads))
}

/// Puts the events of these operations behind the others, in each of the parts or in none. They are a chain on the last event.
pub fn append_run(
    alloc: Global,
    ids: &mut AgentTable,
    runs: &mut EventRuns,
    heads: &mut Frontier,
    cuts: &mut Cuts,
    ops: RunOps<'_>,
) -> Result<(), NoMem>
    requires some { 0 < length runs.old }
    requires alike { length ids.old ≡ length runs.old }
    requires cut_count { cuts.old.count ≡ length runs.old }
    requires below { All (λ h. h < length runs.old) heads.old }
    requires fit { IndicesFit ops }
    requires room { length runs.old + length (ops_of ops) < 2 ^ 32 }
    ensures ids { OnOk result ((x : Id) × (last_in ids.old ≡ Some x) × (ids.new ≡ ids.old ++ ids_from (next_id x) (length (ops_of ops.entry)))) }
    ensures runs { OnOk result (runs.new ≡ runs.old ++ chain_on (length runs.old - 1) (ops_of ops.entry)) }
    ensures heads { OnOk result ((history : List (List ℕ)) → IsHistoryOfParents history → length runs.old ≡ length history → heads.old ≡ frontier_of history → heads.new ≡ frontier_of (history ++ chain_parents (length runs.old - 1) (length (ops_of ops.entry)))) }
    ensures cuts { OnOk result ((history : List (List ℕ)) → IsHistoryOfParents history → cuts.old ≡ kept_for history → heads.old ≡ frontier_of history → cuts.new ≡ kept_for (history ++ chain_parents (length runs.old - 1) (length (ops_of ops.entry)))) }
    ensures same_ids { OnErr result (ids.new ≡ ids.old) }
    ensures same_runs { OnErr result (runs.new ≡ runs.old) }
    ensures same_heads { OnErr result (heads.new ≡ heads.old) }
    ensures same_cuts { OnErr result (cuts.new ≡ cuts.old) }
{
    let count = runs.count();
    ids.append_next_run(ops.count())?;
    if let Err(fault) = append_bare_run(alloc, runs, heads, cuts, ops) {
        ids.truncate(count);
        return Err(fault);
    }
    Ok(())
}

/// The same for the parts that don't know ids.
fn append_bare_run(
    alloc: Global,
    runs: &mut EventRuns,
    heads: &mut Frontier,
    cuts: &mut Cuts,
    ops: RunOps<'_>,
) -> Result<(), NoMem>
    requires some { 0 < length runs.old }
    requires cut_count { cuts.old.count ≡ length runs.old }
    requires below { All (λ h. h < length runs.old) heads.old }
    requires fit { IndicesFit ops }
    requires room { length runs.old + length (ops_of ops) < 2 ^ 32 }
    ensures runs { OnOk result (runs.new ≡ runs.old ++ chain_on (length runs.old - 1) (ops_of ops.entry)) }
    ensures heads { OnOk result ((history : List (List ℕ)) → IsHistoryOfParents history → length runs.old ≡ length history → heads.old ≡ frontier_of history → heads.new ≡ frontier_of (history ++ chain_parents (length runs.old - 1) (length (ops_of ops.entry)))) }
    ensures cuts { OnOk result ((history : List (List ℕ)) → IsHistoryOfParents history → cuts.old ≡ kept_for history → heads.old ≡ frontier_of history → cuts.new ≡ kept_for (history ++ chain_parents (length runs.old - 1) (length (ops_of ops.entry)))) }
    ensures same_runs { OnErr result (runs.new ≡ runs.old) }
    ensures same_heads { OnErr result (heads.new ≡ heads.old) }
    ensures same_cuts { OnErr result (cuts.new ≡ cuts.old) }
{
    let count = runs.count();
    runs.append_run(ops)?;
    if let Err(fault) = move_heads_along(alloc, heads, cuts, count, ops.count()) {
        runs.truncate(count);
        return Err(fault);
    }
    Ok(())
}

/// Takes so many events after so many others, which are a chain on the last one, into the heads and the cuts.
fn move_heads_along(
    alloc: Global,
    heads: &mut Frontier,
    cuts: &mut Cuts,
    count: u32,
    more: u32,
) -> Result<(), NoMem>
    requires some { 0 < count }
    requires cut_count { cuts.old.count ≡ count }
    requires below { All (λ h. h < count) heads.old }
    requires room { count + more < 2 ^ 32 }
    ensures heads { OnOk result ((history : List (List ℕ)) → IsHistoryOfParents history → count ≡ length history → heads.old ≡ frontier_of history → heads.new ≡ frontier_of (history ++ chain_parents (count - 1) more)) }
    ensures cuts { OnOk result ((history : List (List ℕ)) → IsHistoryOfParents history → cuts.old ≡ kept_for history → heads.old ≡ frontier_of history → cuts.new ≡ kept_for (history ++ chain_parents (count - 1) more)) }
    ensures same_heads { OnErr result (heads.new ≡ heads.old) }
    ensures same_cuts { OnErr result (cuts.new ≡ cuts.old) }
{
    if more == 0 {
        return Ok(());
    }
    let last = count - 1;
    if heads.equals(&[last]) {
        let next = only_head(alloc, last + more)?;
        cuts.push_on_last_run(more)?;
        *heads = next;
        return Ok(());
    }
    heads.insert_event(last + more, &[last])?;
    cuts.push_apart_run(more);
    Ok(())
}
