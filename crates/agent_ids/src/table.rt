//! The table of ids.

ghost use Rattle.std.specs.Prelude.{◌≡◌, ℕ, suc, ◌+◌, ◌<◌, ◌≤◌, ◌^◌, List, [], ◌∷◌, ◌++◌, length, take, Some, OnOk, OnErr, IsOkAnd, IfOk, IfSome, IfNone, MatchOption, IsTrue, false, nat_eq, slice_get, position};
ghost use Rattle.std.specs.List.{All};
ghost use Rattle.std.specs.Cmp.Lexicographic.{pointwise};
ghost use Rattle.std.specs.Vec.{vec_len};
ghost use Rattle.indexmap.specs.IndexSet.{contains};
ghost use Rattle.ew_model.specs.declared.id.Id.{Id};
ghost use Rattle.ew_model.specs.Ids.{name_eq, id_eq};
ghost use Rattle.history_definitions.specs.Agents.{agents_of, count_of, AreNumbered};
ghost use Rattle.agent_ids.specs.IdRuns.{id_runs, id_with, ids_from, last_in, AreNextFrom};
ghost use Rattle.agent_ids.specs.Table.{AreAgents, IsNumberOfLast, positions_of};

use crate::positions::PositionRuns;
use crate::runs::IdRuns;
use ew_model::NoMem;
use ew_model::id::Id;
use ew_model::name::Name;
use indexmap::IndexSet;
use std::alloc::Global;
use std::marker::Model;

/// The ids of events by position, with the positions of each agent's ids, both in runs. Agents have numbers in order of
/// first use. Contracts see the list of the ids.
#[derive(Drop)]
pub struct AgentTable {
    ids: IdRuns,
    names: IndexSet<Name>,
    /// For each agent the positions of its ids.
    positions: Vec<PositionRuns>,
    /// The number of the last id's agent, where there is an id. Most often the next id is that agent's too.
    last_agent: usize,
}

impl Model for AgentTable {
    ghost use Rattle.std.specs.Prelude.{List};
    ghost use Rattle.ew_model.specs.declared.id.Id.{Id};
    ghost use Rattle.agent_ids.specs.Table.{IsTable};

    ghost Value = { List Id };

    ghost view = { λ t. t.ids };

    ghost invariant = { λ t. IsTable t.ids t.names.keys t.positions.items t.last_agent };
}

impl AgentTable {
    /// A table of no ids. It takes no memory, and never fails.
    pub fn new(alloc: Global) -> Result<AgentTable, NoMem>
        ensures { IsOkAnd result (λ t. t ≡ []) }
    {
        Ok(AgentTable {
            ids: IdRuns::new(alloc),
            names: IndexSet::new(alloc),
            positions: Vec::new(alloc),
            last_agent: 0,
        })
    }

    /// How many agents there are.
    pub fn agent_count(&self) -> u32
        ensures { result ≡ length (agents_of self.now) }
    {
        let _ids = &self.ids;
        self.names.len() as u32
    }

    /// The number of an agent, if it has an id.
    pub fn number_of(&self, name: &Name) -> Option<u32>
        ensures value { result ≡ position (name_eq name.now) (agents_of self.now) }
        ensures within { IfSome result (λ n. n < length (agents_of self.now)) }
    {
        let number = self.names.get_index_of(name)?;
        Some(number as u32)
    }

    /// The name of the agent with this number.
    pub fn name_of(&self, number: u32) -> Name
        requires { number < length (agents_of self.now) }
        ensures { slice_get (agents_of self.now) number ≡ Some result }
    {
        match self.names.get_index(number as usize) {
            Some(name) => *name,
            None => unreachable!(),
        }
    }

    /// How many ids of the agent there are, which is the number of its next one.
    pub fn count_of(&self, name: &Name) -> u32
        ensures value { result ≡ count_of self.now name.now }
        ensures numbered { AreNumbered self.now }
    {
        match self.positions_of(name) {
            Some(own) => own.len(),
            None => 0,
        }
    }

    /// The position of an id, if it is there.
    pub fn position(&self, id: &Id) -> Option<u32>
        ensures value { result ≡ position (id_eq id.now) self.now }
        ensures within { IfSome result (λ lv. lv < length self.now) }
    {
        self.positions_of(&id.agent)?.get(id.seq)
    }

    /// The id at a position.
    pub fn id_at(&self, lv: u32) -> Id
        requires { lv < length self.now }
        ensures { slice_get self.now lv ≡ Some result }
    {
        let mut near = 0;
        self.id_near(lv, &mut near)
    }

    /// The id at a position. The run of ids at the place `near`, which is that of the run found last, and the next one are tried
    /// first.
    pub fn id_near(&self, lv: u32, near: &mut usize) -> Id
        requires { lv < length self.now }
        ensures { slice_get self.now lv ≡ Some result }
    {
        self.ids.get_near(lv, near)
    }

    /// A number of ids right behind the one at a position that are all the next ones of its agent: those of its run. It is sought as by `id_near`.
    pub fn next_near(&self, lv: u32, near: &mut usize) -> u32
        requires { lv < length self.now }
        ensures { AreNextFrom self.now lv result }
    {
        self.ids.next_near(lv, near)
    }

    /// How many runs of neighbours of one agent there are. In a table the numbers in a run follow on each other, so an id goes on
    /// with the run before it exactly where it is the next one of the same agent.
    pub fn runs(&self) -> u32
        ensures { result ≡ id_runs self.now }
    {
        self.ids.runs()
    }

    /// Puts one more id behind the others: the next one of its agent, or the first one of a new agent.
    pub fn append(&mut self, id: Id) -> Result<(), NoMem>
        requires next { id.seq ≡ count_of self.old id.agent }
        requires room { length self.old + 1 < 2 ^ 32 }
        ensures ok { OnOk result (self.new ≡ self.old ++ id ∷ []) }
        ensures err { OnErr result (self.new ≡ self.old) }
    {
        if self.has_last_of(&id.agent) {
            self.append_next()
        } else {
            self.append_any(id)
        }
    }

    /// Whether there are ids, and the last one is of this agent. It may say no: then the longer way is taken.
    fn has_last_of(&self, name: &Name) -> bool
        ensures last { IsTrue result → (x : Id) × (last_in self.now ≡ Some x) × (x.agent ≡ name.now) }
        ensures numbered { AreNumbered self.now }
    {
        self.ids.len() > 0 && is_at(&self.names, self.last_agent, name)
    }

    /// Puts one more id behind the others, whosever it is.
    fn append_any(&mut self, id: Id) -> Result<(), NoMem>
        requires next { id.seq ≡ count_of self.old id.agent }
        requires room { length self.old + 1 < 2 ^ 32 }
        ensures ok { OnOk result (self.new ≡ self.old ++ id ∷ []) }
        ensures err { OnErr result (self.new ≡ self.old) }
    {
        let lv = self.ids.len();
        self.ids.push(&id)?;
        match add_position(
            &mut self.names,
            &mut self.positions,
            self.last_agent,
            &id.agent,
            lv,
        ) {
            Ok(number) => {
                self.last_agent = number;
                Ok(())
            }
            Err(fault) => {
                self.ids.cut_run(lv);
                Err(fault)
            }
        }
    }

    /// Puts the next id of the last one's agent behind the others. No names are compared.
    pub fn append_next(&mut self) -> Result<(), NoMem>
        requires some { 0 < length self.old }
        requires room { length self.old + 1 < 2 ^ 32 }
        ensures ok { OnOk result ((x : Id) × (last_in self.old ≡ Some x) × (self.new ≡ self.old ++ id_with x.agent (suc x.seq) ∷ [])) }
        ensures err { OnErr result (self.new ≡ self.old) }
    {
        let lv = self.ids.len();
        self.positions[self.last_agent].push(lv)?;
        self.ids.push_next();
        Ok(())
    }

    /// Puts so many next ids of the last one's agent behind the others. It costs the same however many they are.
    pub fn append_next_run(&mut self, count: u32) -> Result<(), NoMem>
        requires some { 0 < length self.old }
        requires room { length self.old + count < 2 ^ 32 }
        ensures ok { OnOk result ((x : Id) × (last_in self.old ≡ Some x) × (self.new ≡ self.old ++ ids_from (id_with x.agent (suc x.seq)) count)) }
        ensures err { OnErr result (self.new ≡ self.old) }
    {
        let lv = self.ids.len();
        self.positions[self.last_agent].push_run(lv, count)?;
        self.ids.push_next_run(count);
        Ok(())
    }

    /// Leaves the first n ids.
    pub fn truncate(&mut self, n: u32)
        ensures { self.new ≡ take n self.old }
    {
        while self.ids.len() > n {
            self.cut_run(n);
        }
    }

    /// The positions of the agent's ids, rising, if it has an id.
    fn positions_of(&self, name: &Name) -> Option<&PositionRuns>
        ensures value { MatchOption result (positions_of self.now name.now ≡ []) (λ own. own.now ≡ positions_of self.now name.now) }
        ensures numbered { AreNumbered self.now }
    {
        let number = find_number(&self.names, self.last_agent, name)?;
        Some(&self.positions[number])
    }

    /// Takes out the ids of the last run that stand at a place or behind it.
    fn cut_run(&mut self, n: u32)
        requires { n < length self.old }
        ensures front { (cut : ℕ) × (n ≤ cut) × (cut < length self.old) × (self.new ≡ take cut self.old) }
    {
        if let Some(first) = self.ids.cut_run(n) {
            remove_positions(&mut self.names, &mut self.positions, &first);
            self.last_agent = number_of_last(&self.ids, &self.names);
        }
    }
}

/// The number of an agent, where these are the agents' names. The likely number is tried first.
fn find_number(names: &IndexSet<Name>, likely: usize, name: &Name) -> Option<usize>
    requires { (ids : List Id) × (names.now.keys ≡ agents_of ids) }
    ensures index { result ≡ position (pointwise nat_eq name.now) names.now.keys }
    ensures absent { IfNone result (contains (pointwise nat_eq) names.now name.now ≡ false) }
    ensures within { IfSome result (λ n. n < length names.now.keys) }
{
    if is_at(names, likely, name) {
        Some(likely)
    } else {
        names.get_index_of(name)
    }
}

/// Whether the name stands at a place.
fn is_at(names: &IndexSet<Name>, place: usize, name: &Name) -> bool
    ensures { IsTrue result → slice_get names.now.keys place ≡ Some name.now }
{
    match names.get_index(place) {
        Some(there) => there.is(name),
        None => false,
    }
}

/// The number of the last id's agent, where there is an id, and these are the agents' names.
fn number_of_last(ids: &IdRuns, names: &IndexSet<Name>) -> usize
    requires { names.now.keys ≡ agents_of ids.now }
    ensures { IsNumberOfLast ids.now names.now.keys result }
{
    match ids.last() {
        Some(last) => names.get_index_of(&last.agent).unwrap_or(0),
        None => 0,
    }
}

/// Gives an agent one more position, behind the ones that it has. Its likely number is tried first, and its number is told.
fn add_position(
    names: &mut IndexSet<Name>,
    positions: &mut Vec<PositionRuns>,
    likely: usize,
    name: &Name,
    lv: u32,
) -> Result<usize, NoMem>
    requires agents { (ids : List Id) × (names.old.keys ≡ agents_of ids) }
    requires alike { vec_len positions.old ≡ length names.old.keys }
    requires room { All (λ own. length own + 1 < 2 ^ 32) positions.old.items }
    ensures ok { OnOk result ((ids : List Id) (id : Id) → AreAgents ids names.old.keys positions.old.items → length ids ≡ lv → id.agent ≡ name.now → AreAgents (ids ++ id ∷ []) names.new.keys positions.new.items) }
    ensures number { IfOk result (λ n. slice_get names.new.keys n ≡ Some name.now) }
    ensures same_names { OnErr result (names.new.keys ≡ names.old.keys) }
    ensures same_positions { OnErr result (positions.new.items ≡ positions.old.items) }
{
    let count = names.len();
    match find_number(names, likely, name) {
        Some(number) => {
            positions[number].push(lv)?;
            Ok(number)
        }
        None => {
            start_agent(names, positions, *name, lv)?;
            Ok(count)
        }
    }
}

/// Gives a new agent its first position.
fn start_agent(
    names: &mut IndexSet<Name>,
    positions: &mut Vec<PositionRuns>,
    name: Name,
    lv: u32,
) -> Result<(), NoMem>
    requires new { contains (pointwise nat_eq) names.old name ≡ false }
    ensures names { OnOk result (names.new.keys ≡ names.old.keys ++ name ∷ []) }
    ensures positions { OnOk result (positions.new.items ≡ positions.old.items ++ (lv ∷ []) ∷ []) }
    ensures same_names { OnErr result (names.new.keys ≡ names.old.keys) }
    ensures same_positions { OnErr result (positions.new.items ≡ positions.old.items) }
{
    let own = PositionRuns::of_one(*positions.allocator(), lv)?;
    positions.reserve(1)?;
    names.insert(name)?;
    positions.push_reserved(own);
    Ok(())
}

/// Takes away an agent's positions from this first one on, and an agent without a position too.
fn remove_positions(names: &mut IndexSet<Name>, positions: &mut Vec<PositionRuns>, first: &Id)
    requires alike { vec_len positions.old ≡ length names.old.keys }
    ensures { (ids : List Id) (more : ℕ) → AreAgents (ids ++ ids_from first.now (suc more)) names.old.keys positions.old.items → first.now.seq ≡ count_of ids first.now.agent → AreAgents ids names.new.keys positions.new.items }
{
    if first.seq == 0 {
        names.pop();
        positions.pop();
    } else if let Some(number) = names.get_index_of(&first.agent) {
        positions[number].truncate(first.seq);
    }
}
