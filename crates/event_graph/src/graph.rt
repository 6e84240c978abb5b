//! The graph.

ghost use Rattle.std.specs.Prelude.{◌≡◌, ℕ, ◌+◌, ◌-◌, ◌<◌, ◌≤◌, ◌^◌, List, [], ◌∷◌, ◌++◌, map, length, true, Some, slice_get, position, find, not, false, option_map, IfOk, IfSome, IsOkAnd, IsTrue, OnOk, OnErr};
ghost use Rattle.std.specs.List.{All};
ghost use Rattle.std.specs.Option.{option_copied};
ghost use Rattle.ew_model.specs.declared.id.Id.{Id};
ghost use Rattle.ew_model.specs.declared.event.Event.{Event};
ghost use Rattle.ew_model.specs.Ancestors as model;
ghost use Rattle.ew_model.specs.Answers.{ruling_of};
ghost use Rattle.ew_model.specs.Cuts.{is_critical, latest_cut};
ghost use Rattle.ew_model.specs.Edits.{count_of};
ghost use Rattle.ew_model.specs.Ids.{id_eq, is_among, ids_ascend};
ghost use Rattle.ew_model.specs.Positions.{AreParents, parents_at, is_known_at, is_reduced_at, known_alone, positions_in, parent_positions};
ghost use Rattle.ew_model.specs.Sets.{Among};
ghost use Rattle.ew_model.specs.Sound.{AreSound};
ghost use Rattle.ew_model.specs.TextLaws.{own_change};
ghost use Rattle.ew_model.specs.Verdicts.{id_rows, parent_rows, first_unknown, has_number_below, follows_its_agent, graph_verdict};
ghost use Rattle.ew_model.specs.Verdicts.Ruling.{Good};
ghost use Rattle.frontier.specs.Chains.{IsChain};
ghost use Rattle.operation_runs.specs.Runs.{run_ops, RunFits};
ghost use Rattle.ancestors.specs.Floors.{HasAllBelow};
ghost use Rattle.ancestors.specs.Spans as spans;
ghost use Rattle.event_runs.specs.RunOps.{IndicesFit, ops_of};
ghost use Rattle.event_runs.specs.Runs.{IsRunEnd, IsRunStart};
ghost use Rattle.history_definitions.specs.Chains.{event_behind, last_id};
ghost use Rattle.agent_ids.specs.IdRuns.{AreNextFrom};
ghost use Rattle.event_graph.specs.Afters.{IsNextAfter};
ghost use Rattle.event_graph.specs.Keeping.{IsAdmitted, bare_events};
ghost use Rattle.event_graph.specs.Finding.{found_in};
ghost use Rattle.event_graph.specs.GoingOn.{chain_behind};
ghost use Rattle.event_graph.specs.Joining.{IsGoodBehind, event_on};
ghost use Rattle.event_graph.specs.Rows.{row_in};
ghost use Rattle.history_definitions.specs.Summary.{summary_of};

use crate::facts::Facts;
use crate::ids::{agents, ascend, counts, ids_at, is_among};
use crate::near::Near;
use crate::parts::{After, append, append_run};
use agent_ids::AgentTable;
use ancestors::{Spans, contains, diff, is_reduced};
use critical::Cuts;
use event_runs::{EventRuns, RunOps};
use ew_model::NoMem;
use ew_model::event::{Event, Op};
use ew_model::id::Id;
use ew_model::limits::MOST_PARENTS;
use ew_model::name::Name;
use ew_model::parents::Parents;
use ew_model::text_op::TextOp;
use ew_model::verdict::Verdict;
use frontier::{Chain, Frontier, Parentage};
use operation_runs::OperationRun;
use smallvec::SmallVec;
use std::alloc::Global;
use std::marker::Model;

/// A history of events, each of which was judged good when it came. Contracts see the list of its events, the oldest
/// first. A position is a place in that list, from 0; a parameter that is called `lv`, for local version, is one too.
pub struct Graph {
    alloc: Global,
    ids: AgentTable,
    events: EventRuns,
    heads: Frontier,
    cuts: Cuts,
}

impl Drop for Graph {
    fn drop(self) {
        let Graph {
            alloc: _,
            ids: _,
            events: _,
            heads: _,
            cuts: _,
        } = self;
    }
}

impl Model for Graph {
    ghost use Rattle.std.specs.Prelude.{List};
    ghost use Rattle.ew_model.specs.declared.event.Event.{Event};
    ghost use Rattle.event_graph.specs.Keeping.{history_of, IsKeptOf};

    ghost Value = { List Event };

    ghost view = { λ g. history_of g.ids g.events };

    ghost invariant = { λ g. IsKeptOf (history_of g.ids g.events) g.ids g.events g.heads g.cuts };
}

impl Graph {
    /// The graph of no events. It takes no memory, and never fails.
    pub fn new(alloc: Global) -> Result<Graph, NoMem>
        ensures { IsOkAnd result (λ g. g ≡ []) }
    {
        Ok(Graph {
            alloc,
            ids: AgentTable::new(alloc)?,
            events: EventRuns::new(alloc)?,
            heads: Frontier::new(alloc)?,
            cuts: Cuts::new(alloc)?,
        })
    }

    /// What it takes its memory from.
    pub(crate) fn alloc(&self) -> Global {
        self.alloc
    }

    /// How many events there are.
    pub fn count(&self) -> u32
        ensures count { result ≡ length self.now }
        ensures admitted { IsAdmitted self.now }
        ensures sound { AreSound self.now }
    {
        let _heads = &self.heads;
        self.events.count()
    }

    /// The positions of the events that have no child, rising.
    pub fn frontier(&self) -> &Frontier
        ensures { result.now ≡ positions_in self.now (model.heads self.now) }
    {
        &self.heads
    }

    /// The position of the event with this id, if it is held.
    pub fn find(&self, id: &Id) -> Option<u32>
        ensures value { result ≡ position (id_eq id.now) (model.ids_of self.now) }
        ensures within { IfSome result (λ p. p < length self.now) }
    {
        self.ids.position(id)
    }

    /// The first of these ids that isn't held.
    pub fn has(&self, ids: &[Id]) -> Option<Id>
        ensures { result ≡ first_unknown self.now ids.now }
    {
        self.first_unknown(ids).copied()
    }

    fn first_unknown<'a>(&self, ids: &'a [Id]) -> Option<&'a Id>
        ensures { option_copied result ≡ find (λ x. not (model.is_held self.now x)) ids.now }
    {
        ids.iter().find(|x| !self.holds(*x))
    }

    /// Whether an event with this id is held.
    fn holds(&self, id: &Id) -> bool
        ensures { result ≡ model.is_held self.now id.now }
    {
        self.find(id).is_some()
    }

    /// The id of the event at a position.
    pub fn id_at(&self, lv: u32) -> Id
        requires { lv < length self.now }
        ensures { slice_get (model.ids_of self.now) lv ≡ Some result }
    {
        let mut near = Near::start();
        self.id_near(lv, &mut near)
    }

    /// The id of the event at a position, which is sought first where the last one was found.
    pub fn id_near(&self, position: u32, near: &mut Near) -> Id
        requires { position < length self.now }
        ensures { slice_get (model.ids_of self.now) position ≡ Some result }
    {
        self.ids.id_near(position, &mut near.id)
    }

    /// How many events right behind the one at a position have the next ids of its agent. It is sought first where the last one was
    /// found.
    pub fn next_ids_near(&self, position: u32, near: &mut Near) -> u32
        requires { position < length self.now }
        ensures { AreNextFrom (model.ids_of self.now) position result }
    {
        self.ids.next_near(position, &mut near.id)
    }

    /// The id of the event at a position, which is sought first among the last ids.
    pub(crate) fn id_from_end(&self, position: u32) -> Id
        requires { position < length self.now }
        ensures { slice_get (model.ids_of self.now) position ≡ Some result }
    {
        let mut near = self.ids.runs().saturating_sub(1) as usize;
        self.ids.id_near(position, &mut near)
    }

    /// The operation of the event at a position.
    pub fn op_at(&self, lv: u32) -> Op
        requires { lv < length self.now }
        ensures { slice_get (map (λ (e : Event). e.op) self.now) lv ≡ Some result }
    {
        let mut near = Near::start();
        self.op_near(lv, &mut near)
    }

    /// The operation of the event at a position, which is sought first where the last one was found.
    pub fn op_near(&self, position: u32, near: &mut Near) -> Op
        requires { position < length self.now }
        ensures { slice_get (map (λ (e : Event). e.op) self.now) position ≡ Some result }
    {
        self.events.op_near(position, &mut near.event)
    }

    /// What the event at a position does to the text at its parents: a mark nothing. It is sought first where the last event was
    /// found.
    pub fn change_near(&self, position: u32, near: &mut Near) -> TextOp
        requires { position < length self.now }
        ensures { slice_get (map (λ (e : Event). own_change e.op) self.now) position ≡ Some result }
    {
        self.events.change_near(position, &mut near.event)
    }

    /// Where the run of the event at a position begins: each event of it but the first has the one before it as its only parent. It
    /// is sought first where the last event was found.
    pub fn chain_start_near(&self, position: u32, near: &mut Near) -> u32
        requires { position < length self.now }
        ensures chain { IsChain (parent_positions self.now) result position }
        ensures start { IsRunStart (bare_events self.now) position result }
    {
        self.events.chain_start_near(position, &mut near.event)
    }

    /// The event at a position with all that come behind it in its run: each of these has the one before it as its only parent. It is
    /// sought first where the last event was found.
    pub fn rest_near(&self, position: u32, near: &mut Near) -> OperationRun<'_>
        requires { position < length self.now }
        ensures some { 0 < length (run_ops result) }
        ensures fit { RunFits result }
        ensures within { position + length (run_ops result) ≤ length self.now }
        ensures changes { (k : ℕ) → k < length (run_ops result) → slice_get (map (λ (e : Event). own_change e.op) self.now) (position + k) ≡ slice_get (run_ops result) k }
        ensures chain { IsChain (parent_positions self.now) position (position + length (run_ops result) - 1) }
        ensures end { IsRunEnd (bare_events self.now) position (position + length (run_ops result)) }
    {
        self.events.rest_near(position, &mut near.event)
    }

    /// The event at a position.
    pub fn event_at(&self, lv: u32) -> Result<Event, NoMem>
        requires { lv < length self.now }
        ensures { IfOk result (λ e. slice_get self.now lv ≡ Some e) }
    {
        let mut near = Near::start();
        self.event_near(lv, &mut near)
    }

    /// The event at a position, which is sought first where the last one was found.
    pub fn event_near(&self, position: u32, near: &mut Near) -> Result<Event, NoMem>
        requires { position < length self.now }
        ensures { IfOk result (λ e. slice_get self.now position ≡ Some e) }
    {
        let (op, positions) = self.events.event_near(position, &mut near.event);
        let mut parents = ids_at(self.alloc, &self.ids, positions.as_slice())?;
        parents.sort_unstable();
        Ok(Event {
            id: self.ids.id_near(position, &mut near.id),
            parents: Parents::from_vec(parents),
            op,
        })
    }

    /// The positions of the events with these ascending ids, rising.
    fn positions_of(&self, ids: &[Id]) -> Result<Vec<u32>, NoMem>
        requires { ids_ascend ids.now ≡ true }
        ensures { IfOk result (λ v. v.items ≡ positions_in self.now ids.now) }
    {
        let _count = self.count();
        let mut positions = self.find_all(ids)?;
        positions.sort_unstable();
        Ok(positions)
    }

    /// The positions of those of the ids that are held, in the order of the ids.
    pub(crate) fn find_all(&self, ids: &[Id]) -> Result<Vec<u32>, NoMem>
        ensures { IfOk result (λ v. v.items ≡ found_in self.now ids.now) }
    {
        let mut positions = Vec::new(self.alloc);
        for id in ids {
            if let Some(position) = self.find(id) {
                positions.push(position)?;
            }
        }
        Ok(positions)
    }

    /// What is in version `a` alone, and what is in version `b` alone. Both contain all events below the floor.
    pub fn diff(&self, a: &[u32], b: &[u32], floor: u32) -> Result<(Spans, Spans), NoMem>
        requires a { All (λ p. p < length self.now) a.now }
        requires b { All (λ p. p < length self.now) b.now }
        requires floor_a { HasAllBelow (parent_positions self.now) a.now floor }
        requires floor_b { HasAllBelow (parent_positions self.now) b.now floor }
        ensures left { IfOk result (λ sides. spans.positions_of sides.0 ≡ known_alone (parent_positions self.now) a.now b.now) }
        ensures right { IfOk result (λ sides. spans.positions_of sides.1 ≡ known_alone (parent_positions self.now) b.now a.now) }
        ensures left_order { IfOk result (λ sides. spans.AreDescending sides.0) }
        ensures right_order { IfOk result (λ sides. spans.AreDescending sides.1) }
    {
        diff(self.alloc, self, a, b, floor)
    }

    /// The greatest critical cut that is at most n.
    pub fn latest_cut(&self, n: u32) -> u32
        ensures { result ≡ latest_cut self.now n }
    {
        self.cuts.latest(n)
    }

    /// Whether the cut at k is critical: each event from position k on has all events below k among its ancestors.
    pub fn is_cut(&self, k: u32) -> bool
        ensures { result ≡ is_critical self.now k }
    {
        let mut near = Near::start();
        self.is_cut_near(k, &mut near)
    }

    /// Whether the cut at k is critical, which is sought first where the last one was found.
    pub fn is_cut_near(&self, k: u32, near: &mut Near) -> bool
        ensures { result ≡ is_critical self.now k }
    {
        self.cuts.is_cut_near(k, &mut near.cut)
    }

    /// How the event stands to the events held: the first row that holds, whatever its index. It is never OutOfRange.
    pub fn judge(&self, e: &Event) -> Result<Verdict, NoMem>
        ensures { IfOk result (λ v. ruling_of v ≡ graph_verdict self.now e.now) }
    {
        match self.judge_form(e)? {
            Some(verdict) => Ok(verdict),
            None => Ok(Verdict::Good),
        }
    }

    /// By the id and the parents. None where no such row holds.
    fn judge_form(&self, e: &Event) -> Result<Option<Verdict>, NoMem>
        ensures { IfOk result (λ v. option_map ruling_of v ≡ row_in (id_rows self.now [] e.now ++ parent_rows self.now e.now)) }
    {
        let _count = self.count();
        if self.goes_on(e) {
            return Ok(None);
        }
        match self.judge_id(e)? {
            Some(verdict) => Ok(Some(verdict)),
            None => self.judge_parents(e),
        }
    }

    /// By the id.
    fn judge_id(&self, e: &Event) -> Result<Option<Verdict>, NoMem>
        ensures { IfOk result (λ v. option_map ruling_of v ≡ row_in (id_rows self.now [] e.now)) }
    {
        let _count = self.count();
        let Some(position) = self.find(&e.id) else {
            return Ok(None);
        };
        let held = self.event_at(position)?;
        if e.same(&held) {
            Ok(Some(Verdict::Repeat))
        } else {
            Ok(Some(Verdict::Clash))
        }
    }

    /// By the parents.
    #[tactic(auto, unfolding(ew_model::specs::Verdicts::parent_rows))]
    fn judge_parents(&self, e: &Event) -> Result<Option<Verdict>, NoMem>
        ensures { IfOk result (λ v. option_map ruling_of v ≡ row_in (parent_rows self.now e.now)) }
    {
        let parents = e.parents.as_slice();
        if is_among(parents, &e.id) {
            return Ok(Some(Verdict::SelfParent));
        }
        if parents.len() > MOST_PARENTS as usize {
            return Ok(Some(Verdict::TooManyParents));
        }
        if !ascend(parents) {
            return Ok(Some(Verdict::ParentsUnsorted));
        }
        if let Some(p) = self.has(parents) {
            return Ok(Some(Verdict::Unknown(p)));
        }
        let positions = self.positions_of(parents)?;
        if !self.are_reduced(parents, &positions)? {
            return Ok(Some(Verdict::NotReduced));
        }
        if !self.follows_its_agent(e, &positions)? {
            return Ok(Some(Verdict::Skipped));
        }
        Ok(None)
    }

    /// Whether no parent is an ancestor of another. Of heads none is.
    fn are_reduced(&self, parents: &[Id], positions: &[u32]) -> Result<bool, NoMem>
        requires { positions.now ≡ positions_in self.now parents.now }
        ensures { IfOk result (λ b. b ≡ model.is_reduced self.now parents.now) }
    {
        let _count = self.count();
        if self.are_heads(positions) {
            return Ok(true);
        }
        if self.are_cut_apart(positions) {
            return Ok(false);
        }
        is_reduced(self.alloc, self, positions)
    }

    /// True only where a critical cut stands between the first of these positions and the last one: then the last one has the first
    /// among its ancestors.
    fn are_cut_apart(&self, positions: &[u32]) -> bool
        requires { All (λ p. p < length self.now) positions.now }
        ensures { IsTrue result → is_reduced_at (parent_positions self.now) positions.now ≡ false }
    {
        let _count = self.count();
        match (positions.first(), positions.last()) {
            (Some(first), Some(last)) => *first < *last && *first < self.latest_cut(*last),
            _ => false,
        }
    }

    /// True only where all of the positions are those of heads. It answers nothing of the others: they are looked at more closely.
    fn are_heads(&self, positions: &[u32]) -> bool
        ensures { IsTrue result → (p : ℕ) → Among p positions.now → Among p (positions_in self.now (model.heads self.now)) }
    {
        let heads = self.heads.as_slice();
        for position in positions {
            if !stands_in(heads, *position) {
                return false;
            }
        }
        true
    }

    /// Whether the agent's event before this one is among its ancestors.
    #[tactic(auto, unfolding(ew_model::specs::Verdicts::follows_its_agent))]
    fn follows_its_agent(&self, e: &Event, positions: &[u32]) -> Result<bool, NoMem>
        requires { positions.now ≡ positions_in self.now e.now.parents }
        ensures { IfOk result (λ b. b ≡ follows_its_agent self.now e.now) }
    {
        self.know_number_below(e.parents.as_slice(), positions, &e.id.agent, e.id.seq)
    }

    /// Whether one of these ascending ids is the agent's last event, or has it as an ancestor. So it is of any ids where the agent
    /// has no event.
    pub fn know_last_of(&self, ids: &[Id], agent: &Name) -> Result<bool, NoMem>
        requires { ids_ascend ids.now ≡ true }
        ensures { IfOk result (λ b. b ≡ has_number_below (model.ancestors self.now ids.now) agent.now (count_of self.now agent.now)) }
    {
        let positions = self.positions_of(ids)?;
        self.know_number_below(ids, &positions, agent, self.count_of(agent))
    }

    /// Whether the number is 0, or the agent's event with the number below is among the ancestors of these ids.
    fn know_number_below(
        &self,
        named: &[Id],
        positions: &[u32],
        agent: &Name,
        n: u32,
    ) -> Result<bool, NoMem>
        requires { positions.now ≡ positions_in self.now named.now }
        ensures { IfOk result (λ b. b ≡ has_number_below (model.ancestors self.now named.now) agent.now n) }
    {
        let Some(seq) = n.checked_sub(1) else {
            return Ok(true);
        };
        let before = Id { agent: *agent, seq };
        self.knows(named, positions, &before)
    }

    /// Whether an id is held, and is among the ancestors of these.
    fn knows(&self, named: &[Id], positions: &[u32], id: &Id) -> Result<bool, NoMem>
        requires { positions.now ≡ positions_in self.now named.now }
        ensures { IfOk result (λ b. b ≡ is_among (model.ancestors self.now named.now) id.now) }
    {
        let _count = self.count();
        match self.find(id) {
            Some(position) => self.knows_at(positions, position),
            None => Ok(false),
        }
    }

    /// Whether the event at a position is one of these, or an ancestor of one. An event behind a critical cut has all events below it
    /// among its ancestors, so the way back ends there.
    fn knows_at(&self, positions: &[u32], position: u32) -> Result<bool, NoMem>
        requires positions { All (λ p. p < length self.now) positions.now }
        requires position { position < length self.now }
        ensures { IfOk result (λ b. b ≡ is_known_at (parent_positions self.now) positions.now position) }
    {
        let _count = self.count();
        if let Some(last) = positions.last() {
            if position < self.latest_cut(*last) {
                return Ok(true);
            }
        }
        contains(self.alloc, self, positions, position)
    }

    /// Puts an event behind the others that was judged good.
    pub fn admit(&mut self, e: &Event) -> Result<(), NoMem>
        requires good { graph_verdict self.old e.now ≡ Good }
        requires room { length self.old + 1 < 2 ^ 32 }
        ensures ok { OnOk result (self.new ≡ self.old ++ e.now ∷ []) }
        ensures err { OnErr result (self.new ≡ self.old) }
    {
        let parents = e.parents.as_slice();
        match self.find_last(parents) {
            Some(last) => self.put(e.id, &e.op, &[last]),
            None => {
                let positions = self.positions_of(parents)?;
                self.put(e.id, &e.op, positions.as_slice())
            }
        }
    }

    /// Puts the event behind the others that has this id and operation, and whose parents stand at these positions.
    pub(crate) fn put(&mut self, id: Id, op: &Op, positions: &[u32]) -> Result<(), NoMem>
        requires next { (parents : List Id) × IsGoodBehind self.old positions.now (event_on id op.now parents) }
        requires room { length self.old + 1 < 2 ^ 32 }
        ensures ok { OnOk result ((parents : List Id) → IsGoodBehind self.old positions.now (event_on id op.now parents) → self.new ≡ self.old ++ event_on id op.now parents ∷ []) }
        ensures err { OnErr result (self.new ≡ self.old) }
    {
        id.facts();
        op.facts();
        if self.heads.equals(positions) {
            self.append(&After::Heads(id), op, positions)
        } else {
            self.append(&After::Other(id), op, positions)
        }
    }

    /// Puts an event behind the others that goes on from the last one, where that is the only head. No id is made.
    pub(crate) fn put_on_last(&mut self, op: &Op) -> Result<(), NoMem>
        requires some { 0 < length self.old }
        requires room { length self.old + 1 < 2 ^ 32 }
        requires head { positions_in self.old (model.heads self.old) ≡ (length self.old - 1) ∷ [] }
        ensures ok { OnOk result ((x : Id) × (last_id self.old ≡ Some x) × (self.new ≡ self.old ++ event_behind x op.now ∷ [])) }
        ensures err { OnErr result (self.new ≡ self.old) }
    {
        op.facts();
        let last = self.events.count() - 1;
        self.append(&After::Last, op, &[last])
    }

    /// Puts the events of these operations behind the others: the first goes on from the last event, each further one from the event
    /// before it, as if each were put in by `go_on`. But for the characters it costs little more for many than for few: four bytes for
    /// each sixteen.
    pub fn go_on_run(&mut self, ops: RunOps<'_>) -> Result<(), NoMem>
        requires some { 0 < length self.old }
        requires fit { IndicesFit ops }
        requires room { length self.old + length (ops_of ops) < 2 ^ 32 }
        ensures ok { OnOk result ((x : Id) × (last_id self.old ≡ Some x) × (self.new ≡ self.old ++ chain_behind x (ops_of ops.entry))) }
        ensures err { OnErr result (self.new ≡ self.old) }
    {
        ops.facts();
        append_run(
            self.alloc,
            &mut self.ids,
            &mut self.events,
            &mut self.heads,
            &mut self.cuts,
            ops,
        )?;
        Ok(())
    }

    /// Puts an event after the others that was judged good, and whose parents stand at these positions.
    fn append(&mut self, after: &After, op: &Op, positions: &[u32]) -> Result<(), NoMem>
        requires next { (e : Event) × IsNextAfter self.old after.now positions.now op.now e }
        requires room { length self.old + 1 < 2 ^ 32 }
        ensures ok { OnOk result ((e : Event) → IsNextAfter self.old after.now positions.now op.now e → self.new ≡ self.old ++ e ∷ []) }
        ensures err { OnErr result (self.new ≡ self.old) }
    {
        append(
            self.alloc,
            &mut self.ids,
            &mut self.events,
            &mut self.heads,
            &mut self.cuts,
            after,
            op,
            positions,
        )?;
        Ok(())
    }

    /// Each agent with how many events it has, which is at least 1, ascending by name.
    pub fn summary(&self) -> Result<Vec<(Name, u32)>, NoMem>
        ensures value { IfOk result (λ v. v.items ≡ summary_of self.now) }
        ensures some { IfOk result (λ v. All (λ a. 1 ≤ a.1) v.items) }
    {
        let mut names = agents(self.alloc, &self.ids)?;
        names.sort_unstable();
        counts(self.alloc, &self.ids, &names)
    }
}

/// True only where the position is one of these. It is sought as in a rising list.
fn stands_in(rising: &[u32], position: u32) -> bool
    ensures { IsTrue result → Among position rising.now }
{
    match rising.binary_search(&position) {
        Ok(_) => true,
        Err(_) => false,
    }
}

impl Parentage for Graph {
    ghost use Rattle.ew_model.specs.Positions.{parent_positions};

    ghost parents = { λ history. parent_positions history };

    fn count(&self) -> u32 {
        Graph::count(self)
    }

    fn parents_of(&self, lv: u32) -> SmallVec<u32, 16> {
        self.events.parents_at(lv)
    }

    fn chain_start(&self, lv: u32) -> u32 {
        self.events.chain_start(lv)
    }

    fn chain_to(&self, lv: u32) -> Option<Chain<'_>> {
        Some(self.chain_in_runs(lv))
    }
}

impl Graph {
    /// A chain to the event at a position, through its run and through those before it.
    fn chain_in_runs(&self, lv: u32) -> Chain<'_>
        requires { lv < length (parent_positions self.now) }
        ensures chain { IsChain (parent_positions self.now) result.first lv }
        ensures value { result.parents.now ≡ parents_at (parent_positions self.now) result.first }
        ensures lower { AreParents result.first result.parents.now }
    {
        self.events.chain_at(lv)
    }
}

/// A hold on a graph: what is needed to come back to where it stood. Contracts see how many events there were, the positions of the
/// heads, and the critical cuts.
#[derive(Drop)]
pub struct Hold {
    count: u32,
    heads: Frontier,
    cuts: Cuts,
}

impl Model for Hold {
    ghost use Rattle.event_graph.specs.Tails.{Standing};

    ghost Value = { Standing };

    ghost view = { λ h. record { count = h.count; heads = h.heads; cuts = h.cuts } };
}

impl Graph {
    ghost use Rattle.std.specs.Prelude.{take};
    ghost use Rattle.ew_model.specs.Edits.{count_of};
    ghost use Rattle.event_graph.specs.Tails.{hold_of};

    /// How many events of the agent there are, which is the number of its next one.
    pub fn count_of(&self, agent: &Name) -> u32
        ensures count { result ≡ count_of self.now agent.now }
        ensures few { result ≤ length self.now }
    {
        let _heads = &self.heads;
        self.ids.count_of(agent)
    }

    /// Takes out all events from a critical cut on. It takes no memory.
    pub fn truncate(&mut self, cut: u32)
        requires { is_critical self.old cut ≡ true }
        ensures { self.new ≡ take cut self.old }
    {
        if cut < self.events.count() {
            // The event right behind the cut has all heads below it as its parents.
            self.heads = Frontier::from_rising(self.events.parents_at(cut));
            self.ids.truncate(cut);
            self.events.truncate(cut);
            self.cuts.truncate(cut);
        }
    }

    /// Holds on to where the graph stands, so that it can come back. The graph stays what it is. But for the heads it costs by what came
    /// since the last hold, where none is left, and not by how many events and critical cuts there are.
    pub fn hold(&mut self) -> Result<Hold, NoMem>
        ensures hold { IfOk result (λ h. h ≡ hold_of self.new) }
        ensures same { self.new ≡ self.old }
    {
        Ok(Hold {
            count: self.events.count(),
            heads: self.heads.copy()?,
            cuts: self.cuts.copy()?,
        })
    }

    /// Takes out all events that came since the hold. It ends the hold, and takes no memory.
    pub fn drop_tail(&mut self, hold: Hold)
        requires { hold ≡ hold_of (take hold.count self.old) }
        ensures { self.new ≡ take hold.count self.old }
    {
        self.ids.truncate(hold.count);
        self.events.truncate(hold.count);
        self.heads = hold.heads;
        self.cuts = hold.cuts;
    }

    /// Keeps all events that came since the hold, and ends it: the graph stays as it is. It takes no memory.
    pub fn keep(&mut self, hold: Hold)
        requires { hold ≡ hold_of (take hold.count self.old) }
        ensures { self.new ≡ self.old }
    {
        drop(hold);
    }
}
