//! What is read of a content so far.

ghost use Rattle.std.specs.Prelude.{◌≡◌, ◌<◌, ◌≤◌, ◌+◌, ◌^◌, suc, [], ◌∷◌, ◌++◌, true, false, not, nat_le, cond, length, get_or, slice_get, Some, None, OnOk, OnErr, IfOk, IfSome, IfNone};
ghost use Rattle.ew_model.specs.Ids.{name_eq, ids_ascend};
ghost use Rattle.ew_model.specs.Ancestors.{ids_of, is_held};
ghost use Rattle.ew_model.specs.Distinct.{AreDistinct};
ghost use Rattle.ew_model.specs.Writable.{agents_of};
ghost use Rattle.file_words.specs.FileFaults.{field, only, number, byte, open_agents, read_parents, read_record, read_end};
ghost use Rattle.file_words.specs.FileFaults.RecordFault.{AgentNumber, IdTwice, ParentCount, ParentPosition, ParentOrder};
ghost use Rattle.file_words.specs.FileRuns.{ops_count, are_new, read_run_record};
ghost use Rattle.event_file.specs.Reading.{Gives};
ghost use Rattle.event_file.specs.Known.{known_by, id_by, known_run};
ghost use Rattle.event_file.specs.Progress.{Known, IsOpenAt, IsLast, ReadsOn};
ghost use Rattle.event_file.specs.OpenRuns.{run_of, IsSoundRun, CanGoOn};
ghost use Rattle.event_file.specs.Runs.{ops_as, run_as};

use crate::fault::{RecordFault, Stop, bad_field};
use crate::id_runs::{IdRun, id_at, last_id, put};
use crate::input::Input;
use crate::open_run::OpenRun;
use crate::run_ops::FileRun;
use crate::run_records::read_run_ops;
use crate::seen::SeenIds;
use crate::short_id::ShortId;
use ew_model::NoMem;
use ew_model::event::{Event, Op};
use ew_model::id::Id;
use ew_model::limits::MOST_PARENTS;
use ew_model::name::Name;
use ew_model::parents::Parents;
use std::alloc::Global;
use std::marker::Model;

/// The agents of a file and the ids of its events so far, in their order. Contracts see the agents, and events of which the ids
/// are known.
#[derive(Drop)]
pub(crate) struct Progress {
    agents: Vec<Name>,
    /// How many of the agents have an event.
    used: usize,
    seen: SeenIds,
    ids: Vec<IdRun>,
}

impl Model for Progress {
    ghost use Rattle.std.specs.Prelude.{◌≡◌, ◌<◌, ◌^◌, length};
    ghost use Rattle.std.specs.BTreeMap.{get};
    ghost use Rattle.ew_model.specs.Ids.{id_cmp};
    ghost use Rattle.event_file.specs.Known.{known, AreWithin};
    ghost use Rattle.event_file.specs.IdRuns.{short_ids, AreIdRuns};
    ghost use Rattle.event_file.specs.Progress.{Known, IsIndexed};
    ghost use Rattle.event_file.specs.SeenIds.{IsSeen, AreParted};

    ghost Value = { Known };

    ghost view = { λ p. record { agents = p.agents.items; events = known p.agents.items (short_ids p.ids.items) } };

    ghost invariant = { λ p. IsIndexed p.agents.items (known p.agents.items (short_ids p.ids.items)) p.used (IsSeen p.agents.items p.seen.counts.items (get id_cmp p.seen.further))
        × (length p.seen.counts.items ≡ length p.agents.items) × AreWithin (length p.agents.items) (short_ids p.ids.items)
        × AreParted (get id_cmp p.seen.further) × AreIdRuns 0 p.ids.items × (length (short_ids p.ids.items) < 2 ^ 32) };
}

impl Progress {
    /// The agents, and no events yet.
    pub(crate) fn new(alloc: Global, agents: Vec<Name>) -> Result<Progress, NoMem>
        requires { AreDistinct name_eq agents.items }
        ensures { IfOk result (λ p. p ≡ record { agents = agents.items; events = [] }) }
    {
        let seen = SeenIds::new(alloc, agents.len())?;
        Ok(Progress {
            agents,
            used: 0,
            seen,
            ids: Vec::new(alloc),
        })
    }

    /// Where its memory is taken from.
    pub(crate) fn allocator(&self) -> Global {
        *self.ids.allocator()
    }

    /// Reads a record and keeps its id. Where it can't be read, nothing changes. `room` is room for the parents.
    #[tactic(auto, unfolding(file_words::specs::FileFaults::read_record))]
    pub(crate) fn next(&mut self, room: Vec<Id>, input: &mut Input) -> Result<Event, Stop>
        requires { length self.old.events + 1 < 2 ^ 32 }
        ensures exact { Gives (λ e. (e, input.new.left.now)) result (read_record self.old.agents self.old.events input.old.left.now) }
        ensures kept { IfOk result (λ e. self.new ≡ record { agents = self.old.agents; events = self.old.events ++ known_by e.id ∷ [] }) }
        ensures err { OnErr result ((self.new ≡ self.old) × (input.new.left.now ≡ input.old.left.now)) }
    {
        let mut ahead = Input { left: input.left };
        let place = self.agent(&mut ahead)?;
        let id = self.id(place, &mut ahead)?;
        let count = parent_count(&mut ahead)?;
        let parents = self.parents(room, count, &mut ahead)?;
        let op = ahead.operation()?;
        let event = Event { id, parents, op };
        self.keep(place, event.id, 0)?;
        input.left = ahead.left;
        Ok(event)
    }

    /// Reads the record of a run behind another one, where so many events are left, and keeps its ids. Where it can't be read,
    /// nothing changes. `room` is room for the parents.
    #[tactic(auto, unfolding(file_words::specs::FileRuns::read_run_record))]
    pub(crate) fn next_run<'a>(
        &mut self,
        room: Vec<Id>,
        last: &Option<OpenRun<'a>>,
        left: u32,
        input: &mut Input<'a>,
    ) -> Result<FileRun<'a>, Stop>
        requires some { 0 < left }
        requires few { length self.old.events + left < 2 ^ 32 }
        ensures exact { Gives (λ r. (run_as r, input.new.left.now)) result (read_run_record self.old.agents self.old.events (run_of last.now) left input.old.left.now) }
        ensures kept { IfOk result (λ r. self.new ≡ record { agents = self.old.agents; events = self.old.events ++ known_run r.id (ops_count (ops_as r.ops)) }) }
        ensures sound { IfOk result (λ r. IsSoundRun (run_as r) left) }
        ensures go_on { IfOk result (λ r. CanGoOn (ops_as r.ops)) }
        ensures err { OnErr result ((self.new ≡ self.old) × (input.new.left.now ≡ input.old.left.now)) }
    {
        let mut ahead = Input { left: input.left };
        let place = self.agent(&mut ahead)?;
        let id = self.id(place, &mut ahead)?;
        let count = parent_count(&mut ahead)?;
        let parents = self.parents(room, count, &mut ahead)?;
        let ops = match read_run_ops(self, last, left, place, &id, parents.as_slice(), &mut ahead) {
            Ok(ops) => ops,
            Err(stop) => return Err(stop),
        };
        self.keep(place, id, ops.count() as u32 - 1)?;
        input.left = ahead.left;
        Ok(FileRun { id, parents, ops })
    }

    /// The operation of a record whose event goes on from the last one. Then its id is kept. None where the record says something
    /// else or can't be read, where the counts don't tell that the id is new, or where memory is wanting: then nothing changes.
    pub(crate) fn go_on(&mut self, input: &mut Input) -> Option<Op>
        requires { length self.old.events + 1 < 2 ^ 32 }
        ensures some { IfSome result (λ op. ReadsOn op self.old self.new input.old.left.now input.new.left.now) }
        ensures none { IfNone result ((self.new ≡ self.old) × (input.new.left.now ≡ input.old.left.now)) }
    {
        let (position, last) = self.last()?;
        let next = ShortId {
            agent: last.agent,
            seq: last.seq.checked_add(1)?,
        };
        let mut ahead = Input { left: input.left };
        if !ahead.begins(next, position as usize) {
            return None;
        }
        let op = ahead.insertion_or_deletion()?;
        if !self.keep_next(next) {
            return None;
        }
        input.left = ahead.left;
        Some(op)
    }

    /// Whether nothing is left, and each agent has an event.
    #[tactic(auto, unfolding(file_words::specs::FileFaults::read_end))]
    pub(crate) fn end(&self, input: &Input) -> Result<(), Stop>
        ensures { Gives (λ _. (self.now.events, [])) result (read_end self.now.agents self.now.events input.now.left.now) }
    {
        if !input.left.is_empty() {
            return Err(bad_field(input.left, RecordFault::Trailing));
        }
        if self.used != self.agents.len() {
            return Err(bad_field(input.left, RecordFault::UnusedAgent));
        }
        Ok(())
    }

    /// Keeps a new id of one of the open agents, and so many behind it.
    fn keep(&mut self, place: u32, id: Id, more: u32) -> Result<(), NoMem>
        requires open { IsOpenAt self.old.agents self.old.events place id.agent }
        requires fits { id.seq + more < 2 ^ 32 }
        requires new { are_new self.old.events id (suc more) ≡ true }
        requires few { length self.old.events + suc more < 2 ^ 32 }
        ensures ok { OnOk result (self.new ≡ record { agents = self.old.agents; events = self.old.events ++ known_run id (suc more) }) }
        ensures err { OnErr result (self.new ≡ self.old) }
    {
        let first = ShortId {
            agent: place,
            seq: id.seq,
        };
        self.ids.reserve(1)?;
        self.seen.insert(place as usize, id, more)?;
        put(&mut self.ids, first, more);
        if place as usize == self.used {
            self.used += 1;
        }
        Ok(())
    }

    /// Keeps an id of an agent that has an event, where the counts tell that it is new, and memory isn't wanting. Else nothing changes.
    fn keep_next(&mut self, next: ShortId) -> bool
        requires used { slice_get (agents_of self.old.events) next.agent ≡ Some (get_or self.old.agents next.agent []) }
        requires few { length self.old.events + 1 < 2 ^ 32 }
        ensures new { result ≡ true → is_held self.old.events (id_by self.old.agents next) ≡ false }
        ensures yes { result ≡ true → self.new ≡ record { agents = self.old.agents; events = self.old.events ++ known_by (id_by self.old.agents next) ∷ [] } }
        ensures no { result ≡ false → self.new ≡ self.old }
    {
        if self.ids.reserve(1).is_err() {
            return false;
        }
        if !self.seen.insert_next(next.agent as usize, next.seq) {
            return false;
        }
        put(&mut self.ids, next, 0);
        true
    }

    /// The last id and its position, if there is one. Its agent has an event, and stands among the agents that do.
    fn last(&self) -> Option<(u32, ShortId)>
        ensures { IfSome result (λ found. IsLast self.now found.0 found.1) }
    {
        let (position, last) = last_id(&self.ids)?;
        if last.agent as usize >= self.used {
            return None;
        }
        Some((position, last))
    }

    /// The place of a record's agent: one that has an event, or the next.
    fn agent(&self, input: &mut Input) -> Result<u32, Stop>
        ensures agent { Gives (λ place. (get_or self.now.agents place [], input.new.left.now)) result
            (field number (slice_get (open_agents self.now.agents self.now.events)) AgentNumber input.old.left.now) }
        ensures open { IfOk result (λ place. IsOpenAt self.now.agents self.now.events place (get_or self.now.agents place [])) }
    {
        let field = input.left;
        let place = input.number()?;
        if !self.is_open(place as usize) {
            return Err(bad_field(field, RecordFault::AgentNumber));
        }
        Ok(place)
    }

    fn is_open(&self, place: usize) -> bool
        ensures { slice_get (open_agents self.now.agents self.now.events) place ≡ cond result (Some (get_or self.now.agents place [])) None }
    {
        if place > self.used {
            return false;
        }
        place < self.agents.len()
    }

    /// The id of a record of the agent at this place, which isn't that of an event before.
    fn id(&self, place: u32, input: &mut Input) -> Result<Id, Stop>
        requires { slice_get self.now.agents place ≡ Some (get_or self.now.agents place []) }
        ensures id { Gives (λ id. (id, input.new.left.now)) result
            (field number (λ seq. only (λ x. not (is_held self.now.events x)) (record { agent = get_or self.now.agents place []; seq = seq })) IdTwice input.old.left.now) }
        ensures agent { IfOk result (λ id. id.agent ≡ get_or self.now.agents place []) }
        ensures new { IfOk result (λ id. is_held self.now.events id ≡ false) }
    {
        let field = input.left;
        let seq = input.number()?;
        let id = Id {
            agent: self.agents[place as usize],
            seq,
        };
        if self.is_seen(place as usize, &id) {
            return Err(bad_field(field, RecordFault::IdTwice));
        }
        Ok(id)
    }

    /// Whether an event of the agent at this place has the id.
    fn is_seen(&self, place: usize, id: &Id) -> bool
        requires { slice_get self.now.agents place ≡ Some id.now.agent }
        ensures { result ≡ is_held self.now.events id.now }
    {
        let _number = id.seq;
        self.seen.has_one_of(place, id, 0)
    }

    /// Whether no event has one of so many ids of the agent at this place, from this one on.
    pub(crate) fn are_new(&self, place: u32, id: &Id, count: u32) -> bool
        requires place { slice_get self.now.agents place ≡ Some id.now.agent }
        requires some { 0 < count }
        requires fits { id.now.seq + count ≤ 2 ^ 32 }
        ensures { result ≡ are_new self.now.events id.now count }
    {
        !self.seen.has_one_of(place as usize, id, count - 1)
    }

    /// So many parents, ascending. They are put into the room.
    fn parents(&self, room: Vec<Id>, count: u8, input: &mut Input) -> Result<Parents, Stop>
        ensures { Gives (λ parents. (parents, input.new.left.now)) result (read_parents (ids_of self.now.events) [] count input.old.left.now) }
    {
        let mut parents = room;
        parents.clear();
        parents.reserve_exact(count as usize)?;
        for _ in 0..count {
            let parent = self.parent(parents.as_slice(), input)?;
            parents.push(parent)?;
        }
        Ok(Parents::from_vec(parents))
    }

    /// A parent above those before it.
    fn parent(&self, parents: &[Id], input: &mut Input) -> Result<Id, Stop>
        requires { ids_ascend parents.now ≡ true }
        ensures { Gives (λ id. (id, input.new.left.now)) result
            (field (field number (slice_get (ids_of self.now.events)) ParentPosition) (only (λ x. ids_ascend (parents.now ++ x ∷ []))) ParentOrder input.old.left.now) }
    {
        let field = input.left;
        let place = input.number()?;
        let Some(id) = self.id_at(place) else {
            return Err(bad_field(field, RecordFault::ParentPosition));
        };
        if !is_above(parents, &id) {
            return Err(bad_field(field, RecordFault::ParentOrder));
        }
        Ok(id)
    }

    fn id_at(&self, position: u32) -> Option<Id>
        ensures { result ≡ slice_get (ids_of self.now.events) position }
    {
        match id_at(&self.ids, position) {
            Some(id) => Some(Id {
                agent: self.agents[id.agent as usize],
                seq: id.seq,
            }),
            None => None,
        }
    }
}

fn parent_count(input: &mut Input) -> Result<u8, Stop>
    ensures { Gives (λ n. (n, input.new.left.now)) result (field byte (only (λ n. nat_le n 16)) ParentCount input.old.left.now) }
{
    let field = input.left;
    let count = input.byte()?;
    if count as u32 > MOST_PARENTS {
        return Err(bad_field(field, RecordFault::ParentCount));
    }
    Ok(count)
}

/// Whether the id is above the last of ids that ascend.
fn is_above(parents: &[Id], id: &Id) -> bool
    requires { ids_ascend parents.now ≡ true }
    ensures { result ≡ ids_ascend (parents.now ++ id.now ∷ []) }
{
    match parents.last() {
        Some(last) => last.cmp(id).is_lt(),
        None => true,
    }
}
