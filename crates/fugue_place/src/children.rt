//! The children in the order in which they were attached.

ghost use Rattle.std.specs.Prelude.{◌≡◌, ℕ, suc, ◌+◌, ◌<◌, ◌≤◌, ◌^◌, true, false, List, [], ◌∷◌, ◌++◌, length, take, slice_get, Some, IfSome, IfNone, IfOk, OnOk, IsTrue};
ghost use Rattle.std.specs.List.{AllWithin};
ghost use Rattle.ew_model.specs.declared.node.Node.TheVariants.{Event};
ghost use Rattle.fugue_place.specs.declared.children.Run.{Run as Runs};
ghost use Rattle.fugue_place.specs.Attachments.{is_event, is_attached, newest_node};
ghost use Rattle.fugue_place.specs.Heirs.{is_heir, HaveHeirs};
ghost use Rattle.fugue_place.specs.Members.{child_by, children_of, AreRuns, AreSomeRuns, IsLastRun, GoesOn, TakesHeirs, with_heirs, is_ahead};
ghost use Rattle.fugue_place.specs.Places.{HasNodeAt, AreRising};

use crate::child::{Attached, Side};
use ew_model::NoMem;
use ew_model::id::Id;
use ew_model::name::Name;
use ew_model::node::Node;
use indexmap::IndexSet;
use sorted_search::count_passing;
use std::alloc::Global;
use std::marker::Model;

/// So many children are kept at most, and so many agents have numbers.
const MOST: u32 = u32::MAX;

/// A run of children as it is kept, its agent by number. Each but the first is an heir with the agent's next sequence number,
/// and its node is the next event.
#[derive(Clone, Copy)]
pub struct Run {
    /// The place of its first child in the list of all.
    pub place: u32,
    /// Where its first child hangs.
    pub parent: Node,
    pub side: Side,
    pub agent: u32,
    /// The sequence number of its first child.
    pub seq: u32,
    /// The position of the event that is the node of its first child.
    pub event: u32,
    /// How many heirs stand behind its first child.
    pub heirs: u32,
}

/// The children of all nodes of a tree, in runs. The name of each agent is kept once. Contracts see the list of the children,
/// the names, and for how many more runs there is room.
#[derive(Drop)]
pub struct Children {
    runs: Vec<Run>,
    names: IndexSet<Name>,
    count: u32,
}

impl Model for Children {
    ghost use Rattle.std.specs.Prelude.{◌-◌};
    ghost use Rattle.std.specs.Vec.{vec_len, vec_capacity};
    ghost use Rattle.fugue_place.specs.Members.{Listed, children_of, AreRuns};

    ghost Value = { Listed };

    ghost view = { λ c. record { items = children_of c.names.keys c.runs.items; names = c.names.keys; room = vec_capacity c.runs - vec_len c.runs } };

    ghost invariant = { λ c. AreRuns c.names.keys 0 c.runs.items c.count };
}

impl Children {
    /// No children.
    pub fn new(alloc: Global) -> Children
        ensures { result.items ≡ [] }
    {
        Children {
            runs: Vec::new(alloc),
            names: IndexSet::new(alloc),
            count: 0,
        }
    }

    /// How many children there are.
    pub fn len(&self) -> usize
        ensures count { result ≡ length self.now.items }
        ensures few { result < 2 ^ 32 }
    {
        self.count as usize
    }

    /// The child at a place.
    pub fn get(&self, place: usize) -> Attached
        requires { place < length self.now.items }
        ensures { slice_get self.now.items place ≡ Some result }
    {
        let _count = self.count;
        let place = place as u32;
        let at = count_to(&self.runs, place) - 1;
        let run = self.runs[at];
        let Some(agent) = name_of(&self.names, run.agent) else {
            unreachable!()
        };
        child_at(&run, agent, place - run.place)
    }

    /// The node of the child that was attached last, if there is one.
    pub fn newest_node(&self) -> Option<Node>
        ensures { result ≡ newest_node self.now.items }
    {
        let _count = self.count;
        let run = self.runs.last()?;
        Some(Node::Event(run.event + run.heirs))
    }

    /// The place of the child with this node among so many first children, whose nodes rise.
    pub fn place_by_halving(&self, count: usize, node: Node) -> Option<usize>
        requires within { count ≤ length self.now.items }
        requires rising { AreRising (take count self.now.items) }
        ensures some { IfSome result (HasNodeAt (take count self.now.items) node) }
        ensures none { IfNone result (is_attached (take count self.now.items) node ≡ false) }
    {
        let _count = self.count;
        let Node::Event(event) = node else {
            return None;
        };
        let end = count as u32;
        let ahead = count_ahead(&self.runs, end, event);
        if ahead == 0 {
            return None;
        }
        let run = self.runs[ahead - 1];
        let behind = event - run.event;
        if behind <= run.heirs && behind < end - run.place {
            Some((run.place + behind) as usize)
        } else {
            None
        }
    }

    /// Makes room for one more child, and gives the number of its agent.
    pub fn reserve(&mut self, agent: &Name) -> Result<u32, NoMem>
        ensures same { self.new.items ≡ self.old.items }
        ensures few { OnOk result (length self.new.items + 1 < 2 ^ 32) }
        ensures room { OnOk result (0 < self.new.room) }
        ensures number { IfOk result (λ n. slice_get self.new.names n ≡ Some agent.now) }
    {
        if self.count == MOST {
            return Err(NoMem);
        }
        self.runs.reserve(1)?;
        let likely = newest_agent(&self.runs);
        number_of(&mut self.names, likely, agent)
    }

    /// Puts one more child behind the others, the number of its agent being known.
    pub fn push_reserved(&mut self, child: Attached, agent: u32)
        requires event { is_event child.node ≡ true }
        requires few { length self.old.items + 1 < 2 ^ 32 }
        requires room { 0 < self.old.room }
        requires number { slice_get self.old.names agent ≡ Some child.id.agent }
        ensures { self.new.items ≡ self.old.items ++ child ∷ [] }
    {
        let event = event_of(child.node);
        self.runs.push_reserved(Run {
            place: self.count,
            parent: child.parent,
            side: child.side,
            agent,
            seq: child.id.seq,
            event,
            heirs: 0,
        });
        self.count += 1;
    }

    /// Puts an heir behind the others: into the last run, where that goes on with it, or else into a run of its own.
    pub fn push_heir(&mut self, child: Attached, agent: u32)
        requires event { is_event child.node ≡ true }
        requires heir { is_heir self.old.items child ≡ true }
        requires few { length self.old.items + 1 < 2 ^ 32 }
        requires room { 0 < self.old.room }
        requires number { slice_get self.old.names agent ≡ Some child.id.agent }
        ensures { self.new.items ≡ self.old.items ++ child ∷ [] }
    {
        let event = event_of(child.node);
        if goes_on(&self.runs, agent, child.id.seq, event) {
            lengthen_last(&mut self.runs, 1);
            self.count += 1;
        } else {
            self.push_reserved(child, agent);
        }
    }

    /// Puts so many heirs behind the others, each of the one before: they are the nodes of the next events, under the next ids of the
    /// agent. Answers whether it did: the newest of the others has to be the node of the event at this position, and there has to be
    /// room. Else nothing has changed.
    pub fn push_heirs(&mut self, newest: u32, count: u32) -> bool
        requires few { newest + count < 2 ^ 32 }
        ensures yes { IsTrue result → HaveHeirs self.old.items self.new.items newest count }
        ensures few { IsTrue result → length self.new.items < 2 ^ 32 }
        ensures no { result ≡ false → self.new.items ≡ self.old.items }
    {
        if count > MOST - self.count || !takes_heirs(&self.runs, newest, count) {
            return false;
        }
        lengthen_last(&mut self.runs, count);
        self.count += count;
        true
    }
}

/// Whether the last run ends with an event, and has room for so many heirs more.
fn takes_heirs(runs: &[Run], newest: u32, count: u32) -> bool
    requires { AreSomeRuns runs.now }
    ensures { IsTrue result → (r : Runs) × IsLastRun runs.now r × TakesHeirs r newest count }
{
    match runs.last() {
        Some(run) => ends_with(run, newest, count),
        None => false,
    }
}

/// Whether the run ends with an event, and has room for so many heirs more.
fn ends_with(run: &Run, newest: u32, count: u32) -> bool
    requires seqs { run.now.seq + run.now.heirs < 2 ^ 32 }
    requires events { run.now.event + run.now.heirs < 2 ^ 32 }
    ensures { IsTrue result → TakesHeirs run.now newest count }
{
    run.event + run.heirs == newest && count <= MOST - (run.seq + run.heirs)
}

/// The position of the event whose node it is.
fn event_of(node: Node) -> u32
    requires { is_event node ≡ true }
    ensures { node ≡ Event result }
{
    match node {
        Node::Event(event) => event,
        _ => unreachable!(),
    }
}

/// The child that stands so many places behind the first of a run.
fn child_at(run: &Run, agent: Name, behind: u32) -> Attached
    requires seqs { run.now.seq + behind < 2 ^ 32 }
    requires events { run.now.event + behind < 2 ^ 32 }
    ensures { result ≡ child_by agent run.now behind }
{
    let event = run.event + behind;
    let id = Id {
        agent,
        seq: run.seq + behind,
    };
    if behind == 0 {
        Attached {
            parent: run.parent,
            side: run.side,
            id,
            node: Node::Event(event),
        }
    } else {
        Attached {
            parent: Node::Event(event - 1),
            side: Side::Right,
            id,
            node: Node::Event(event),
        }
    }
}

/// How many of the runs begin at a place or before it.
fn count_to(runs: &[Run], place: u32) -> usize
    requires { AreSomeRuns runs.now }
    ensures bound { result ≤ length runs.now }
    ensures to { AllWithin (λ r. r.place ≤ place) runs.now 0 result }
    ensures behind { AllWithin (λ r. place < r.place) runs.now result (length runs.now) }
{
    count_passing(runs, |run| run.place <= place)
}

/// How many of the runs begin ahead of a place, at an event or before it. The events of all children ahead of the place rise.
fn count_ahead(runs: &[Run], end: u32, event: u32) -> usize
    requires { (names : List (List ℕ)) × (count : ℕ) × AreRuns names 0 runs.now count × AreRising (take end (children_of names runs.now)) }
    ensures bound { result ≤ length runs.now }
    ensures to { AllWithin (λ r. is_ahead end event r ≡ true) runs.now 0 result }
    ensures behind { AllWithin (λ r. is_ahead end event r ≡ false) runs.now result (length runs.now) }
{
    count_passing(runs, |run| is_ahead(run, end, event))
}

/// Whether the run begins ahead of a place, at an event or before it.
fn is_ahead(run: &Run, end: u32, event: u32) -> bool
    ensures { result ≡ is_ahead end event run.now }
{
    run.place < end && run.event <= event
}

/// Whether the last run goes on with an agent's number and an event.
fn goes_on(runs: &[Run], agent: u32, seq: u32, event: u32) -> bool
    requires { AreSomeRuns runs.now }
    ensures { IsTrue result → (r : Runs) × IsLastRun runs.now r × GoesOn r agent seq event }
{
    match runs.last() {
        Some(run) => is_behind(run, agent, seq, event),
        None => false,
    }
}

/// Whether the run goes on with an agent's number and an event.
fn is_behind(run: &Run, agent: u32, seq: u32, event: u32) -> bool
    requires seqs { run.now.seq + run.now.heirs < 2 ^ 32 }
    requires events { run.now.event + run.now.heirs < 2 ^ 32 }
    ensures { IsTrue result → GoesOn run.now agent seq event }
{
    run.agent == agent && is_next(run.seq, run.heirs, seq) && is_next(run.event, run.heirs, event)
}

/// Whether the number is the next one behind another and so many more.
fn is_next(first: u32, more: u32, number: u32) -> bool
    requires { first + more < 2 ^ 32 }
    ensures { IsTrue result → number ≡ first + suc more }
{
    let last = first + more;
    last < number && number - last == 1
}

/// Gives the last run so many heirs more.
fn lengthen_last(runs: &mut Vec<Run>, more: u32)
    requires { (names : List (List ℕ)) × (end : ℕ) × AreRuns names 0 runs.old.items end × (end + more ≤ 2 ^ 32) }
    ensures { runs.new.items ≡ with_heirs runs.old.items more }
{
    let count = runs.len();
    if count > 0 {
        runs[count - 1].heirs += more;
    }
}

/// The number of the newest one's agent: most often the next one is that agent's too.
fn newest_agent(runs: &[Run]) -> u32 {
    match runs.last() {
        Some(run) => run.agent,
        None => 0,
    }
}

/// The number of an agent, which gets one where it has none. The likely number is tried first.
fn number_of(names: &mut IndexSet<Name>, likely: u32, agent: &Name) -> Result<u32, NoMem>
    ensures kept { (more : List (List ℕ)) × (names.new.keys ≡ names.old.keys ++ more) }
    ensures number { IfOk result (λ n. slice_get names.new.keys n ≡ Some agent.now) }
{
    if is_at(names, likely, agent) {
        return Ok(likely);
    }
    find_number(names, agent)
}

/// The number of an agent by its name, which gets one where it has none.
// Seldom called: kept apart, so that what is done for each character stays short.
#[inline(never)]
fn find_number(names: &mut IndexSet<Name>, agent: &Name) -> Result<u32, NoMem>
    ensures kept { (more : List (List ℕ)) × (names.new.keys ≡ names.old.keys ++ more) }
    ensures number { IfOk result (λ n. slice_get names.new.keys n ≡ Some agent.now) }
{
    if names.len() >= MOST as usize {
        return Err(NoMem);
    }
    let (number, _) = names.insert_full(*agent)?;
    Ok(number as u32)
}

/// Whether the agent has this number.
fn is_at(names: &IndexSet<Name>, number: u32, agent: &Name) -> bool
    ensures { IsTrue result → slice_get names.now.keys number ≡ Some agent.now }
{
    match names.get_index(number as usize) {
        Some(name) => name.is(agent),
        None => false,
    }
}

/// The agent with a number, if there is one.
fn name_of(names: &IndexSet<Name>, number: u32) -> Option<Name>
    ensures { result ≡ slice_get names.now.keys number }
{
    names.get_index(number as usize).copied()
}
