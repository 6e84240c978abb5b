//! The replica itself.

ghost use Rattle.std.specs.Prelude.{◌≡◌, ◌+◌, ◌≤◌, ◌<◌, ◌^◌, List, [], ◌∷◌, ◌++◌, drop, length, take, None, Some, true, false, IfSome, IfOk, IfErr, OnOk, OnErr, encode_utf8_all, ◌↔◌, IsTrue};
ghost use Rattle.std.specs.List.{All};
ghost use Rattle.std.specs.Option.{option_and_then};
ghost use Rattle.std.specs.Str.{chars};
ghost use Rattle.ew_model.specs.Ancestors.{heads, version_events};
ghost use Rattle.ew_model.specs.Arrival.{arrive, most_judgements, next_judgement};
ghost use Rattle.ew_model.specs.Cuts.{latest_cut};
ghost use Rattle.ew_model.specs.EditLaws.{edited, size_of};
ghost use Rattle.ew_model.specs.Edits as model;
ghost use Rattle.ew_model.specs.declared.event.Op.{Op};
ghost use Rattle.ew_model.specs.declared.id.Id.{Id};
ghost use Rattle.ew_model.specs.Ids.{id_cmp};
ghost use Rattle.ew_model.specs.Writable.{IsWritable};
ghost use Rattle.ew_model.specs.Kept.{IsKept, is_awaited};
ghost use Rattle.ew_model.specs.Operations.{operations};
ghost use Rattle.ew_model.specs.Rounds.{after_out_of_range, most_touches, round_touches, rounds_touches};
ghost use Rattle.ew_model.specs.Sets.{SameElements};
ghost use Rattle.ew_model.specs.Sorting.{sort_by};
ghost use Rattle.ew_model.specs.Texts.{text_at, text_of};
ghost use Rattle.ew_model.specs.TouchLaws.{NoneOutOfRange};
ghost use Rattle.ew_model.specs.Touches.{touches};
ghost use Rattle.ew_model.specs.Verdicts.{first_bad, first_unknown};
ghost use Rattle.event_graph.specs.Subgraphs.{events_at};
ghost use Rattle.rope.specs.Extents.{extent, IsIndexBehind};
ghost use Rattle.replica.specs.Answers.{EditsBy, Loads, refusal_of};
ghost use Rattle.replica.specs.Appending.{CanAppend, chain_from};
ghost use Rattle.replica.specs.Desks.{desk_of_replica, IsBegun};
ghost use Rattle.replica.specs.Editing.{edit_view};
ghost use Rattle.replica.specs.Keeping.{head_positions, IsToldBy};
ghost use Rattle.replica.specs.Later.{later_ops, LaterFit};
ghost use Rattle.replica.specs.Lengths.{prefix_lengths};
ghost use Rattle.replica.specs.Marking.{CanMark};
ghost use Rattle.replica.specs.Reaching.{Reaches};
ghost use Rattle.replica.specs.Receiving.{Receives, StandsBetween, StopsBetween};
ghost use Rattle.replica.specs.Refusing.{refusal_by, refusal_to_make};
ghost use Rattle.waiting_pool.specs.Waiting.{events_of};

use crate::admit::extend;
use crate::awaiting::awaits;
use crate::desk::Progress;
use crate::edit::{Edit, characters};
use crate::fault::{EditFault, LoadFault, VersionFault};
use crate::heads::head_ids;
use crate::later::Later;
use crate::lazy_text::LazyText;
use crate::length_runs::LengthRuns;
use crate::lengths::length_below;
use crate::listed::listed;
use crate::loading::given;
use crate::made::event_by;
use crate::marking::{extend_marks, mark_events};
use crate::offered::Offered;
use crate::past::text_at;
use crate::recent::Recent;
use crate::rounds::{Intake, Rounded, round};
use crate::took::{Stopped, Took};
use crate::walks::Walks;
use agreement::agrees;
use event_graph::Graph;
use ew_model::NoMem;
use ew_model::event::{Event, Op};
use ew_model::id::Id;
use ew_model::limits::{Limits, MOST_PARENTS};
use ew_model::name::Name;
use ew_model::steps::Steps;
use ew_model::text_op::TextOp;
use operation_runs::OperationRuns;
use rope::Measure;
use std::alloc::Global;
use std::marker::Model;
use std::sync::ledger::Ledger;
use waiting_pool::Pool;

/// The events that one person holds, with their text. Contracts see its limits, the events held and those that wait.
pub struct Replica {
    alloc: Global,
    limits: Limits,
    graph: Graph,
    text: LazyText,
    /// Number i is how many characters the text of the first i + 1 events has.
    lengths: LengthRuns,
    /// The events that wait for their parents.
    pool: Pool,
    /// What the events of the latest round of receiving do to the text, until the next round, or until events are made here.
    recent: Option<Recent>,
    /// What walks of receiving know that go on.
    walks: Walks,
}

impl Drop for Replica {
    fn drop(self) {
        let Replica {
            alloc: _,
            limits: _,
            graph: _,
            text: _,
            lengths: _,
            pool: _,
            recent: _,
            walks: _,
        } = self;
    }
}

impl Model for Replica {
    ghost use Rattle.waiting_pool.specs.Waiting.{events_of};
    ghost use Rattle.ew_model.specs.Kept.{ReplicaState};
    ghost use Rattle.replica.specs.Keeping.{AreRecent, IsToldBy, IsUpToDate};
    ghost use Rattle.replica.specs.Walks.{AreKept};

    ghost Value = { ReplicaState };

    ghost view = { λ r. record { limits = r.limits; held = r.graph; waiting = events_of r.pool } };

    ghost invariant = { λ r. IsUpToDate r.limits r.graph r.pool r.text.characters r.lengths × IsToldBy r.graph r.text.told × AreRecent r.graph r.recent × AreKept r.graph r.walks };
}

impl Replica {
    /// A replica of no events.
    pub fn new(alloc: Global, limits: Limits) -> Result<Replica, NoMem>
        ensures { IfOk result (λ r. r ≡ record { limits = limits; held = []; waiting = [] }) }
    {
        let graph = Graph::new(alloc)?;
        let text = LazyText::new(alloc)?;
        let lengths = LengthRuns::new(alloc);
        Replica::of_good(alloc, limits, graph, text, lengths)
    }

    /// A replica of the events, or the first that isn't good behind those before it. The steps taken are at most the touches of
    /// the events.
    pub fn from_events<L: Ledger>(
        alloc: Global,
        events: Vec<Event>,
        limits: Limits,
        steps: &mut Steps<L>,
    ) -> Result<Replica, LoadFault>
        requires { length events.items ≤ limits.events }
        ensures loads { Loads events.items limits result }
        ensures touches { steps.new ≤ steps.old + touches events.items 0 }
    {
        let loading = given(alloc, events, limits)?;
        let mut replica = loading.finish(steps)?;
        replica.make_text()?;
        Ok(replica)
    }

    /// A replica of good events, with their text, and how long it is after each.
    pub(crate) fn of_good(
        alloc: Global,
        limits: Limits,
        graph: Graph,
        text: LazyText,
        lengths: LengthRuns,
    ) -> Result<Replica, NoMem>
        requires good { first_bad graph ≡ None }
        requires few { length graph ≤ limits.events }
        requires text { text.characters ≡ text_of graph }
        requires told { IsToldBy graph text.told }
        requires lengths { lengths ≡ prefix_lengths graph }
        ensures { IfOk result (λ r. r ≡ record { limits = limits; held = graph; waiting = [] }) }
    {
        let pool = Pool::new(alloc, limits.waiting())?;
        Ok(Replica {
            alloc,
            limits,
            graph,
            text,
            lengths,
            pool,
            recent: None,
            walks: Walks::none(),
        })
    }

    /// Receives events, one after another. An event whose parents are all held is appended; one with an unknown parent waits,
    /// and is judged as soon as its parents are held; any other is refused, or was there before. Answers what was answered.
    ///
    /// The text is found by a walk from the latest critical cut of the events held then that isn't above the number held before,
    /// and a further one behind each event that is out of range. The steps taken are at most the touches of these walks, and
    /// just those of the one walk where no index is out of range.
    ///
    /// For want of memory receiving stops between two judgements: what was judged stands, and the other received events are
    /// handed back.
    pub fn receive<L: Ledger>(
        &mut self,
        events: Vec<Event>,
        steps: &mut Steps<L>,
    ) -> Result<Took, Stopped>
        requires { length events.items < 2 ^ 32 }
        ensures received { IfOk result (Receives self.old events.items self.new) }
        ensures stopped { IfErr result (StopsBetween self.old events.items self.new) }
        ensures touches { IfOk result (λ took. NoneOutOfRange (arrive self.old.limits self.old.held self.old.waiting events.items).answers → steps.new ≡ steps.old + touches self.new.held took.cut) }
        ensures most { steps.new ≤ steps.old + most_touches self.old.limits self.old.held self.old.waiting events.items }
    {
        self.receive_listed(events, false, steps)
    }

    /// Receives events as `receive` does, and answers the same. But where events come that don't know all that was held, the walk over them
    /// is kept, and a later call goes on with it where it can. No call takes more steps than `receive` may take; how many fewer it takes
    /// isn't promised.
    pub fn receive_going_on<L: Ledger>(
        &mut self,
        events: Vec<Event>,
        steps: &mut Steps<L>,
    ) -> Result<Took, Stopped>
        requires { length events.items < 2 ^ 32 }
        ensures received { IfOk result (Receives self.old events.items self.new) }
        ensures stopped { IfErr result (StopsBetween self.old events.items self.new) }
        ensures most { steps.new ≤ steps.old + most_touches self.old.limits self.old.held self.old.waiting events.items }
    {
        self.receive_listed(events, true, steps)
    }

    /// Receives the events at some positions of another graph, as `receive` does, but that no list of them is made. For want of
    /// memory receiving stops between two judgements, and what was judged stands; nothing is told of it then, or handed back.
    pub fn receive_from<L: Ledger>(
        &mut self,
        other: &Graph,
        positions: &[u32],
        steps: &mut Steps<L>,
    ) -> Result<Took, NoMem>
        requires within { All (λ p. p < length other.now) positions.now }
        requires few { length positions.now < 2 ^ 32 }
        ensures received { IfOk result (Receives self.old (events_at other.now positions.now) self.new) }
        ensures stands { OnErr result (StandsBetween self.old (events_at other.now positions.now) self.new) }
        ensures touches { IfOk result (λ took. NoneOutOfRange (arrive self.old.limits self.old.held self.old.waiting (events_at other.now positions.now)).answers → steps.new ≡ steps.old + touches self.new.held took.cut) }
        ensures most { steps.new ≤ steps.old + most_touches self.old.limits self.old.held self.old.waiting (events_at other.now positions.now) }
    {
        self.receive_held(other, positions, false, steps)
    }

    /// Receives the events at some positions of another graph, as `receive_from` does, and keeps the walk, as `receive_going_on` does.
    pub fn receive_from_going_on<L: Ledger>(
        &mut self,
        other: &Graph,
        positions: &[u32],
        steps: &mut Steps<L>,
    ) -> Result<Took, NoMem>
        requires within { All (λ p. p < length other.now) positions.now }
        requires few { length positions.now < 2 ^ 32 }
        ensures received { IfOk result (Receives self.old (events_at other.now positions.now) self.new) }
        ensures stands { OnErr result (StandsBetween self.old (events_at other.now positions.now) self.new) }
        ensures most { steps.new ≤ steps.old + most_touches self.old.limits self.old.held self.old.waiting (events_at other.now positions.now) }
    {
        self.receive_held(other, positions, true, steps)
    }

    /// Receives the events of a list, with walks that are kept and go on, or without.
    fn receive_listed<L: Ledger>(
        &mut self,
        events: Vec<Event>,
        keeping: bool,
        steps: &mut Steps<L>,
    ) -> Result<Took, Stopped>
        requires { length events.items < 2 ^ 32 }
        ensures received { IfOk result (Receives self.old events.items self.new) }
        ensures stopped { IfErr result (StopsBetween self.old events.items self.new) }
        ensures touches { IfOk result (λ took. keeping ≡ false → NoneOutOfRange (arrive self.old.limits self.old.held self.old.waiting events.items).answers → steps.new ≡ steps.old + touches self.new.held took.cut) }
        ensures most { steps.new ≤ steps.old + most_touches self.old.limits self.old.held self.old.waiting events.items }
    {
        let before = self.count();
        let mut progress = Progress::new(self.alloc);
        let offered = Offered::listed(&events);
        match self.receive_all(&offered, &mut progress, keeping, steps) {
            Ok(()) => Ok(self.took(progress, before)),
            Err(_) => {
                let rest = rest(events, progress.judged());
                let took = self.took(progress, before);
                Err(Stopped { took, rest })
            }
        }
    }

    /// Receives the events at some positions of another graph, with walks that are kept and go on, or without.
    fn receive_held<L: Ledger>(
        &mut self,
        other: &Graph,
        positions: &[u32],
        keeping: bool,
        steps: &mut Steps<L>,
    ) -> Result<Took, NoMem>
        requires within { All (λ p. p < length other.now) positions.now }
        requires few { length positions.now < 2 ^ 32 }
        ensures received { IfOk result (Receives self.old (events_at other.now positions.now) self.new) }
        ensures stands { OnErr result (StandsBetween self.old (events_at other.now positions.now) self.new) }
        ensures touches { IfOk result (λ took. keeping ≡ false → NoneOutOfRange (arrive self.old.limits self.old.held self.old.waiting (events_at other.now positions.now)).answers → steps.new ≡ steps.old + touches self.new.held took.cut) }
        ensures most { steps.new ≤ steps.old + most_touches self.old.limits self.old.held self.old.waiting (events_at other.now positions.now) }
    {
        let before = self.count();
        let mut progress = Progress::new(self.alloc);
        let offered = Offered::held(other, positions);
        self.receive_all(&offered, &mut progress, keeping, steps)?;
        Ok(self.took(progress, before))
    }

    /// Goes through rounds until nothing is left to judge, with walks that are kept and go on, or without. For want of memory it stops
    /// between two of them.
    fn receive_all<L: Ledger>(
        &mut self,
        events: &Offered,
        progress: &mut Progress,
        keeping: bool,
        steps: &mut Steps<L>,
    ) -> Result<(), NoMem>
        requires few { length events.now < 2 ^ 32 }
        requires begun { IsBegun events.now progress.old }
        ensures limits { self.new.limits ≡ self.old.limits }
        ensures begun { IsBegun events.now progress.new }
        ensures reaches { Reaches self.old.limits (desk_of_replica self.old events.now progress.old) (desk_of_replica self.new events.now progress.new) progress.old progress.new }
        ensures ends { OnOk result (next_judgement self.old.limits true (desk_of_replica self.new events.now progress.new) ≡ None) }
        ensures touches { OnOk result (keeping ≡ false → after_out_of_range self.old.limits (most_judgements (desk_of_replica self.old events.now progress.old)) (desk_of_replica self.old events.now progress.old) ≡ None → steps.new ≡ steps.old + round_touches self.old.limits (desk_of_replica self.old events.now progress.old)) }
        ensures most { steps.new ≤ steps.old + rounds_touches self.old.limits (most_judgements (desk_of_replica self.old events.now progress.old)) (desk_of_replica self.old events.now progress.old) }
    {
        while self.round(events, progress, keeping, steps)? {}
        Ok(())
    }

    /// One round. Answers whether there is more to do.
    fn round<L: Ledger>(
        &mut self,
        events: &Offered,
        progress: &mut Progress,
        keeping: bool,
        steps: &mut Steps<L>,
    ) -> Result<bool, NoMem>
        requires few { length events.now < 2 ^ 32 }
        requires begun { IsBegun events.now progress.old }
        ensures limits { self.new.limits ≡ self.old.limits }
        ensures begun { OnOk result (IsBegun events.now progress.new) }
        ensures reaches { OnOk result (Reaches self.old.limits (desk_of_replica self.old events.now progress.old) (desk_of_replica self.new events.now progress.new) progress.old progress.new) }
        ensures fewer { IfOk result (λ more. more ≡ true → most_judgements (desk_of_replica self.new events.now progress.new) < most_judgements (desk_of_replica self.old events.now progress.old)) }
        ensures last { IfOk result (λ more. more ≡ false → next_judgement self.old.limits true (desk_of_replica self.new events.now progress.new) ≡ None) }
        ensures next { IfOk result (λ more. more ≡ true → after_out_of_range self.old.limits (most_judgements (desk_of_replica self.old events.now progress.old)) (desk_of_replica self.old events.now progress.old) ≡ Some (desk_of_replica self.new events.now progress.new)) }
        ensures touches { IfOk result (λ more. keeping ≡ false → more ≡ false → steps.new ≡ steps.old + round_touches self.old.limits (desk_of_replica self.old events.now progress.old)) }
        ensures most { steps.new ≤ steps.old + round_touches self.old.limits (desk_of_replica self.old events.now progress.old) }
        ensures same { OnErr result (self.new ≡ self.old) }
        ensures same_progress { OnErr result (progress.new ≡ progress.old) }
    {
        let _waiting = self.pool.len();
        let from = self.graph.count();
        let intake = Intake {
            limits: &self.limits,
            pool: &self.pool,
            progress,
            events,
            keeping,
        };
        let Rounded { desk, ops, more } = round(
            self.alloc,
            intake,
            &mut self.graph,
            &mut self.text,
            &mut self.lengths,
            &mut self.walks,
            steps,
        )?;
        self.pool = desk.pool;
        *progress = desk.progress;
        self.recent = Some(Recent { from, ops });
        Ok(more)
    }

    /// What is told of all that was answered since so many events were held.
    fn took(&self, progress: Progress, before: u32) -> Took
        requires { before ≤ length self.now.held }
        ensures accepted { result.accepted + before ≡ length self.now.held }
        ensures waiting { result.waiting ≡ length self.now.waiting }
        ensures repeats { result.repeats ≡ progress.repeats }
        ensures refused { result.refused.items ≡ progress.refused }
        ensures cut { result.cut ≡ latest_cut self.now.held before }
    {
        Took {
            accepted: self.graph.count() - before,
            waiting: self.pool.len(),
            repeats: progress.repeats(),
            refused: progress.into_refused(),
            cut: self.graph.latest_cut(before),
        }
    }

    /// Whether an event waits that is, or has as parent, an event of the agent that isn't held. Then the agent may make none.
    pub fn awaits(&self, agent: &Name) -> bool
        ensures { result ≡ is_awaited self.now.held self.now.waiting agent.now }
    {
        awaits(&self.graph, &self.pool, agent)
    }

    /// Makes the text, if it isn't made yet, and keeps it: calls of `text` need not make it then. Nothing else changes.
    pub fn make_text(&mut self) -> Result<(), NoMem>
        ensures ok { OnOk result (self.new ≡ self.old) }
        ensures err { OnErr result (self.new ≡ self.old) }
    {
        self.text.make(self.alloc)
    }

    /// What each of the events held does to the text of those before it, in order, and everything else is let go. That is known of a
    /// replica that was loaded, as long as nothing was received or made since, nor its text. Else the replica is given back as it was.
    pub fn into_operations(self) -> Result<OperationRuns, Replica>
        ensures ok { IfOk result (λ ops. ops ≡ operations self.held) }
        ensures err { IfErr result (λ r. r ≡ self) }
    {
        let Replica {
            alloc,
            limits,
            graph,
            text,
            lengths,
            pool,
            recent,
            walks,
        } = self;
        match text.into_operations() {
            Ok(ops) => Ok(ops),
            Err(text) => Err(Replica {
                alloc,
                limits,
                graph,
                text,
                lengths,
                pool,
                recent,
                walks,
            }),
        }
    }

    /// What the events held from number `from` on do to the text, in order, where that is still known: where those of the latest
    /// round of `receive` begin at that number. They are kept until the next round, or until events are made here.
    pub fn recent_operations(&self, from: u32) -> Option<&OperationRuns>
        ensures { IfSome result (λ ops. ops.now ≡ drop from (operations self.now.held)) }
    {
        match &self.recent {
            Some(recent) if recent.from == from => Some(&recent.ops),
            Some(_) | None => None,
        }
    }

    /// The text, in UTF-8.
    pub fn text(&self) -> Result<Vec<u8>, NoMem>
        ensures { IfOk result (λ v. v.items ≡ encode_utf8_all (text_of self.now.held)) }
    {
        let mut bytes = Vec::new(self.alloc);
        self.text.write_to(&mut bytes)?;
        Ok(bytes)
    }

    /// So many characters of the text from an index on, or as many as there are, in UTF-8.
    pub fn text_range(&self, from: u32, n: u32) -> Result<Vec<u8>, NoMem>
        ensures { IfOk result (λ v. v.items ≡ encode_utf8_all (take n (drop from (text_of self.now.held)))) }
    {
        let mut bytes = Vec::new(self.alloc);
        self.text.write_range(from, n, &mut bytes)?;
        Ok(bytes)
    }

    /// How many code units of UTF-16, or bytes of UTF-8, the characters below an index take; all of them where there are fewer. Memory is
    /// needed only where the text isn't made yet.
    pub fn extent_before(&self, measure: Measure, at: u32) -> Result<u64, NoMem>
        ensures { IfOk result (λ much. much ≡ extent measure (take at (text_of self.now.held))) }
    {
        self.text.extent_before(self.alloc, measure, at)
    }

    /// The index before which the characters take just so many code units of UTF-16, or bytes of UTF-8. There is none within a
    /// character, nor behind the end. Memory is needed only where the text isn't made yet.
    pub fn index_behind(&self, measure: Measure, much: u64) -> Result<Option<u32>, NoMem>
        ensures { IfOk result (λ at. IsIndexBehind measure (text_of self.now.held) much at) }
    {
        self.text.index_behind(self.alloc, measure, much)
    }

    /// The text of a version, in UTF-8, or the first of its ids, in the order given, that isn't held. The steps taken are at
    /// most the touches of the version's events.
    pub fn text_at<L: Ledger>(
        &self,
        version: &[Id],
        steps: &mut Steps<L>,
    ) -> Result<Vec<u8>, VersionFault>
        ensures text { IfOk result (λ bytes. bytes.items ≡ encode_utf8_all (text_at self.now.held version.now)) }
        ensures unknown { (x : Id) → result ≡ Err (VersionFault.Unknown x) ↔ (first_unknown self.now.held version.now ≡ Some x) }
        ensures touches { steps.new ≤ steps.old + touches (version_events self.now.held version.now) 0 }
    {
        let _most = self.limits.events();
        text_at(self.alloc, self.graph(), version, steps)
    }

    /// How many characters the text has.
    pub fn len(&self) -> u32
        ensures { result ≡ length (text_of self.now.held) }
    {
        self.text.len()
    }

    /// How many characters the text of the first `count` events has.
    pub fn length_at(&self, count: u32) -> u32
        requires { count ≤ length self.now.held }
        ensures { result ≡ length (text_of (take count self.now.held)) }
    {
        length_below(&self.lengths, count)
    }

    /// The positions of the heads among the events held, rising.
    pub fn heads(&self) -> &[u32]
        ensures { result.now ≡ head_positions self.now.held }
    {
        self.graph.frontier().as_slice()
    }

    /// The ids of the heads, ascending.
    pub fn head_ids(&self) -> Result<Vec<Id>, NoMem>
        ensures { IfOk result (λ v. v.items ≡ sort_by id_cmp (heads self.now.held)) }
    {
        head_ids(self.alloc, &self.graph)
    }

    /// The limits that it was made with. They hold for what it keeps.
    pub fn limits(&self) -> Limits
        ensures limits { result ≡ self.now.limits }
        ensures kept { IsKept self.now.limits self.now.held self.now.waiting }
    {
        self.limits
    }

    /// The events held, as a graph.
    pub fn graph(&self) -> &Graph
        ensures graph { result.now ≡ self.now.held }
        ensures kept { IsKept self.now.limits self.now.held self.now.waiting }
    {
        &self.graph
    }

    /// How many events are held.
    pub fn count(&self) -> u32
        ensures { result ≡ length self.now.held }
    {
        self.graph.count()
    }

    /// Whether the other replica holds equal events, in whatever order these came: then both show equal text. It takes no
    /// memory.
    pub fn agrees(&self, other: &Replica) -> bool
        ensures agrees { IsTrue result ↔ SameElements self.now.held other.now.held }
        ensures text { IsTrue result → text_of self.now.held ≡ text_of other.now.held }
    {
        agrees(&self.graph, &other.graph)
    }

    /// The events held, in order. They may be written as a file.
    pub fn events(&self) -> Result<Vec<Event>, NoMem>
        ensures events { IfOk result (λ v. v.items ≡ self.now.held) }
        ensures writable { IsWritable self.now.held }
    {
        let _most = self.limits.events();
        listed(self.alloc, &self.graph)
    }

    /// Inserts the characters of a text at an index: one event for each. Answers how many events were made.
    pub fn insert<L: Ledger>(
        &mut self,
        agent: Name,
        at: u32,
        text: &str,
        steps: &mut Steps<L>,
    ) -> Result<u32, EditFault>
        requires { is_awaited self.old.held self.old.waiting agent ≡ false }
        ensures edits { EditsBy agent (model.Edit.Insert at (chars text.now)) self.old self.new result }
        ensures text { OnOk result (text_of self.new.held ≡ edited (model.Edit.Insert at (chars text.now)) (text_of self.old.held)) }
        ensures steps { steps.new ≡ steps.old }
    {
        let _ = steps;
        let text = characters(self.alloc, text)?;
        self.edit_text(agent, &Edit::Insert { at, text })
    }

    /// Deletes n characters from an index on: one event for each. Answers how many events were made.
    pub fn delete<L: Ledger>(
        &mut self,
        agent: Name,
        at: u32,
        n: u32,
        steps: &mut Steps<L>,
    ) -> Result<u32, EditFault>
        requires { is_awaited self.old.held self.old.waiting agent ≡ false }
        ensures edits { EditsBy agent (model.Edit.Delete at n) self.old self.new result }
        ensures text { OnOk result (text_of self.new.held ≡ edited (model.Edit.Delete at n) (text_of self.old.held)) }
        ensures steps { steps.new ≡ steps.old }
    {
        let _ = steps;
        self.edit_text(agent, &Edit::Delete { at, n })
    }

    /// Saves the history under a label: events that join all heads, so that one head is left. With at most 16 heads it is one
    /// event. Answers how many events were made. It is refused only where there is no room for them, or for want of memory.
    pub fn mark<L: Ledger>(
        &mut self,
        agent: Name,
        label: Name,
        steps: &mut Steps<L>,
    ) -> Result<u32, EditFault>
        requires { is_awaited self.old.held self.old.waiting agent ≡ false }
        ensures edits { EditsBy agent (model.Edit.Mark label) self.old self.new result }
        ensures text { OnOk result (text_of self.new.held ≡ text_of self.old.held) }
        ensures steps { steps.new ≡ steps.old }
    {
        let _ = steps;
        let _most = self.limits.events();
        let made = mark_events(self.alloc, &self.graph, agent, label)?;
        if made.len() > self.room() as usize {
            let count = self.count();
            return Err(EditFault::Full { count });
        }
        let n = self.append_marks(made.as_slice())?;
        Ok(n)
    }

    /// Makes the events of an edit, and holds them.
    fn edit_text(&mut self, agent: Name, edit: &Edit) -> Result<u32, EditFault>
        requires { is_awaited self.old.held self.old.waiting agent ≡ false }
        ensures edits { EditsBy agent (edit_view edit.now) self.old self.new result }
        ensures text { OnOk result (text_of self.new.held ≡ edited (edit_view edit.now) (text_of self.old.held)) }
    {
        if let Some(fault) = self.refusal(edit) {
            return Err(fault);
        }
        if edit.size() == 0 {
            return Ok(0);
        }
        let _most = self.limits.events();
        let (op, rest) = edit.ops();
        let (first, changes) = self.make(self.alloc, agent, edit, op)?;
        let n = self.append(&first, Later::Run(rest), changes.as_slice())?;
        Ok(n)
    }

    /// The first reason against an edit.
    fn refusal(&self, edit: &Edit) -> Option<EditFault>
        ensures { option_and_then refusal_of result ≡ refusal_by (length (text_of self.now.held)) (length (heads self.now.held)) (length self.now.held) self.now.limits.events (model.needed_length (edit_view edit.now)) (size_of (edit_view edit.now)) }
    {
        let len = self.len();
        if u64::from(len) < edit.needed() {
            return Some(EditFault::OutOfRange { len });
        }
        self.refusal_to_make(edit.size())
    }

    /// The first reason against so many new events.
    pub(crate) fn refusal_to_make(&self, size: u64) -> Option<EditFault>
        ensures { option_and_then refusal_of result ≡ refusal_to_make (length (heads self.now.held)) (length self.now.held) self.now.limits.events size }
    {
        if size == 0 {
            return None;
        }
        let heads = self.head_count();
        if heads > MOST_PARENTS {
            return Some(EditFault::TooManyHeads { heads });
        }
        if u64::from(self.room()) < size {
            let count = self.count();
            return Some(EditFault::Full { count });
        }
        None
    }

    /// What it takes its memory from.
    pub(crate) fn alloc(&self) -> Global {
        self.alloc
    }

    /// How many more events may be held.
    fn room(&self) -> u32
        ensures { result + length self.now.held ≡ self.now.limits.events }
    {
        let most = self.limits.events();
        most - self.graph.count()
    }

    fn head_count(&self) -> u32
        ensures { result ≡ length (heads self.now.held) }
    {
        let _most = self.limits.events();
        self.graph.frontier().as_slice().len() as u32
    }

    /// The first event of an edit that isn't refused, with the edit's first operation, and what all of its events do to the text.
    fn make(
        &self,
        alloc: Global,
        agent: Name,
        edit: &Edit,
        first: Op,
    ) -> Result<(Event, Vec<TextOp>), NoMem>
        requires awaited { is_awaited self.now.held self.now.waiting agent ≡ false }
        requires allowed { model.edit_refusal self.now.limits self.now.held agent (edit_view edit.now) ≡ None }
        ensures events { IfOk result (λ made. (rest : List Op) → first ∷ rest ≡ model.ops_of (edit_view edit.now) → chain_from made.0 rest ≡ model.events_of_edit self.now.held agent (edit_view edit.now)) }
        ensures can { IfOk result (λ made. CanAppend self.now.limits self.now.held self.now.waiting (model.events_of_edit self.now.held agent (edit_view edit.now)) made.1.items) }
    {
        let _most = self.limits.events();
        let event = event_by(alloc, &self.graph, agent, first)?;
        let changes = edit.changes(alloc)?;
        Ok((event, changes))
    }

    /// Holds one more event and those of operations that go on from it, and changes the text. Answers how many they are. It does all
    /// of it or nothing.
    #[tactic(auto, using(crate::proofs::Chains::chain_from_long))]
    pub(crate) fn append(
        &mut self,
        first: &Event,
        rest: Later<'_>,
        changes: &[TextOp],
    ) -> Result<u32, NoMem>
        requires can { CanAppend self.old.limits self.old.held self.old.waiting (chain_from first.now (later_ops rest)) changes.now }
        requires fit { LaterFit rest }
        ensures count { IfOk result (λ n. n ≡ length (chain_from first.now (later_ops rest.entry))) }
        ensures ok { OnOk result (self.new ≡ record { limits = self.old.limits; held = self.old.held ++ chain_from first.now (later_ops rest.entry); waiting = self.old.waiting }) }
        ensures err { OnErr result (self.new ≡ self.old) }
    {
        let _most = self.limits.events();
        extend(
            &mut self.graph,
            &mut self.text,
            &mut self.lengths,
            first,
            rest,
            changes,
        )?;
        self.recent = None;
        Ok(1 + rest.count())
    }

    /// Holds the events of a mark, which change no text. Answers how many they are. It does all of it or nothing.
    fn append_marks(&mut self, made: &[Event]) -> Result<u32, NoMem>
        requires { CanMark self.old.limits self.old.held self.old.waiting made.now }
        ensures count { IfOk result (λ n. n ≡ length made.now) }
        ensures ok { OnOk result (self.new ≡ record { limits = self.old.limits; held = self.old.held ++ made.now; waiting = self.old.waiting }) }
        ensures err { OnErr result (self.new ≡ self.old) }
    {
        let _most = self.limits.events();
        let len = self.text.len();
        extend_marks(&mut self.graph, &mut self.lengths, len, made)?;
        self.text.grow();
        self.recent = None;
        Ok(made.len() as u32)
    }
}

/// The events from a place on.
fn rest(mut events: Vec<Event>, judged: usize) -> Vec<Event>
    requires { judged ≤ length events.items }
    ensures { result.items ≡ drop judged events.items }
{
    events.rotate_left(judged);
    events.truncate(events.len() - judged);
    events
}
