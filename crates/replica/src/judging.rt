//! One judgement after another, of received events and of waiting ones that are ready.

ghost use Rattle.std.specs.Prelude.{◌≡◌, ℕ, List, ◌+◌, ◌≤◌, ◌<◌, ◌^◌, nat_le, true, false, length, find, Some, None, IfOk, OnOk, OnErr, IfSome};
ghost use Rattle.ew_model.specs.declared.event.Event.{Event};
ghost use Rattle.ew_model.specs.Ancestors.{is_held};
ghost use Rattle.ew_model.specs.Arrival.{is_ready};
ghost use Rattle.ew_model.specs.Kept.{AreFresh};
ghost use Rattle.ew_model.specs.Verdicts as model;
ghost use Rattle.event_runs.specs.RunOps.{IndicesFit, ops_of};
ghost use Rattle.replica.specs.Counting.{with_more};
ghost use Rattle.replica.specs.Desks.{AreNextHeld, IsDesk, Judges, LeadsOn, LeadsTo, answer_by, desk_as, held_by, is_stop, known_at, pooled, refused_at, repeats_at, waiting_by};
ghost use Rattle.replica.specs.Fronts.{IsFront};
ghost use Rattle.replica.specs.declared.answer.Answer.TheVariants as answers;
ghost use Rattle.waiting_pool.specs.Knowing.{IsBehind};
ghost use Rattle.waiting_pool.specs.Waiting.{events_of};

use crate::answer::{Answer, rule, unless_known};
use crate::desk::Desk;
use crate::offered::Offered;
use event_graph::{Graph, Near};
use event_runs::RunOps;
use ew_model::NoMem;
use ew_model::event::Event;
use ew_model::limits::Limits;
use ew_model::verdict::Refusal;
use waiting_pool::{Pool, PutFault};

/// Puts a copy of an event behind those that wait, unless as many wait as may.
fn wait(pool: &mut Pool, e: &Event) -> Result<Answer, NoMem>
    requires { is_held (events_of pool.old) e.now.id ≡ false }
    ensures answer { IfOk result (λ a. a ≡ pooled (nat_le pool.old.limit (length (events_of pool.old))) answers.Waits) }
    ensures pool { IfOk result (λ a. events_of pool.new ≡ waiting_by a e.now (events_of pool.old)) }
    ensures limit { pool.new.limit ≡ pool.old.limit }
    ensures behind { (held : List Event) → IsBehind held pool.old → IsBehind held pool.new }
{
    let _waiting = pool.len();
    let copy = e.copy()?;
    match pool.put(copy) {
        Ok(()) => Ok(Answer::Waits),
        Err(PutFault::Waits(_)) => unreachable!(),
        Err(PutFault::Full(_)) => Ok(Answer::Refused(Refusal::PoolFull)),
        Err(PutFault::OutOfMemory(_)) => Err(NoMem),
    }
}

/// Does what an answer says, but that an event for which the pool has no room is refused.
fn settle(graph: &mut Graph, pool: &mut Pool, e: &Event, answer: Answer) -> Result<Answer, NoMem>
    requires good { answer ≡ answers.Held → model.graph_verdict graph.old e.now ≡ model.Ruling.Good }
    requires new { answer ≡ answers.Waits → is_held (events_of pool.old) e.now.id ≡ false }
    requires room { length graph.old + 1 < 2 ^ 32 }
    requires behind { IsBehind graph.old pool.old }
    ensures answer { IfOk result (λ a. a ≡ pooled (nat_le pool.old.limit (length (events_of pool.old))) answer) }
    ensures graph { IfOk result (λ a. graph.new ≡ held_by a e.now graph.old) }
    ensures pool { IfOk result (λ a. events_of pool.new ≡ waiting_by a e.now (events_of pool.old)) }
    ensures limit { pool.new.limit ≡ pool.old.limit }
    ensures behind { OnOk result (IsBehind graph.new pool.new) }
    ensures same { OnErr result (graph.new ≡ graph.old) }
{
    match answer {
        Answer::Held => graph.admit(e)?,
        Answer::Waits => {
            pool.catch_up(graph);
            return wait(pool, e);
        }
        Answer::Repeat | Answer::Refused(_) => {}
    }
    Ok(answer)
}

/// Judges an event, does what the answer says, and counts it.
fn judge(
    limits: &Limits,
    out: Option<(u32, u32)>,
    graph: &mut Graph,
    desk: &mut Desk,
    e: &Event,
) -> Result<Answer, NoMem>
    requires fresh { AreFresh graph.old (events_of desk.old.pool) }
    requires few { length graph.old ≤ limits.now.events }
    requires behind { IsBehind graph.old desk.old.pool }
    requires repeats { model.verdict limits.now false graph.old (events_of desk.old.pool) e.now ≡ model.Ruling.Repeat → desk.old.progress.repeats + 1 < 2 ^ 32 }
    ensures answer { IfOk result (λ a. a ≡ pooled (nat_le desk.old.pool.limit (length (events_of desk.old.pool))) (known_at out (length graph.old) (answer_by (model.verdict limits.now false graph.old (events_of desk.old.pool) e.now)))) }
    ensures graph { IfOk result (λ a. graph.new ≡ held_by a e.now graph.old) }
    ensures pool { IfOk result (λ a. events_of desk.new.pool ≡ waiting_by a e.now (events_of desk.old.pool)) }
    ensures limit { desk.new.pool.limit ≡ desk.old.pool.limit }
    ensures fresh { OnOk result (AreFresh graph.new (events_of desk.new.pool)) }
    ensures few { OnOk result (length graph.new ≤ limits.now.events) }
    ensures behind { OnOk result (IsBehind graph.new desk.new.pool) }
    ensures progress { IfOk result (λ a. desk.new.progress ≡ with_more desk.old.progress (repeats_at a) (refused_at e.now.id a)) }
    ensures front { OnErr result (IsFront graph.old graph.new) }
{
    let _most = limits.events();
    let ruled = rule(limits, graph, &desk.pool, e)?;
    let known = unless_known(out, graph.count(), ruled);
    let answer = settle(graph, &mut desk.pool, e, known)?;
    desk.progress.note(&e.id, answer)?;
    Ok(answer)
}

/// Makes the next judgement, if there is one to make: of the earliest waiting event that is ready, where a received one was
/// judged before, or else of the next received one. Its index isn't looked at, unless it is known to be out of range.
fn judge_next(
    limits: &Limits,
    out: Option<(u32, u32)>,
    graph: &mut Graph,
    desk: &mut Desk,
    events: &Offered,
    near: &mut Near,
) -> Result<Option<Answer>, NoMem>
    requires desk { IsDesk limits.now graph.old events.now desk.old.pool desk.old.progress }
    requires few { length events.now < 2 ^ 32 }
    ensures judged { IfOk result (Judges limits.now out (desk_as graph.old events.now desk.old) (desk_as graph.new events.now desk.new) desk.old.progress desk.new.progress) }
    ensures desk { OnOk result (IsDesk limits.now graph.new events.now desk.new.pool desk.new.progress) }
    ensures front { OnErr result (IsFront graph.old graph.new) }
{
    if desk.progress.is_settling() {
        judge_settling(limits, out, graph, desk, events, near)
    } else {
        judge_received(limits, out, graph, desk, events, near)
    }
}

/// Judges the earliest waiting event that is ready, or else the next received one.
fn judge_settling(
    limits: &Limits,
    out: Option<(u32, u32)>,
    graph: &mut Graph,
    desk: &mut Desk,
    events: &Offered,
    near: &mut Near,
) -> Result<Option<Answer>, NoMem>
    requires desk { IsDesk limits.now graph.old events.now desk.old.pool desk.old.progress }
    requires few { length events.now < 2 ^ 32 }
    requires settling { desk.old.progress.settling ≡ true }
    ensures judged { IfOk result (Judges limits.now out (desk_as graph.old events.now desk.old) (desk_as graph.new events.now desk.new) desk.old.progress desk.new.progress) }
    ensures desk { OnOk result (IsDesk limits.now graph.new events.now desk.new.pool desk.new.progress) }
    ensures front { OnErr result (IsFront graph.old graph.new) }
{
    let _waiting = desk.pool.len();
    match desk.pool.take_ready(graph)? {
        Some(e) => Ok(Some(judge(limits, out, graph, desk, &e)?)),
        None => judge_received(limits, out, graph, desk, events, near),
    }
}

/// Judges the next received event, if there is one.
fn judge_received(
    limits: &Limits,
    out: Option<(u32, u32)>,
    graph: &mut Graph,
    desk: &mut Desk,
    events: &Offered,
    near: &mut Near,
) -> Result<Option<Answer>, NoMem>
    requires desk { IsDesk limits.now graph.old events.now desk.old.pool desk.old.progress }
    requires few { length events.now < 2 ^ 32 }
    requires none { desk.old.progress.settling ≡ true → find (is_ready graph.old) (events_of desk.old.pool) ≡ None }
    ensures judged { IfOk result (Judges limits.now out (desk_as graph.old events.now desk.old) (desk_as graph.new events.now desk.new) desk.old.progress desk.new.progress) }
    ensures desk { OnOk result (IsDesk limits.now graph.new events.now desk.new.pool desk.new.progress) }
    ensures front { OnErr result (IsFront graph.old graph.new) }
{
    let Some(e) = events.get(desk.progress.judged(), near)? else {
        return Ok(None);
    };
    desk.progress.go_on(1);
    Ok(Some(judge(limits, out, graph, desk, &e)?))
}

/// Holds some of the next received events at once, where they go on from the last one held and from one another, as far as one run of
/// their graph tells: nothing waits, there is room for them, and no event is known to be out of range. So they are held whatever their
/// operations. How many it holds, if any, no clause says.
fn hold_run(
    limits: &Limits,
    out: Option<(u32, u32)>,
    graph: &mut Graph,
    desk: &mut Desk,
    events: &Offered,
    near: &mut Near,
) -> Result<(), NoMem>
    requires desk { IsDesk limits.now graph.old events.now desk.old.pool desk.old.progress }
    requires few { length events.now < 2 ^ 32 }
    ensures leads { OnOk result (LeadsOn limits.now out (desk_as graph.old events.now desk.old) (desk_as graph.new events.now desk.new) desk.old.progress desk.new.progress) }
    ensures desk { OnOk result (IsDesk limits.now graph.new events.now desk.new.pool desk.new.progress) }
    ensures same { OnErr result (graph.new ≡ graph.old) }
    ensures kept { OnErr result (desk.new ≡ desk.old) }
{
    // Asked for what their clauses tell: a limit and a count are below 2^32.
    let _most = limits.events();
    let _held = graph.count();
    if let Some(ops) = next_ops(limits, out, graph, desk, events, near) {
        let count = ops.count();
        graph.go_on_run(ops)?;
        desk.progress.go_on(count);
    }
    Ok(())
}

/// The operations of those events. None where there are none.
fn next_ops<'a>(
    limits: &Limits,
    out: Option<(u32, u32)>,
    graph: &Graph,
    desk: &Desk,
    events: &Offered<'a>,
    near: &mut Near,
) -> Option<RunOps<'a>>
    ensures fit { IfSome result IndicesFit }
    ensures some { IfSome result (λ ops. 0 < length (ops_of ops)) }
    ensures next { IfSome result (λ ops. AreNextHeld limits.now out graph.now events.now desk.now (ops_of ops)) }
{
    if out.is_some() || desk.pool.len() > 0 || graph.count() >= limits.events() {
        return None;
    }
    let last = graph.last_id()?;
    let room = limits.events() - graph.count();
    events.next_ops(desk.progress.judged(), &last, room, near)
}

/// Makes judgements until none is left to make, or the event that is known to be out of range was answered. Answers whether it
/// was.
pub fn judge_all(
    limits: &Limits,
    out: Option<(u32, u32)>,
    graph: &mut Graph,
    desk: &mut Desk,
    events: &Offered,
) -> Result<bool, NoMem>
    requires desk { IsDesk limits.now graph.old events.now desk.old.pool desk.old.progress }
    requires few { length events.now < 2 ^ 32 }
    ensures leads { IfOk result (LeadsTo limits.now out (desk_as graph.old events.now desk.old) (desk_as graph.new events.now desk.new) desk.old.progress desk.new.progress) }
    ensures desk { OnOk result (IsDesk limits.now graph.new events.now desk.new.pool desk.new.progress) }
    ensures front { IsFront graph.old graph.new }
{
    let mut near = Near::start();
    hold_run(limits, out, graph, desk, events, &mut near)?;
    while let Some(answer) = judge_next(limits, out, graph, desk, events, &mut near)? {
        if is_stop(answer) {
            return Ok(true);
        }
        hold_run(limits, out, graph, desk, events, &mut near)?;
    }
    Ok(false)
}

/// Whether the answer tells an index out of range.
fn is_stop(answer: Answer) -> bool
    ensures { result ≡ is_stop answer }
{
    match answer {
        Answer::Refused(Refusal::OutOfRange { .. }) => true,
        _ => false,
    }
}
