//! The answer to one event, whatever its index.

ghost use Rattle.std.specs.Prelude.{◌≡◌, nat_le, false, length, if◌then◌else◌, IfOk};
ghost use Rattle.ew_model.specs.Answers.{ruling_of};
ghost use Rattle.ew_model.specs.Events.{event_eq};
ghost use Rattle.ew_model.specs.Kept.{AreFresh};
ghost use Rattle.ew_model.specs.Verdicts as model;
ghost use Rattle.replica.specs.Desks.{answer_by, sized, known_at};
ghost use Rattle.waiting_pool.specs.Waiting.{events_of};

use event_graph::Graph;
use ew_model::NoMem;
use ew_model::event::Event;
use ew_model::limits::Limits;
use ew_model::verdict::{Refusal, Verdict};
use waiting_pool::Pool;

/// What is answered to an event.
#[derive(Clone, Copy)]
pub enum Answer {
    /// It is held now.
    Held,
    /// It waits for a parent.
    Waits,
    /// It was there before.
    Repeat,
    Refused(Refusal),
}

/// The answer to an event, whatever its index, and as if any number could wait.
pub fn rule(limits: &Limits, graph: &Graph, pool: &Pool, e: &Event) -> Result<Answer, NoMem>
    requires { AreFresh graph.now (events_of pool.now) }
    ensures { IfOk result (λ a. a ≡ answer_by (model.verdict limits.now false graph.now (events_of pool.now) e.now)) }
{
    let _waiting = pool.len();
    match pool.find(&e.id) {
        Some(waiting) => Ok(rule_by_id(waiting, e)),
        None => rule_by_graph(limits, graph, e),
    }
}

/// Where an event with its id waits.
fn rule_by_id(waiting: &Event, e: &Event) -> Answer
    ensures { result ≡ answer_by (if event_eq e.now waiting.now then model.Ruling.Repeat else model.Ruling.Clash) }
{
    if e.same(waiting) {
        Answer::Repeat
    } else {
        Answer::Refused(Refusal::Clash)
    }
}

/// By the events held, and how many they are.
fn rule_by_graph(limits: &Limits, graph: &Graph, e: &Event) -> Result<Answer, NoMem>
    ensures { IfOk result (λ a. a ≡ sized (nat_le limits.now.events (length graph.now)) (answer_by (model.graph_verdict graph.now e.now))) }
{
    let answer = answer_to(graph.judge(e)?);
    Ok(unless_full(limits, graph.count(), answer))
}

fn answer_to(verdict: Verdict) -> Answer
    ensures { result ≡ answer_by (ruling_of verdict) }
{
    match verdict {
        Verdict::Good => Answer::Held,
        Verdict::Unknown(_) => Answer::Waits,
        Verdict::Repeat => Answer::Repeat,
        Verdict::Clash => Answer::Refused(Refusal::Clash),
        Verdict::SelfParent => Answer::Refused(Refusal::SelfParent),
        Verdict::TooManyParents => Answer::Refused(Refusal::TooManyParents),
        Verdict::ParentsUnsorted => Answer::Refused(Refusal::ParentsUnsorted),
        Verdict::NotReduced => Answer::Refused(Refusal::NotReduced),
        Verdict::Skipped => Answer::Refused(Refusal::Skipped),
        Verdict::OutOfRange { len } => Answer::Refused(Refusal::OutOfRange { len }),
    }
}

/// A good event is refused where no more may be held.
fn unless_full(limits: &Limits, count: u32, answer: Answer) -> Answer
    ensures { result ≡ sized (nat_le limits.now.events count) answer }
{
    match answer {
        Answer::Held if count >= limits.events() => Answer::Refused(Refusal::GraphFull),
        _ => answer,
    }
}

/// A good event is refused where it is the one that is known to be out of range: the one that would come behind so many
/// events. The length of the text at its parents is known too.
pub fn unless_known(out: Option<(u32, u32)>, count: u32, answer: Answer) -> Answer
    ensures { result ≡ known_at out count answer }
{
    match (answer, out) {
        (Answer::Held, Some((position, len))) if count == position => {
            Answer::Refused(Refusal::OutOfRange { len })
        }
        _ => answer,
    }
}
