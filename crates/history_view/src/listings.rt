//! The listings of a replica.

ghost use Rattle.std.specs.Prelude.{◌≡◌, ◌≤◌, ◌++◌, IfOk, OnOk, length};
ghost use Rattle.ew_model.specs.Ancestors.{heads};
ghost use Rattle.ew_model.specs.Cuts.{cuts_of};
ghost use Rattle.ew_model.specs.Writable.{agents_of};
ghost use Rattle.history_definitions.specs.Listings as model;

use crate::lines::{push_event, push_id, push_number};
use event_graph::{Graph, Near};
use ew_model::NoMem;
use ew_model::event::Op;
use ew_model::id::Id;
use replica::Replica;
use script_reader::print::print_id;
use std::alloc::Global;

/// The log: each event in the history's order on a line, as `ID PARENTS ins AT CH`, `ID PARENTS del AT` or
/// `ID PARENTS mark LABEL`.
pub fn log_text(alloc: Global, replica: &Replica) -> Result<Vec<u8>, NoMem>
    ensures { IfOk result (λ text. text.items ≡ model.log_text replica.now.held) }
{
    log_of(alloc, replica.graph())
}

fn log_of(alloc: Global, graph: &Graph) -> Result<Vec<u8>, NoMem>
    ensures { IfOk result (λ text. text.items ≡ model.log_text graph.now) }
{
    let mut text = Vec::new(alloc);
    let mut near = Near::start();
    for position in 0..graph.count() {
        push_event(&mut text, &graph.event_near(position, &mut near)?)?;
    }
    Ok(text)
}

/// The marks, in the history's order: of each a line `ID LABEL`.
pub fn marks_text(alloc: Global, replica: &Replica) -> Result<Vec<u8>, NoMem>
    ensures { IfOk result (λ text. text.items ≡ model.marks_text replica.now.held) }
{
    marks_of(alloc, replica.graph())
}

fn marks_of(alloc: Global, graph: &Graph) -> Result<Vec<u8>, NoMem>
    ensures { IfOk result (λ text. text.items ≡ model.marks_text graph.now) }
{
    let mut text = Vec::new(alloc);
    let mut near = Near::start();
    for position in 0..graph.count() {
        let op = graph.op_near(position, &mut near);
        let id = graph.id_near(position, &mut near);
        push_mark_line(&mut text, &id, &op)?;
    }
    Ok(text)
}

/// Writes the id and the label of a mark, and a newline; of another event nothing.
fn push_mark_line(out: &mut Vec<u8>, id: &Id, op: &Op) -> Result<(), NoMem>
    ensures { OnOk result (out.new.items ≡ out.old.items ++ model.mark_line id.now op.now) }
{
    let Op::Mark { label } = op else {
        return Ok(());
    };
    let text = print_id(*out.allocator(), id)?;
    out.extend_from_slice(&text)?;
    out.push(b' ')?;
    out.extend_from_slice(label.as_slice())?;
    out.push(b'\n')?;
    Ok(())
}

/// The heads' ids, ascending, each on a line.
pub fn heads_text(alloc: Global, replica: &Replica) -> Result<Vec<u8>, NoMem>
    ensures { IfOk result (λ text. text.items ≡ model.heads_text replica.now.held) }
{
    let ids = replica.head_ids()?;
    ids_text(alloc, &ids)
}

/// Ids, each on a line.
fn ids_text(alloc: Global, ids: &[Id]) -> Result<Vec<u8>, NoMem>
    ensures { IfOk result (λ text. text.items ≡ model.id_lines ids.now) }
{
    let mut text = Vec::new(alloc);
    for id in ids {
        push_id(&mut text, id)?;
    }
    Ok(text)
}

/// How many events, agents, heads and critical cuts there are, and how many characters the text has, each on a line.
pub fn check_text(alloc: Global, replica: &Replica) -> Result<Vec<u8>, NoMem>
    ensures { IfOk result (λ text. text.items ≡ model.check_text replica.now.held) }
{
    let _limits = replica.limits();
    let graph = replica.graph();
    let mut text = Vec::new(alloc);
    push_number(&mut text, b"events", graph.count())?;
    push_number(&mut text, b"agents", count_agents(graph)?)?;
    push_number(&mut text, b"heads", count_heads(replica)?)?;
    push_number(&mut text, b"cuts", count_cuts(graph))?;
    push_number(&mut text, b"length", replica.len())?;
    Ok(text)
}

/// How many heads there are.
#[tactic(auto, using(crate::proofs::Counts::heads_few, crate::proofs::Counts::heads_sorted))]
pub fn count_heads(replica: &Replica) -> Result<u32, NoMem>
    requires { length replica.now.held ≤ 16777216 }
    ensures { IfOk result (λ n. n ≡ length (heads replica.now.held)) }
{
    let ids = replica.head_ids()?;
    Ok(ids.len() as u32)
}

/// How many agents have events.
#[tactic(auto, using(crate::proofs::Counts::agents_counted, crate::proofs::Counts::agents_few))]
fn count_agents(graph: &Graph) -> Result<u32, NoMem>
    requires { length graph.now ≤ 16777216 }
    ensures { IfOk result (λ n. n ≡ length (agents_of graph.now)) }
{
    let agents = graph.summary()?;
    Ok(agents.len() as u32)
}

/// How many cuts are critical. The cut at 0 always is.
#[tactic(auto, using(crate::proofs::Counts::cut_more, crate::proofs::Counts::no_cut_more))]
pub fn count_cuts(graph: &Graph) -> u32
    requires { length graph.now ≤ 16777216 }
    ensures { result ≡ length (cuts_of graph.now) }
{
    let mut cuts = 1;
    for k in 0..graph.count() {
        if graph.is_cut(k + 1) {
            cuts += 1;
        }
    }
    cuts
}
