//! The lines of a blame.

ghost use Rattle.std.specs.Prelude.{◌≡◌, ◌↔◌, ◌==◌, ◌&&◌, not, ◌++◌, IfOk, IsTrue, OnOk};
ghost use Rattle.blame.specs.Letters.{AreShown, AreShownAt};
ghost use Rattle.blame_definitions.specs.Blame.{blame_lines, text_line};
ghost use Rattle.ew_model.specs.Ids.{id_eq};
ghost use Rattle.ew_model.specs.Texts.{text_chars};
ghost use Rattle.history_definitions.specs.Chains.{next_id};

use crate::fitting::shown;
use event_graph::{Graph, Near};
use ew_model::NoMem;
use ew_model::id::Id;
use itoa::Buffer;
use script_reader::print::print_id;
use std::alloc::Global;

/// The lines of the pieces of a history's visible characters, which the events at these positions inserted.
pub fn lines(
    alloc: Global,
    graph: &Graph,
    positions: &[u32],
    chars: &[char],
    columns: u32,
) -> Result<Vec<u8>, NoMem>
    requires positions { AreShownAt graph.now positions.now }
    requires chars { AreShown graph.now chars.now }
    ensures { IfOk result (λ out. out.items ≡ blame_lines columns (text_chars graph.now)) }
{
    let mut out = Vec::new(alloc);
    if positions.is_empty() {
        return Ok(out);
    }
    let mut near = Near::start();
    let mut first = graph.id_near(positions[0], &mut near);
    let mut last = first;
    let mut from = 0;
    for at in 1..positions.len() {
        let id = graph.id_near(positions[at], &mut near);
        if !goes_on(&last, chars[at - 1], &id) {
            push_line(&mut out, &first, &chars[from..at], columns)?;
            first = id;
            from = at;
        }
        last = id;
    }
    push_line(&mut out, &first, &chars[from..], columns)?;
    Ok(out)
}

/// Whether a piece that ends with a character goes on with the character of the next id.
fn goes_on(last: &Id, ch: char, id: &Id) -> bool
    ensures { result ≡ (not (ch == 10) && id_eq id.now (next_id last.now)) }
{
    ch != '\n' && is_next(last, id)
}

/// Whether the second is the next id of the first one's agent.
fn is_next(x: &Id, y: &Id) -> bool
    ensures { IsTrue result ↔ (y.now ≡ next_id x.now) }
{
    x.seq < y.seq && y.seq - x.seq == 1 && y.agent.is(&x.agent)
}

/// Writes a line: an id, how many characters a text has, and as many of them as fit into the columns, escaped.
fn push_line(out: &mut Vec<u8>, id: &Id, text: &[char], columns: u32) -> Result<(), NoMem>
    ensures { OnOk result (out.new.items ≡ out.old.items ++ text_line columns id.now text.now) }
{
    let alloc = *out.allocator();
    let id = print_id(alloc, id)?;
    let shown = shown(alloc, text, columns)?;
    out.extend_from_slice(&id)?;
    out.push(b' ')?;
    out.extend_from_slice(Buffer::new().format(text.len()).as_bytes())?;
    out.push(b' ')?;
    out.extend_from_slice(shown.as_bytes())?;
    out.push(b'\n')?;
    Ok(())
}
