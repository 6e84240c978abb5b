//! The lines of the listings.

ghost use Rattle.std.specs.Prelude.{◌≡◌, [], ◌++◌, ◌∷◌, OnOk, OnErr, codes, decimal};
ghost use Rattle.ew_model.specs.Scripts.{escaped_char, id_text, spaced, version_text};
ghost use Rattle.history_definitions.specs.Listings.{event_line, id_line, number_line, op_words};
ghost use Rattle.history_definitions.specs.Replays.{change_line, change_words};

use ew_model::NoMem;
use ew_model::event::{Event, Op};
use ew_model::id::Id;
use ew_model::name::Name;
use ew_model::text_op::TextOp;
use itoa::Buffer;
use script_reader::print::{print_char, print_id, print_version};

/// Writes the line of an event: its id, its parents, its operation.
pub fn push_event(out: &mut Vec<u8>, event: &Event) -> Result<(), NoMem>
    ensures { OnOk result (out.new.items ≡ out.old.items ++ event_line event.now) }
{
    push_names(out, event)?;
    out.push(b' ')?;
    push_op(out, &event.op)?;
    out.push(b'\n')?;
    Ok(())
}

/// Writes an event's id and its parents.
fn push_names(out: &mut Vec<u8>, event: &Event) -> Result<(), NoMem>
    ensures { OnOk result (out.new.items ≡ out.old.items ++ (id_text event.now.id ++ codes " " ++ version_text event.now.parents)) }
{
    let id = print_id(*out.allocator(), &event.id)?;
    let parents = print_version(*out.allocator(), event.parents.as_slice())?;
    out.extend_from_slice(&id)?;
    out.push(b' ')?;
    out.extend_from_slice(&parents)?;
    Ok(())
}

/// Writes an operation: what it does, at which index, and the character of an insertion; or a mark's label.
fn push_op(out: &mut Vec<u8>, op: &Op) -> Result<(), NoMem>
    ensures { OnOk result (out.new.items ≡ out.old.items ++ spaced (op_words op.now)) }
{
    match op {
        Op::Ins { at, ch } => push_insertion(out, *at, *ch),
        Op::Del { at } => push_word_and_number(out, b"del", *at),
        Op::Mark { label } => push_mark(out, label),
    }
}

fn push_mark(out: &mut Vec<u8>, label: &Name) -> Result<(), NoMem>
    ensures { OnOk result (out.new.items ≡ out.old.items ++ spaced (codes "mark" ∷ label.now ∷ [])) }
{
    out.extend_from_slice(b"mark ")?;
    out.extend_from_slice(label.as_slice())
}

fn push_insertion(out: &mut Vec<u8>, at: u32, ch: char) -> Result<(), NoMem>
    ensures { OnOk result (out.new.items ≡ out.old.items ++ spaced (codes "ins" ∷ decimal at ∷ escaped_char ch ∷ [])) }
{
    let alloc = *out.allocator();
    push_word_and_number(out, b"ins", at)?;
    out.push(b' ')?;
    out.extend_from_slice(&print_char(alloc, ch)?)
}

fn push_word_and_number(out: &mut Vec<u8>, word: &[u8], n: u32) -> Result<(), NoMem>
    ensures { OnOk result (out.new.items ≡ out.old.items ++ (word.now ++ codes " " ++ decimal n)) }
{
    out.extend_from_slice(word)?;
    out.push(b' ')?;
    out.extend_from_slice(Buffer::new().format(n).as_bytes())
}

/// Writes what an event does to the text, and a newline.
pub fn push_change(out: &mut Vec<u8>, op: &TextOp) -> Result<(), NoMem>
    ensures { OnOk result (out.new.items ≡ out.old.items ++ change_line op.now) }
{
    push_change_words(out, op)?;
    out.push(b'\n')?;
    Ok(())
}

fn push_change_words(out: &mut Vec<u8>, op: &TextOp) -> Result<(), NoMem>
    ensures { OnOk result (out.new.items ≡ out.old.items ++ spaced (change_words op.now)) }
{
    match *op {
        TextOp::Ins { at, ch } => push_insertion(out, at, ch),
        TextOp::Del { at } => push_word_and_number(out, b"del", at),
        TextOp::Nothing => out.extend_from_slice(b"nothing"),
    }
}

/// Writes an id and a newline.
pub fn push_id(out: &mut Vec<u8>, id: &Id) -> Result<(), NoMem>
    ensures { OnOk result (out.new.items ≡ out.old.items ++ id_line id.now) }
{
    let text = print_id(*out.allocator(), id)?;
    out.extend_from_slice(&text)?;
    out.push(b'\n')?;
    Ok(())
}

/// Writes a word, a space, a number and a newline. Where memory is wanting nothing is written.
pub fn push_number(out: &mut Vec<u8>, word: &[u8], n: u32) -> Result<(), NoMem>
    ensures ok { OnOk result (out.new.items ≡ out.old.items ++ number_line word.now n) }
    ensures err { OnErr result (out.new.items ≡ out.old.items) }
{
    let mut line = Vec::new(*out.allocator());
    push_word_and_number(&mut line, word, n)?;
    line.push(b'\n')?;
    out.extend_from_slice(&line)
}
