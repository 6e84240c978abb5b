//! Names, numbers and characters are in their ranges, as their types tell: so it is known how long a batch is.

ghost use Rattle.std.specs.Prelude.{◌≡◌, ◌<◌, ◌^◌, true};
ghost use Rattle.std.specs.Char.{IsScalar};
ghost use Rattle.std.specs.List.{AllByRecursion};
ghost use Rattle.ew_model.specs.Names.{is_name};
ghost use Rattle.ew_model.specs.Sound.{AreSound, IsSound, IsSoundId, IsSoundOp};

use ew_model::event::{Event, Op};
use ew_model::id::Id;
use ew_model::name::Name;

/// The events are sound.
pub fn note_events(events: &[Event])
    ensures { AreSound events.now }
{
    for event in events {
        note_event(event);
    }
}

fn note_event(event: &Event)
    ensures { IsSound event.now }
{
    note_id(&event.id);
    note_ids(event.parents.as_slice());
    note_op(&event.op);
}

fn note_ids(ids: &[Id])
    ensures { AllByRecursion IsSoundId ids.now }
{
    for id in ids {
        note_id(id);
    }
}

fn note_id(id: &Id)
    ensures { IsSoundId id.now }
{
    note_name(&id.agent);
    note_number(id.seq);
}

fn note_op(op: &Op)
    ensures { IsSoundOp op.now }
{
    match op {
        Op::Ins { at, ch } => {
            note_number(*at);
            note_char(*ch);
        }
        Op::Del { at } => note_number(*at),
        Op::Mark { label } => note_name(label),
    }
}

fn note_name(name: &Name)
    ensures { is_name name.now ≡ true }
{
    let _bytes = name.as_slice();
}

fn note_number(number: u32)
    ensures { number < 2 ^ 32 }
{
    let _ = number;
}

fn note_char(ch: char)
    ensures { IsScalar ch }
{
    let _ = ch;
}
