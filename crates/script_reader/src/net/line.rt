//! A line of a net script.

ghost use Rattle.std.specs.Prelude.{◌≢◌, ℕ, ◌++◌, ◌∷◌, List, codes, IfOk};
ghost use Rattle.peer_definitions.specs.NetScripts.{IsStepReading};
ghost use Rattle.script_reader.specs.Verbs.{verb_word};
ghost use Rattle.script_reader.specs.declared.net.verb.Verb as declared;

use crate::net::parts::{
    read_name, read_name_and_number, read_names, read_names_and_numbers, read_numbers,
};
use crate::net::verb::{Verb, strip_verb};
use crate::words::{read_number, read_text, split_once};
use ew_model::NoMem;
use peer_definitions::net_step::NetStep;
use std::alloc::Global;

/// The step that the line means, if it means one.
pub(crate) fn read_step(alloc: Global, line: &[u8]) -> Result<Option<NetStep>, NoMem>
    ensures { IfOk result (IsStepReading line.now) }
{
    match strip_verb(line) {
        Some((verb, words)) => read_words(alloc, verb, words),
        None => Ok(read_alone(line)),
    }
}

/// The step of a line with one word.
fn read_alone(line: &[u8]) -> Option<NetStep>
    requires { (verb : declared.Verb) (words : List ℕ) → line.now ≢ verb_word verb ++ 32 ∷ words }
    ensures { IsStepReading line.now result }
{
    if line == b"agree".as_slice() {
        Some(NetStep::Agree)
    } else {
        None
    }
}

/// The step of a line with more words than one.
fn read_words(alloc: Global, verb: Verb, words: &[u8]) -> Result<Option<NetStep>, NoMem>
    ensures { IfOk result (IsStepReading (verb_word verb ++ 32 ∷ words.now)) }
{
    Ok(match verb {
        Verb::Ins => read_insertion(alloc, words)?,
        Verb::Del => read_deletion(words),
        Verb::Send => read_sending(words),
        Verb::Undo => read_undo(words),
        Verb::Caret => read_caret(words),
        Verb::Where => read_where(words),
        Verb::Mark => read_mark(words),
        Verb::Push => read_push(words),
        Verb::Ask => read_question(words),
        Verb::Deliver => read_delivery(words),
        Verb::Peer => read_peer(words),
        Verb::Restart => read_restart(words),
        Verb::Show => read_show(words),
    })
}

/// Name, index and text of an insertion.
fn read_insertion(alloc: Global, words: &[u8]) -> Result<Option<NetStep>, NoMem>
    ensures { IfOk result (IsStepReading (codes "ins " ++ words.now)) }
{
    let Some((word, behind)) = split_once(words, b' ') else {
        return Ok(None);
    };
    let Some(who) = read_name(word) else {
        return Ok(None);
    };
    let Some((number, escaped)) = split_once(behind, b' ') else {
        return Ok(None);
    };
    let Some(at) = read_number(number) else {
        return Ok(None);
    };
    let Some(text) = read_text(alloc, escaped)? else {
        return Ok(None);
    };
    Ok(Some(NetStep::Ins { who, at, text }))
}

/// Name, index and number of a deletion.
fn read_deletion(words: &[u8]) -> Option<NetStep>
    ensures { IsStepReading (codes "del " ++ words.now) result }
{
    let (word, numbers) = split_once(words, b' ')?;
    let who = read_name(word)?;
    let (at, n) = read_numbers(numbers)?;
    Some(NetStep::Del { who, at, n })
}

/// Name and label of a mark.
fn read_mark(words: &[u8]) -> Option<NetStep>
    ensures { IsStepReading (codes "mark " ++ words.now) result }
{
    let (who, label) = read_names(words)?;
    Some(NetStep::Mark { who, label })
}

/// Names and numbers of an undo.
fn read_undo(words: &[u8]) -> Option<NetStep>
    ensures { IsStepReading (codes "undo " ++ words.now) result }
{
    let (who, whose, first, count) = read_names_and_numbers(words)?;
    Some(NetStep::Undo {
        who,
        whose,
        first,
        count,
    })
}

/// Name and index of a caret.
fn read_caret(words: &[u8]) -> Option<NetStep>
    ensures { IsStepReading (codes "caret " ++ words.now) result }
{
    let (who, at) = read_name_and_number(words)?;
    Some(NetStep::Caret { who, at })
}

/// The name of a peer whose caret is asked for.
fn read_where(words: &[u8]) -> Option<NetStep>
    ensures { IsStepReading (codes "where " ++ words.now) result }
{
    let name = read_name(words)?;
    Some(NetStep::Where(name))
}

/// Names of a packet with all of the events.
fn read_push(words: &[u8]) -> Option<NetStep>
    ensures { IsStepReading (codes "push " ++ words.now) result }
{
    let (from, to) = read_names(words)?;
    Some(NetStep::Push { from, to })
}

/// Names of a packet with a question.
fn read_question(words: &[u8]) -> Option<NetStep>
    ensures { IsStepReading (codes "ask " ++ words.now) result }
{
    let (from, to) = read_names(words)?;
    Some(NetStep::Ask { from, to })
}

/// Names and numbers of a packet with some of the events.
fn read_sending(words: &[u8]) -> Option<NetStep>
    ensures { IsStepReading (codes "send " ++ words.now) result }
{
    let (from, to, skip, count) = read_names_and_numbers(words)?;
    Some(NetStep::Send {
        from,
        to,
        skip,
        count,
    })
}

/// The number of a packet that is delivered.
fn read_delivery(words: &[u8]) -> Option<NetStep>
    ensures { IsStepReading (codes "deliver " ++ words.now) result }
{
    let packet = read_number(words)?;
    Some(NetStep::Deliver(packet))
}

/// The name of a new peer.
fn read_peer(words: &[u8]) -> Option<NetStep>
    ensures { IsStepReading (codes "peer " ++ words.now) result }
{
    let name = read_name(words)?;
    Some(NetStep::Peer(name))
}

/// The name of a peer that is built again.
fn read_restart(words: &[u8]) -> Option<NetStep>
    ensures { IsStepReading (codes "restart " ++ words.now) result }
{
    let name = read_name(words)?;
    Some(NetStep::Restart(name))
}

/// The name of a peer whose text is asked for.
fn read_show(words: &[u8]) -> Option<NetStep>
    ensures { IsStepReading (codes "show " ++ words.now) result }
{
    let name = read_name(words)?;
    Some(NetStep::Show(name))
}
