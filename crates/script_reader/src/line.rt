//! A line of an edit script.

ghost use Rattle.std.specs.Prelude.{◌++◌, codes, IfOk};
ghost use Rattle.script_reader.specs.Meaning.{IsReading};

use crate::edit::Edit;
use crate::words::{read_number, read_text, split_once};
use ew_model::NoMem;
use ew_model::name::Name;
use std::alloc::Global;

/// The edit that the line means, if it means one.
pub(crate) fn read_line(alloc: Global, line: &[u8]) -> Result<Option<Edit>, NoMem>
    ensures { IfOk result (IsReading line.now) }
{
    if let Some(words) = line.strip_prefix(b"ins ") {
        read_insertion(alloc, words)
    } else if let Some(words) = line.strip_prefix(b"del ") {
        Ok(read_deletion(words))
    } else if let Some(words) = line.strip_prefix(b"mark ") {
        Ok(read_mark(words))
    } else {
        Ok(None)
    }
}

fn read_insertion(alloc: Global, words: &[u8]) -> Result<Option<Edit>, NoMem>
    ensures { IfOk result (IsReading (codes "ins " ++ words.now)) }
{
    let Some((number, escaped)) = split_once(words, b' ') else {
        return Ok(None);
    };
    let Some(at) = read_number(number) else {
        return Ok(None);
    };
    let Some(text) = read_text(alloc, escaped)? else {
        return Ok(None);
    };
    Ok(Some(Edit::Ins { at, text }))
}

fn read_deletion(words: &[u8]) -> Option<Edit>
    ensures { IsReading (codes "del " ++ words.now) result }
{
    let (at, n) = split_once(words, b' ')?;
    Some(Edit::Del {
        at: read_number(at)?,
        n: read_number(n)?,
    })
}

fn read_mark(word: &[u8]) -> Option<Edit>
    ensures { IsReading (codes "mark " ++ word.now) result }
{
    let label = Name::read(word).ok()?;
    Some(Edit::Mark { label })
}
