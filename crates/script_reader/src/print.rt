//! Ids, versions and characters as bytes.

ghost use Rattle.std.specs.Prelude.{◌≡◌, ◌++◌, OnOk, IfOk};
ghost use Rattle.ew_model.specs.Scripts.{escaped_char, id_text, version_text};

use ew_model::NoMem;
use ew_model::id::Id;
use itoa::Buffer;
use std::alloc::Global;

/// The id: its agent's name, a colon, its number.
pub fn print_id(alloc: Global, id: &Id) -> Result<Vec<u8>, NoMem>
    ensures { IfOk result (λ out. out.items ≡ id_text id.now) }
{
    let mut out = Vec::new(alloc);
    push_id(&mut out, id)?;
    Ok(out)
}

/// The ids in their order, with a comma between two; `root` where there is none.
pub fn print_version(alloc: Global, ids: &[Id]) -> Result<Vec<u8>, NoMem>
    ensures { IfOk result (λ out. out.items ≡ version_text ids.now) }
{
    let Some((first, others)) = ids.split_first() else {
        return Vec::from_slice(alloc, b"root");
    };
    let mut out = print_id(alloc, first)?;
    for id in others {
        out.push(b',')?;
        push_id(&mut out, id)?;
    }
    Ok(out)
}

/// The character as it stands in a script: a newline as `\n`, a backslash as `\\`, any other as its UTF-8.
pub fn print_char(alloc: Global, ch: char) -> Result<Vec<u8>, NoMem>
    ensures { IfOk result (λ out. out.items ≡ escaped_char ch) }
{
    match ch {
        '\n' => Vec::from_slice(alloc, b"\\n"),
        '\\' => Vec::from_slice(alloc, b"\\\\"),
        _ => {
            let mut room = [0; 4];
            Vec::from_slice(alloc, ch.encode_utf8(&mut room).as_bytes())
        }
    }
}

fn push_id(out: &mut Vec<u8>, id: &Id) -> Result<(), NoMem>
    ensures { OnOk result (out.new.items ≡ out.old.items ++ id_text id.now) }
{
    out.extend_from_slice(id.agent.as_slice())?;
    out.push(b':')?;
    out.extend_from_slice(Buffer::new().format(id.seq).as_bytes())
}
