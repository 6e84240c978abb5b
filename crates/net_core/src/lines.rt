//! Printed lines.

ghost use Rattle.std.specs.Prelude.{◌≡◌, [], ◌++◌, ◌∷◌, if◌then◌else◌, codes, decimal, encode_utf8_all, vec_capacity, IsOk, List, ℕ, IfOk, OnOk};
ghost use Rattle.ew_model.specs.Scripts.{escaped_text};
ghost use Rattle.net_core.specs.Bytes.{escaped_byte};
ghost use Rattle.peer_definitions.specs.Machine.{caret_line, printed_line};

use ew_model::NoMem;
use ew_model::name::Name;
use itoa::Buffer;
use std::alloc::Global;

/// The most bytes of a line that tells how many events were made: a name, a word, a number, two spaces and a newline.
const MADE_BYTES: usize = 49;

/// Room for a line that tells how many events a peer made.
#[derive(Drop)]
pub struct MadeLine {
    room: Vec<u8>,
    ghost empty: { room.items ≡ [] },
    ghost enough: { vec_capacity room ≡ 49 },
}

impl MadeLine {
    /// No bytes yet.
    pub fn new(alloc: Global) -> Result<MadeLine, NoMem>
        ensures { IfOk result (λ line. line.room.items ≡ []) }
    {
        let room = Vec::with_capacity(alloc, MADE_BYTES)?;
        Ok(MadeLine { room })
    }

    /// The line. It takes no memory.
    pub fn of(self, name: &Name, made: u32) -> Vec<u8>
        ensures { result.items ≡ printed_line (name.now ∷ codes "made" ∷ decimal made ∷ []) }
    {
        let mut out = self.room;
        let _ = push_made(&mut out, name, made);
        out
    }
}

/// Prints how many events were made.
fn push_made(out: &mut Vec<u8>, name: &Name, made: u32) -> Result<(), NoMem>
    requires empty { out.old.items ≡ [] }
    requires room { vec_capacity out.old ≡ 49 }
    ensures ok { IsOk result }
    ensures line { out.new.items ≡ printed_line (name.now ∷ codes "made" ∷ decimal made ∷ []) }
{
    out.extend_from_slice(name.as_slice())?;
    out.extend_from_slice(b" made ")?;
    out.extend_from_slice(Buffer::new().format(made).as_bytes())?;
    out.push(b'\n')?;
    Ok(())
}

/// The line that tells whether all agree.
pub fn agree_line(alloc: Global, agree: bool) -> Result<Vec<u8>, NoMem>
    ensures { IfOk result (λ out. out.items ≡ printed_line (codes "agree" ∷ (if agree then codes "yes" else codes "no") ∷ [])) }
{
    let line: &[u8] = if agree { b"agree yes\n" } else { b"agree no\n" };
    Vec::from_slice(alloc, line)
}

/// The line of a new peer.
pub fn peer_line(alloc: Global, name: &Name) -> Result<Vec<u8>, NoMem>
    ensures { IfOk result (λ out. out.items ≡ printed_line (codes "peer" ∷ name.now ∷ [])) }
{
    let mut out = Vec::from_slice(alloc, b"peer")?;
    push_word(&mut out, name.as_slice())?;
    out.push(b'\n')?;
    Ok(out)
}

/// The line of a peer that was built again.
pub fn restarted_line(alloc: Global, name: &Name) -> Result<Vec<u8>, NoMem>
    ensures { IfOk result (λ out. out.items ≡ printed_line (name.now ∷ codes "restarted" ∷ [])) }
{
    let mut out = Vec::from_slice(alloc, name.as_slice())?;
    push_word(&mut out, b"restarted")?;
    out.push(b'\n')?;
    Ok(out)
}

/// The line that tells an index of a peer's caret.
pub fn caret_line(alloc: Global, name: &Name, at: u32) -> Result<Vec<u8>, NoMem>
    ensures { IfOk result (λ out. out.items ≡ caret_line name.now at) }
{
    let mut out = Vec::from_slice(alloc, name.as_slice())?;
    push_word(&mut out, b"caret")?;
    push_number(&mut out, at)?;
    out.push(b'\n')?;
    Ok(out)
}

/// The line of a peer's text, which is given in UTF-8.
pub fn shown_line(alloc: Global, name: &Name, text: &[u8]) -> Result<Vec<u8>, NoMem>
    ensures { IfOk result (λ out. (chars : List ℕ) → text.now ≡ encode_utf8_all chars → out.items ≡ printed_line (name.now ∷ escaped_text chars ∷ [])) }
{
    let mut out = Vec::from_slice(alloc, name.as_slice())?;
    out.push(b' ')?;
    push_escaped(&mut out, text)?;
    out.push(b'\n')?;
    Ok(out)
}

/// The line of a new packet, behind other lines.
pub fn push_packet_line(
    out: &mut Vec<u8>,
    number: u32,
    sender: &Name,
    receiver: &Name,
) -> Result<(), NoMem>
    ensures { OnOk result (out.new.items ≡ out.old.items ++ printed_line (codes "packet" ∷ decimal number ∷ sender.now ∷ receiver.now ∷ [])) }
{
    out.extend_from_slice(b"packet")?;
    push_number(out, number)?;
    push_word(out, sender.as_slice())?;
    push_word(out, receiver.as_slice())?;
    out.push(b'\n')?;
    Ok(())
}

/// Prints one more word, with a space in front.
pub fn push_word(out: &mut Vec<u8>, word: &[u8]) -> Result<(), NoMem>
    ensures { OnOk result (out.new.items ≡ out.old.items ++ 32 ∷ word.now) }
{
    out.push(b' ')?;
    out.extend_from_slice(word)
}

/// Prints one more number, with a space in front.
pub fn push_number(out: &mut Vec<u8>, number: u32) -> Result<(), NoMem>
    ensures { OnOk result (out.new.items ≡ out.old.items ++ 32 ∷ decimal number) }
{
    push_word(out, Buffer::new().format(number).as_bytes())
}

/// Prints one more word and a number, with a space in front of each.
pub fn push_count(out: &mut Vec<u8>, word: &[u8], number: u32) -> Result<(), NoMem>
    ensures { OnOk result (out.new.items ≡ out.old.items ++ 32 ∷ (word.now ++ 32 ∷ decimal number)) }
{
    push_word(out, word)?;
    push_number(out, number)
}

/// Prints text in UTF-8, in which a newline and a backslash are escaped.
fn push_escaped(out: &mut Vec<u8>, text: &[u8]) -> Result<(), NoMem>
    ensures { OnOk result ((chars : List ℕ) → text.now ≡ encode_utf8_all chars → out.new.items ≡ out.old.items ++ escaped_text chars) }
{
    for byte in text {
        push_byte(out, *byte)?;
    }
    Ok(())
}

/// Prints one byte of text in UTF-8. A newline and a backslash are escaped.
fn push_byte(out: &mut Vec<u8>, byte: u8) -> Result<(), NoMem>
    ensures { OnOk result (out.new.items ≡ out.old.items ++ escaped_byte byte) }
{
    match byte {
        b'\n' => out.extend_from_slice(b"\\n"),
        b'\\' => out.extend_from_slice(b"\\\\"),
        other => {
            out.push(other)?;
            Ok(())
        }
    }
}
