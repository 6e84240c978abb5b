//! Edit scripts.

ghost use Rattle.std.specs.Prelude.{◌≡◌, ℕ, ◌<◌, ◌^◌, ◌∷◌, List, length, IfOk, IsErr, IsOkUnless, OnOk};
ghost use Rattle.ew_model.specs.Edits as model;
ghost use Rattle.ew_model.specs.Scripts.{IsFirstBadLine, IsReadable, IsScript, MeansEdit, Numbered, lines_of};
ghost use Rattle.script_reader.specs.Meaning.{AddsLine, numbered_edits};

use crate::edit::Edit;
use crate::line::read_line;
use crate::words::split_once;
use ew_model::NoMem;
use std::alloc::{AllocFailed, Global};
use thiserror::Error;

/// Why bytes give no script.
#[derive(Clone, Copy, Debug, PartialEq, Eq, Error)]
pub enum ScriptFault {
    /// The number of the first line that is neither empty nor means an edit. Lines count from 1.
    #[error("line {0} is unreadable")]
    BadLine(u32),
    #[error("out of memory")]
    OutOfMemory,
}

impl From<NoMem> for ScriptFault {
    ghost use Rattle.script_reader.specs.declared.script.ScriptFault.TheVariants.{OutOfMemory};

    ghost from_gives = { λ _ fault. fault ≡ OutOfMemory };

    fn from(_: NoMem) -> ScriptFault {
        ScriptFault::OutOfMemory
    }
}

impl<T: Drop> From<AllocFailed<T>> for ScriptFault {
    ghost use Rattle.script_reader.specs.declared.script.ScriptFault.TheVariants.{OutOfMemory};

    ghost from_gives = { λ _ fault. fault ≡ OutOfMemory };

    fn from(_: AllocFailed<T>) -> ScriptFault {
        ScriptFault::OutOfMemory
    }
}

/// The edits of a script, each with the number of its line.
pub fn read_script(alloc: Global, b: &[u8]) -> Result<Vec<(u32, Edit)>, ScriptFault>
    requires { length b.now < 2 ^ 32 }

    // What is read is what the bytes mean, and bytes that are a script are read, unless memory runs out.
    ensures script { IfOk result (λ edits. IsScript b.now (numbered_edits edits.items)) }
    ensures read { (edits : List (Numbered model.Edit)) → IsScript b.now edits → IsOkUnless result ScriptFault.OutOfMemory }

    // The line that is told is the first bad one, and bytes with a bad line are refused.
    ensures bad_line { (k : ℕ) → result ≡ Err (ScriptFault.BadLine k) → IsFirstBadLine b.now k }
    ensures refused { (k : ℕ) → IsFirstBadLine b.now k → IsErr result }
{
    let mut edits = Vec::new(alloc);
    let mut rest = b;
    let mut number = 0;
    while !rest.is_empty() {
        let (line, behind) = split_line(rest);
        number += 1;
        push_line(alloc, number, line, &mut edits)?;
        rest = behind;
    }
    Ok(edits)
}

/// The first line, and what stands behind its newline.
pub fn split_line(bytes: &[u8]) -> (&[u8], &[u8])
    requires { 0 < length bytes.now }
    ensures lines { lines_of bytes.now ≡ result.0.now ∷ lines_of result.1.now }
    ensures less { length result.1.now < length bytes.now }
{
    split_once(bytes, b'\n').unwrap_or((bytes, &[]))
}

/// Puts what the line means behind the other edits.
fn push_line(
    alloc: Global,
    number: u32,
    line: &[u8],
    edits: &mut Vec<(u32, Edit)>,
) -> Result<(), ScriptFault>
    ensures line { OnOk result (AddsLine number line.now edits.old.items edits.new.items) }
    ensures bad_line { (k : ℕ) → result ≡ Err (ScriptFault.BadLine k) → (k ≡ number) × ¬ IsReadable MeansEdit line.now }
{
    if line.is_empty() {
        return Ok(());
    }
    let edit = read_line(alloc, line)?.ok_or(ScriptFault::BadLine(number))?;
    edits.push((number, edit))?;
    Ok(())
}
