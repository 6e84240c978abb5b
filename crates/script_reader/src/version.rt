//! Versions.

ghost use Rattle.std.specs.Prelude.{◌≡◌, ◌≢◌, ◌∷◌, ◌++◌, [], List, IfOk, IfSome, IfNone, IsOkUnless, OnOk};
ghost use Rattle.ew_model.specs.declared.id.Id.{Id};
ghost use Rattle.ew_model.specs.Scripts.{id_text};
ghost use Rattle.ew_model.specs.Sound.{IsSoundId};
ghost use Rattle.history_definitions.specs.Versions.{IsVersion};
ghost use Rattle.script_reader.specs.IdLists.{AreIds};

use crate::words::{read_number, split_once};
use ew_model::NoMem;
use ew_model::id::Id;
use ew_model::name::Name;
use std::alloc::{AllocFailed, Global};
use thiserror::Error;

/// Why bytes give no version.
#[derive(Clone, Copy, Debug, PartialEq, Eq, Error)]
pub enum VersionTextFault {
    /// They are neither `root` nor ids with a comma between two.
    #[error("unreadable")]
    Unreadable,
    #[error("out of memory")]
    OutOfMemory,
}

impl From<NoMem> for VersionTextFault {
    ghost use Rattle.script_reader.specs.declared.version.VersionTextFault.TheVariants.{OutOfMemory};

    ghost from_gives = { λ _ fault. fault ≡ OutOfMemory };

    fn from(_: NoMem) -> VersionTextFault {
        VersionTextFault::OutOfMemory
    }
}

impl<T: Drop> From<AllocFailed<T>> for VersionTextFault {
    ghost use Rattle.script_reader.specs.declared.version.VersionTextFault.TheVariants.{OutOfMemory};

    ghost from_gives = { λ _ fault. fault ≡ OutOfMemory };

    fn from(_: AllocFailed<T>) -> VersionTextFault {
        VersionTextFault::OutOfMemory
    }
}

/// The ids of a version, in the order written; none for `root`.
pub fn read_version(alloc: Global, b: &[u8]) -> Result<Vec<Id>, VersionTextFault>
    // What is read is what the bytes mean, and bytes that are a version are read, unless memory runs out.
    ensures version { IfOk result (λ ids. IsVersion b.now ids.items) }
    ensures read { (ids : List Id) → IsVersion b.now ids → IsOkUnless result VersionTextFault.OutOfMemory }
{
    if b == b"root".as_slice() {
        return Ok(Vec::new(alloc));
    }
    read_ids(alloc, b)
}

/// One id or more, with a comma between two.
fn read_ids(alloc: Global, b: &[u8]) -> Result<Vec<Id>, VersionTextFault>
    ensures ids { IfOk result (λ ids. AreIds b.now ids.items) }
    ensures read { (ids : List Id) → AreIds b.now ids → IsOkUnless result VersionTextFault.OutOfMemory }
{
    let mut ids = Vec::new(alloc);
    let mut rest = b;
    while let Some((word, behind)) = split_once(rest, b',') {
        push_id(&mut ids, word)?;
        rest = behind;
    }
    push_id(&mut ids, rest)?;
    Ok(ids)
}

/// Puts the id that the word spells behind the others.
fn push_id(ids: &mut Vec<Id>, word: &[u8]) -> Result<(), VersionTextFault>
    ensures id { OnOk result ((x : Id) × IsSoundId x × (id_text x ≡ word.now) × (ids.new.items ≡ ids.old.items ++ x ∷ [])) }
    ensures unreadable { result ≡ Err VersionTextFault.Unreadable → (x : Id) → IsSoundId x → id_text x ≢ word.now }
{
    let id = read_id(word).ok_or(VersionTextFault::Unreadable)?;
    ids.push(id)?;
    Ok(())
}

/// The id that the word spells: a name, a colon, a number. It takes no memory.
pub fn read_id(word: &[u8]) -> Option<Id>
    ensures id { IfSome result (λ x. IsSoundId x × (id_text x ≡ word.now)) }
    ensures none { IfNone result ((x : Id) → IsSoundId x → id_text x ≢ word.now) }
{
    let (agent, number) = split_once(word, b':')?;
    Some(Id {
        agent: Name::read(agent).ok()?,
        seq: read_number(number)?,
    })
}
