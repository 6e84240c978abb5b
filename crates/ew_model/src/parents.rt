//! The parents of an event.

ghost use Rattle.std.specs.Prelude.{◌≡◌, [], ◌∷◌, ◌++◌, OnOk, OnErr, IfOk, IsOkAnd, IsTrue, ◌↔◌};

use crate::NoMem;
use crate::id::Id;
use std::alloc::Global;
use std::marker::Model;

/// A list of ids. Contracts see the list.
#[derive(Drop)]
pub struct Parents {
    ids: Vec<Id>,
}

impl Model for Parents {
    ghost use Rattle.std.specs.Prelude.{List};
    ghost use Rattle.ew_model.specs.declared.id.Id.{Id};

    ghost Value = { List Id };

    ghost view = { λ p. p.ids.items };
}

impl Parents {
    /// No parents. It takes no memory, and never fails.
    pub fn new(alloc: Global) -> Result<Parents, NoMem>
        ensures { IsOkAnd result (λ p. p ≡ []) }
    {
        Ok(Parents {
            ids: Vec::new(alloc),
        })
    }

    /// The ids of a vector, in its order. It takes no memory.
    pub fn from_vec(ids: Vec<Id>) -> Parents
        ensures { result ≡ ids.items }
    {
        Parents { ids }
    }

    /// The ids as a vector. It takes no memory.
    pub fn into_vec(self) -> Vec<Id>
        ensures { result.items ≡ self }
    {
        self.ids
    }

    /// Puts one more id behind the others.
    pub fn push(&mut self, id: Id) -> Result<(), NoMem>
        ensures ok { OnOk result (self.new ≡ self.old ++ id ∷ []) }
        ensures err { OnErr result (self.new ≡ self.old) }
    {
        self.ids.push(id)?;
        Ok(())
    }

    /// The ids, in order.
    pub fn as_slice(&self) -> &[Id]
        ensures { result.now ≡ self.now }
    {
        self.ids.as_slice()
    }

    /// Whether the two hold the same ids in the same order.
    pub fn same(&self, other: &Parents) -> bool
        ensures { IsTrue result ↔ (self.now ≡ other.now) }
    {
        same_ids(self.ids.as_slice(), other.ids.as_slice())
    }

    /// A second list of the same ids.
    pub fn copy(&self) -> Result<Parents, NoMem>
        ensures { IfOk result (λ p. p ≡ self.now) }
    {
        let ids = Vec::from_slice(*self.ids.allocator(), self.ids.as_slice())?;
        Ok(Parents { ids })
    }
}

fn same_ids(a: &[Id], b: &[Id]) -> bool
    ensures { IsTrue result ↔ (a.now ≡ b.now) }
{
    if a.len() != b.len() {
        return false;
    }
    for (i, x) in a.iter().enumerate() {
        if !x.is(&b[i]) {
            return false;
        }
    }
    true
}
