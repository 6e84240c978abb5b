//! Ancestors and touches of a history, each computed from its definition in the most direct way: no call of the program answers
//! these two alone.

ghost use Rattle.std.specs.Prelude.{◌≡◌, ◌<◌, ◌≤◌, ◌+◌, ◌^◌, IfOk, length};
ghost use Rattle.ew_model.specs.Ids.{is_among};
ghost use Rattle.ew_model.specs.Ancestors.{ids_of, ancestors};
ghost use Rattle.ew_model.specs.Touches as model;

use ew_model::NoMem;
use ew_model::event::Event;
use ew_model::id::Id;
use std::alloc::Global;

/// Whether the id is among these.
fn is_among(ids: &[Id], x: &Id) -> bool
    ensures { result ≡ is_among ids.now x.now }
{
    ids.iter().any(|y| x.is(y))
}

/// The ids of the events.
fn ids_of(alloc: Global, events: &[Event]) -> Result<Vec<Id>, NoMem>
    ensures { IfOk result (λ ids. ids.items ≡ ids_of events.now) }
{
    events.iter().map(|e| e.id).collect(alloc)
}

/// The ids of a version: those that are named and held, and all their ancestors, in the order of the history.
pub fn ancestors(alloc: Global, history: &[Event], named: &[Id]) -> Result<Vec<Id>, NoMem>
    ensures { IfOk result (λ ids. ids.items ≡ ancestors history.now named.now) }
{
    let mut wanted = Vec::from_slice(alloc, named)?;
    let mut taken = Vec::new(alloc);
    for i in (0..history.len()).rev() {
        let e = &history[i];
        if is_among(wanted.as_slice(), &e.id) {
            wanted.extend_from_slice(e.parents.as_slice())?;
            taken.push(e.id)?;
        }
    }
    taken.reverse();
    Ok(taken)
}

/// The touches of a walk from a cut on, before which all is prepared: for each event one, and one for each id in which the
/// prepared ids differ from the ancestors of its parents.
pub fn touches(alloc: Global, history: &[Event], cut: usize) -> Result<u64, NoMem>
    requires { length history.now < 2 ^ 32 }
    ensures { IfOk result (λ n. n ≡ model.touches history.now cut) }
{
    let cut = cut.min(history.len());
    let mut prepared = ids_of(alloc, &history[..cut])?;
    let mut touches = 0;
    for i in cut..history.len() {
        let e = &history[i];
        let known = ancestors(alloc, &history[..i], e.parents.as_slice())?;
        touches += 1 + difference(prepared.as_slice(), known.as_slice());
        prepared = ancestors(alloc, &history[..i + 1], &[e.id])?;
    }
    Ok(touches)
}

/// How many ids are in one of two sets alone.
fn difference(xs: &[Id], ys: &[Id]) -> u64
    requires xs { length xs.now < 2 ^ 32 }
    requires ys { length ys.now < 2 ^ 32 }
    ensures value { result ≡ model.difference xs.now ys.now }
    ensures within { result ≤ length xs.now + length ys.now }
{
    number_outside(ys, xs) + number_outside(xs, ys)
}

/// How many of the ids aren't among the others.
fn number_outside(others: &[Id], ids: &[Id]) -> u64
    ensures value { result ≡ model.number_outside others.now ids.now }
    ensures within { result ≤ length ids.now }
{
    ids.iter().filter(|x| !is_among(others, *x)).count() as u64
}
