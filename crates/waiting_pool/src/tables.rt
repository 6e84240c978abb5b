//! The tables of a pool: its events by number of arrival, the number of each id, and the queue.

ghost use Rattle.std.specs.Prelude.{◌≡◌, ◌<◌, ℕ, true, false, List, [], ◌∷◌, ◌++◌, map, find, Some, None, if◌then◌else◌, IfSome, IfNone, IfErr, OnOk, OnErr, IsSome};
ghost use Rattle.std.specs.BTreeMap.{get, is_at};
ghost use Rattle.std.specs.BTreeMap.Range.{IsLeBy};
ghost use Rattle.std.specs.BTreeSet.{contains};
ghost use Rattle.std.specs.List.Sorted.{IsStrictlySortedBy};
ghost use Rattle.std.specs.Map.{keys_of, values_of, set_value};
ghost use Rattle.std.specs.Ordering.{nat_cmp};
ghost use Rattle.ew_model.specs.Ids.{id_cmp, id_eq};
ghost use Rattle.waiting_pool.specs.declared.waiter.Place.{Place};
ghost use Rattle.waiting_pool.specs.declared.waiter.Waiter.{Waiter};
ghost use Rattle.waiting_pool.specs.Keeping.{AreIndexed, AreListed, number_of};
ghost use Rattle.waiting_pool.specs.Places.{place_cmp, same_missing, IsFirstNumber, IsLeastFrom};
ghost use Rattle.waiting_pool.specs.Waiting.{has_id, has_missing, without_first};

use crate::waiter::{Place, Waiter};
use ew_model::NoMem;
use ew_model::id::Id;
use std::collections::{BTreeMap, BTreeSet};

/// The lowest number queued under this missing parent.
pub fn first_number(queue: &BTreeSet<Place>, missing: &Option<Id>) -> Option<u64>
    ensures first { IfSome result (λ n. IsFirstNumber (contains place_cmp queue.now) missing.now n) }
    ensures none { IfNone result ((k : ℕ) → contains place_cmp queue.now (record { missing = missing.now; number = k }) ≡ false) }
{
    match least_from(queue, Place::new(missing, 0)) {
        Some(place) => number_under(&place, missing),
        None => None,
    }
}

/// The number of a place under this missing parent.
fn number_under(place: &Place, missing: &Option<Id>) -> Option<u64>
    ensures { result ≡ (if same_missing place.now.missing missing.now then Some place.now.number else None) }
{
    if place.missing.cmp(missing).is_eq() {
        Some(place.number)
    } else {
        None
    }
}

/// The lowest place in the queue that isn't below this one.
fn least_from(queue: &BTreeSet<Place>, from: Place) -> Option<Place>
    ensures some { IfSome result (λ p. IsLeastFrom (contains place_cmp queue.now) from p) }
    ensures none { IfNone result ((q : Place) → IsLeBy place_cmp from q → contains place_cmp queue.now q ≡ false) }
{
    let mut places = queue.range(from..);
    match places.next() {
        Some(place) => Some(*place),
        None => None,
    }
}

/// Gives a new id its number, and puts its place into the queue.
fn enlist(
    numbers: &mut BTreeMap<Id, u64>,
    queue: &mut BTreeSet<Place>,
    id: &Id,
    place: &Place,
) -> Result<(), NoMem>
    requires id { get id_cmp numbers.old id.now ≡ None }
    ensures numbers { OnOk result ((x : Id) → get id_cmp numbers.new x ≡ (if id_eq id.now x then Some place.now.number else get id_cmp numbers.old x)) }
    ensures queue { OnOk result ((q : Place) → contains place_cmp queue.new q ≡ (if is_at (place_cmp place.now) q then true else contains place_cmp queue.old q)) }
    ensures same_numbers { OnErr result ((x : Id) → get id_cmp numbers.new x ≡ get id_cmp numbers.old x) }
    ensures same_queue { OnErr result ((q : Place) → contains place_cmp queue.new q ≡ contains place_cmp queue.old q) }
{
    numbers.insert(*id, place.number)?;
    if queue.insert(*place).is_err() {
        numbers.remove(id);
        return Err(NoMem);
    }
    Ok(())
}

/// Takes an id and its place away.
fn strike(numbers: &mut BTreeMap<Id, u64>, queue: &mut BTreeSet<Place>, id: &Id, place: &Place)
    ensures numbers { (x : Id) → get id_cmp numbers.new x ≡ (if id_eq id.now x then None else get id_cmp numbers.old x) }
    ensures queue { (q : Place) → contains place_cmp queue.new q ≡ (if is_at (place_cmp place.now) q then false else contains place_cmp queue.old q) }
{
    numbers.remove(id);
    queue.remove(place);
}

/// Puts a waiting event behind the others, under a number above all others. It is handed back where memory is short.
pub fn enter(
    waiters: &mut BTreeMap<u64, Waiter>,
    numbers: &mut BTreeMap<Id, u64>,
    queue: &mut BTreeSet<Place>,
    number: u64,
    waiter: Waiter,
) -> Result<(), Waiter>
    requires listed { AreListed number waiters.old.entries }
    requires indexed { AreIndexed waiters.old.entries (get id_cmp numbers.old) (contains place_cmp queue.old) }
    requires new { number_of waiters.old.entries waiter.event.id ≡ None }
    ensures ok { OnOk result (waiters.new.entries ≡ waiters.old.entries ++ (number, waiter) ∷ []) }
    ensures ordered { IsStrictlySortedBy nat_cmp (keys_of waiters.new.entries) }
    ensures back { IfErr result (λ w. w ≡ waiter) }
    ensures err { OnErr result (waiters.new.entries ≡ waiters.old.entries) }
    ensures indexed { AreIndexed waiters.new.entries (get id_cmp numbers.new) (contains place_cmp queue.new) }
{
    let id = waiter.id();
    let place = waiter.place(number);
    if enlist(numbers, queue, &id, &place).is_err() {
        return Err(waiter);
    }
    match waiters.insert(number, waiter) {
        Ok(_) => Ok(()),
        Err(refused) => {
            strike(numbers, queue, &id, &place);
            Err(refused.value.1)
        }
    }
}

/// Takes the waiting event with this id out.
pub fn leave(
    waiters: &mut BTreeMap<u64, Waiter>,
    numbers: &mut BTreeMap<Id, u64>,
    queue: &mut BTreeSet<Place>,
    next: u64,
    id: &Id,
) -> Option<Waiter>
    requires listed { AreListed next waiters.old.entries }
    requires indexed { AreIndexed waiters.old.entries (get id_cmp numbers.old) (contains place_cmp queue.old) }
    ensures value { result ≡ find (has_id id.now) (values_of waiters.old.entries) }
    ensures others { waiters.new.entries ≡ without_first (λ (e : ℕ × Waiter). has_id id.now e.1) waiters.old.entries }
    ensures ordered { IsStrictlySortedBy nat_cmp (keys_of waiters.new.entries) }
    ensures indexed { AreIndexed waiters.new.entries (get id_cmp numbers.new) (contains place_cmp queue.new) }
{
    let number = *numbers.get(id)?;
    let waiter = waiters.remove(&number)?;
    let place = waiter.place(number);
    strike(numbers, queue, id, &place);
    Some(waiter)
}

/// Moves the waiting event with this number in the queue.
pub fn requeue(
    waiters: &mut BTreeMap<u64, Waiter>,
    queue: &mut BTreeSet<Place>,
    number: u64,
    missing: &Option<Id>,
) -> Result<(), NoMem>
    requires there { IsSome (get nat_cmp waiters.old number) }
    ensures waiters { OnOk result (IfSome (get nat_cmp waiters.old number) (λ w. waiters.new.entries ≡ set_value (is_at (nat_cmp number)) waiters.old.entries (record { event = w.event; missing = missing.now }))) }
    ensures queue { OnOk result (IfSome (get nat_cmp waiters.old number) (λ w. (q : Place) → contains place_cmp queue.new q ≡ (if is_at (place_cmp (record { missing = w.missing; number = number })) q then false else if is_at (place_cmp (record { missing = missing.now; number = number })) q then true else contains place_cmp queue.old q))) }
    ensures same_waiters { OnErr result (waiters.new.entries ≡ waiters.old.entries) }
    ensures same_queue { OnErr result (queue.new.keys ≡ queue.old.keys) }
{
    queue.insert(Place::new(missing, number))?;
    if let Some(waiter) = waiters.get_mut(&number) {
        let before = waiter.note(missing);
        queue.remove(&Place::new(&before, number));
    }
    Ok(())
}
