//! Which head follows a place.

ghost use Rattle.std.specs.Prelude.{◌≡◌, ℕ, ◌≤◌, nat_eq, Some, IfOk, OnOk, OnErr, IsSome, if◌then◌else◌};
ghost use Rattle.std.specs.BTreeMap.{get};
ghost use Rattle.std.specs.Ordering.{nat_cmp};
ghost use Rattle.fugue_place.specs.Ways.{IsFirstLink};

use ew_model::NoMem;
use std::collections::BTreeMap;

/// What a place is linked to.
pub fn link_of(links: &BTreeMap<u32, u32>, at: u32) -> Option<u32>
    ensures { result ≡ get nat_cmp links.now at }
{
    links.get(&at).copied()
}

/// What the first linked place of those from the one up to the other is linked to.
pub fn first_link(links: &BTreeMap<u32, u32>, from: u32, to: u32) -> Option<u32>
    requires { from ≤ to }
    ensures { IsFirstLink (get nat_cmp links.now) from to result }
{
    let mut found = links.range(from..to);
    match found.next() {
        Some((_, head)) => Some(*head),
        None => None,
    }
}

/// Links a place, and gives what it was linked to.
pub fn put_link(links: &mut BTreeMap<u32, u32>, at: u32, head: u32) -> Result<Option<u32>, NoMem>
    ensures was { IfOk result (λ was. was ≡ get nat_cmp links.old at) }
    ensures ok { OnOk result ((k : ℕ) → get nat_cmp links.new k ≡ (if nat_eq at k then Some head else get nat_cmp links.old k)) }
    ensures absent { OnErr result (get nat_cmp links.old at ≡ None) }
    ensures err { OnErr result ((k : ℕ) → get nat_cmp links.new k ≡ get nat_cmp links.old k) }
{
    match links.insert(at, head) {
        Ok(was) => Ok(was),
        Err(_) => Err(NoMem),
    }
}

/// Undoes a link: the place leads again to what it led to before, or to nothing.
pub fn take_back(links: &mut BTreeMap<u32, u32>, at: u32, was: Option<u32>)
    requires { IsSome (get nat_cmp links.old at) }
    ensures { (k : ℕ) → get nat_cmp links.new k ≡ (if nat_eq at k then was else get nat_cmp links.old k) }
{
    match was {
        Some(head) => relink(links, at, head),
        None => unlink(links, at),
    }
}

/// Changes the head of a linked place.
fn relink(links: &mut BTreeMap<u32, u32>, at: u32, head: u32)
    requires { IsSome (get nat_cmp links.old at) }
    ensures { (k : ℕ) → get nat_cmp links.new k ≡ (if nat_eq at k then Some head else get nat_cmp links.old k) }
{
    let Ok(_) = put_link(links, at, head) else {
        unreachable!()
    };
}

/// Takes a link away.
fn unlink(links: &mut BTreeMap<u32, u32>, at: u32)
    ensures { (k : ℕ) → get nat_cmp links.new k ≡ (if nat_eq at k then None else get nat_cmp links.old k) }
{
    links.remove(&at);
}
