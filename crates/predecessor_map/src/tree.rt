//! Labels of numbers in an ordered map.

ghost use Rattle.std.specs.Prelude.{◌≡◌, ◌≤◌, ℕ, Some, None, IfSome, IfNone, OnOk, OnErr, nat_eq, if◌then◌else◌};
ghost use Rattle.std.specs.Ordering.{nat_cmp};
ghost use Rattle.std.specs.BTreeMap.{get};
ghost use Rattle.predecessor_map.specs.Labels.{IsLastIn};

use ew_model::NoMem;
use std::collections::BTreeMap;

/// The last number up to this one that has a label, with that.
pub fn last_in(map: &BTreeMap<u32, u64>, n: u32) -> Option<(u32, u64)>
    ensures some { IfSome result (λ e. IsLastIn (get nat_cmp map.now) n e.0 e.1) }
    ensures none { IfNone result ((k : ℕ) → k ≤ n → get nat_cmp map.now k ≡ None) }
{
    match map.range(..=n).next_back() {
        Some((key, label)) => Some((*key, *label)),
        None => None,
    }
}

/// Gives a number a label.
pub fn insert_in(map: &mut BTreeMap<u32, u64>, n: u32, label: u64) -> Result<(), NoMem>
    ensures ok { OnOk result ((k : ℕ) → get nat_cmp map.new k ≡ (if nat_eq n k then Some label else get nat_cmp map.old k)) }
    ensures err { OnErr result ((k : ℕ) → get nat_cmp map.new k ≡ get nat_cmp map.old k) }
    ensures absent { OnErr result (get nat_cmp map.old n ≡ None) }
{
    match map.insert(n, label) {
        Ok(_) => Ok(()),
        Err(_) => Err(NoMem),
    }
}

/// Takes a number's label away, if it has one.
pub fn remove_in(map: &mut BTreeMap<u32, u64>, n: u32)
    ensures { (k : ℕ) → get nat_cmp map.new k ≡ (if nat_eq n k then None else get nat_cmp map.old k) }
{
    let _ = map.remove(&n);
}
