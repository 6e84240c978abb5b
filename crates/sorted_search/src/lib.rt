//! Searches of sorted lists.
#![tactic(auto)]

ghost use Rattle.std.specs.Prelude.{◌≡◌, ◌≤◌, Bool, length, true, false};
ghost use Rattle.std.specs.Fn.{ComputesKey};
ghost use Rattle.std.specs.List.Sorted.{IsPartitionedBy, IsPartitionPoint};

/// How many items pass a test, where each that passes stands before each that fails. It answers what `partition_point` of slices
/// answers. After the first look, where the search goes on is found by a sum and not by a branch, which a processor would often
/// guess wrong.
pub fn count_passing<T, P: FnMut(&T) -> bool>(items: &[T], mut passes: P) -> usize
    requires { P.IsAlwaysCallable passes }
    ensures bound { result ≤ length items.now }
    ensures partitioned { (p : T → Bool) → ComputesKey P.FnMut p passes → IsPartitionedBy p items.now → IsPartitionPoint (λ y. p y ≡ true) (λ y. p y ≡ false) items.now result }
{
    let len = items.len();
    if len == 0 {
        return 0;
    }
    let mut shift = len.ilog2();
    let most = 1usize << shift;
    let mut low = if passes(&items[most - 1]) {
        len - (most - 1)
    } else {
        0
    };
    // The count is one of 2^shift numbers, of which `low` is the least.
    while shift > 0 {
        shift -= 1;
        let half = 1usize << shift;
        let more = usize::from(passes(&items[low + half - 1]));
        low += more << shift;
    }
    low
}
