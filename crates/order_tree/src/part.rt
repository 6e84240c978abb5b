//! The parts of a node: runs with their labels, or branches.

ghost use Rattle.std.specs.Prelude.{◌≡◌, ℕ, ◌+◌, ◌-◌, ◌*◌, ◌≤◌, ◌<◌, ◌^◌, List, [], ◌∷◌, ◌++◌, length, take, drop, slice_index_or, unwrap_or, All};
ghost use Rattle.order_tree.specs.Pairs.{IsRising, first_label, total, SumsFit};
ghost use Rattle.order_tree.specs.Parts.{first_or_zero, last_known, sums_of, summary_of, all_pairs, one_pair, AllSome, IsMoved};

use crate::summary::{Summary, Sums};
use ew_model::run::Run;

/// A part of a node, which stands for one or more runs with their labels, in order.
pub trait Part<R: Run>: Sized {
    ghost pairs: { Self → List (ℕ × R) };

    /// The first label, and 0 without runs.
    fn first(&self) -> u64
        ensures { result ≡ first_or_zero (pairs self.now) };

    /// The label of the last run with a known character, and 0 for none.
    fn last_known(&self) -> u64
        ensures { result ≡ last_known R.known (pairs self.now) };

    /// The sums of the runs.
    fn sums(&self) -> Sums
        ensures { result ≡ sums_of R.Run (pairs self.now) };
}

impl<R: Run> Part<R> for (u64, R) {
    ghost pairs = { one_pair };

    fn first(&self) -> u64 {
        self.0
    }

    fn last_known(&self) -> u64 {
        if self.1.known_sum() > 0 { self.0 } else { 0 }
    }

    fn sums(&self) -> Sums {
        Sums::of(&self.1)
    }
}

/// How many parts begin at a label up to this one. All are looked at, since they are few: at the steps of a search by halving a
/// processor would often guess wrong.
fn count_up_to<R: Run, T: Part<R>>(parts: &[T], label: u64) -> usize
    requires some { AllSome T.pairs parts.now }
    requires rising { IsRising (all_pairs T.pairs parts.now) }
    ensures within { result ≤ length parts.now }
    ensures before { (d : T) → 0 < result → first_or_zero (T.pairs (slice_index_or parts.now (result - 1) d)) ≤ label }
    ensures behind { (d : T) → result < length parts.now → label < first_or_zero (T.pairs (slice_index_or parts.now result d)) }
{
    let mut count = 0;
    for part in parts {
        if part.first() <= label {
            count += 1;
        }
    }
    count
}

/// The last part that begins at a label up to this one, or else the first part.
pub fn place_of<R: Run, T: Part<R>>(parts: &[T], label: u64) -> usize
    requires some { AllSome T.pairs parts.now }
    requires rising { IsRising (all_pairs T.pairs parts.now) }
    requires one { 0 < length parts.now }
    ensures within { result < length parts.now }
    ensures before { All (λ p. p.0 < label) (all_pairs T.pairs (take result parts.now)) }
    ensures behind { All (λ p. label < p.0) (all_pairs T.pairs (drop (result + 1) parts.now)) }
    ensures first { (d : T) → 0 < result → first_or_zero (T.pairs (slice_index_or parts.now result d)) ≤ label }
{
    let many = count_up_to(parts, label);
    if many > 0 { many - 1 } else { 0 }
}

/// How many runs of a leaf have a label up to this one.
pub fn entries_up_to<R: Run>(entries: &[(u64, R)], label: u64) -> usize
    requires { IsRising entries.now }
    ensures within { result ≤ length entries.now }
    ensures before { All (λ p. p.0 ≤ label) (take result entries.now) }
    ensures behind { All (λ p. label < p.0) (drop result entries.now) }
{
    count_up_to(entries, label)
}

/// The greatest label that is free before part k, where `most` is that behind all parts.
pub fn free_before<R: Run, T: Part<R>>(parts: &[T], k: usize, most: u64) -> u64
    requires some { AllSome T.pairs parts.now }
    requires rising { IsRising (all_pairs T.pairs parts.now) }
    ensures { result + 1 ≡ unwrap_or (first_label (all_pairs T.pairs (drop k parts.now))) (most + 1) }
{
    if k < parts.len() {
        parts[k].first() - 1
    } else {
        most
    }
}

/// The label of the last run with a known character in the parts, and 0 for none.
pub fn last_known_in<R: Run, T: Part<R>>(parts: &[T]) -> u64
    ensures { result ≡ last_known R.known (all_pairs T.pairs parts.now) }
{
    let mut rest = parts.len();
    while rest > 0 {
        rest -= 1;
        let last = parts[rest].last_known();
        if last > 0 {
            return last;
        }
    }
    0
}

/// The sums of the parts together.
pub fn sums_in<R: Run, T: Part<R>>(parts: &[T]) -> Sums
    requires { SumsFit R.Run (all_pairs T.pairs parts.now) }
    ensures { result ≡ sums_of R.Run (all_pairs T.pairs parts.now) }
{
    let mut sums = Sums::NONE;
    for part in parts {
        sums = sums.plus(part.sums());
    }
    sums
}

/// What is kept of the parts together.
pub fn summary_in<R: Run, T: Part<R>>(parts: &[T]) -> Summary
    requires some { 0 < length parts.now }
    requires fits { SumsFit R.Run (all_pairs T.pairs parts.now) }
    requires first { (d : T) → 0 < length (T.pairs (slice_index_or parts.now 0 d)) }
    ensures { result ≡ summary_of R.Run (all_pairs T.pairs parts.now) }
{
    Summary {
        first: parts[0].first(),
        last_known: last_known_in(parts),
        sums: sums_in(parts),
    }
}

/// What is kept of the parts together, from the sums that were kept before an edit.
pub fn summary_after<R: Run, T: Part<R>>(
    parts: &[T],
    old: Sums,
    lost: Sums,
    gained: Sums,
) -> Summary
    requires some { 0 < length parts.now }
    requires fits { SumsFit R.Run (all_pairs T.pairs parts.now) }
    requires first { (d : T) → 0 < length (T.pairs (slice_index_or parts.now 0 d)) }
    requires moved { IsMoved old lost gained (sums_of R.Run (all_pairs T.pairs parts.now)) }
    ensures { result ≡ summary_of R.Run (all_pairs T.pairs parts.now) }
{
    Summary {
        first: parts[0].first(),
        last_known: last_known_in(parts),
        sums: old.minus(lost).plus(gained),
    }
}

/// What is kept of the parts together, whose sums are known.
pub fn summary_with<R: Run, T: Part<R>>(parts: &[T], sums: Sums) -> Summary
    requires some { 0 < length parts.now }
    requires first { (d : T) → 0 < length (T.pairs (slice_index_or parts.now 0 d)) }
    requires sums { sums ≡ sums_of R.Run (all_pairs T.pairs parts.now) }
    ensures { result ≡ summary_of R.Run (all_pairs T.pairs parts.now) }
{
    Summary {
        first: parts[0].first(),
        last_known: last_known_in(parts),
        sums,
    }
}
