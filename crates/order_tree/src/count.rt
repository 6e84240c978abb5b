//! Which of the characters of runs are counted by a search.

ghost use Rattle.std.specs.Prelude.{◌≡◌, ℕ, ◌+◌, ◌-◌, ◌<◌, ◌≤◌, ◌^◌, length, take, slice_index_or};
ghost use Rattle.order_tree.specs.Pairs.{total, SumsFit};
ghost use Rattle.order_tree.specs.Parts.{all_pairs, last_known};
ghost use Rattle.order_tree.specs.Counts.{count_of, counted_in};

use crate::part::Part;
use crate::summary::Sums;
use ew_model::run::Run;

/// The characters visible in what is prepared, or those in the text.
#[derive(Clone, Copy, Debug, PartialEq, Eq)]
pub enum Count {
    Prepared,
    Effect,
}

impl Count {
    /// How many of them the sums tell.
    fn of(self, sums: Sums) -> u32
        ensures { result ≡ counted_in self sums }
    {
        match self {
            Count::Prepared => sums.prepared,
            Count::Effect => sums.effect,
        }
    }
}

/// The part in which the i-th of these characters is, and its number there.
pub fn part_at<R: Run, T: Part<R>>(parts: &[T], count: Count, i: u32) -> (usize, u32)
    requires { i < total (count_of R.Run count) (all_pairs T.pairs parts.now) }
    ensures within { result.0 < length parts.now }
    ensures before { total (count_of R.Run count) (all_pairs T.pairs (take result.0 parts.now)) + result.1 ≡ i }
    ensures inside { (d : T) → result.1 < total (count_of R.Run count) (T.pairs (slice_index_or parts.now result.0 d)) }
{
    let mut rest = i;
    for (k, part) in parts.iter().enumerate() {
        let here = count.of(part.sums());
        if rest < here {
            return (k, rest);
        }
        rest -= here;
    }
    unreachable!()
}

/// The part with the i-th of the characters that are visible in what is prepared, its number there, and how many characters of the
/// text are in the parts before it.
pub fn visible_part<R: Run, T: Part<R>>(parts: &[T], i: u32) -> (usize, u32, u32)
    requires within { i < total R.prepared (all_pairs T.pairs parts.now) }
    requires small { total R.effect (all_pairs T.pairs parts.now) < 2 ^ 32 }
    ensures within { result.0 < length parts.now }
    ensures before { total R.prepared (all_pairs T.pairs (take result.0 parts.now)) + result.1 ≡ i }
    ensures inside { (d : T) → result.1 < total R.prepared (T.pairs (slice_index_or parts.now result.0 d)) }
    ensures effect { result.2 ≡ total R.effect (all_pairs T.pairs (take result.0 parts.now)) }
{
    let mut rest = i;
    let mut effect = 0;
    for (k, part) in parts.iter().enumerate() {
        let sums = part.sums();
        if rest < sums.prepared {
            return (k, rest, effect);
        }
        rest -= sums.prepared;
        effect += sums.effect;
    }
    unreachable!()
}

/// How many characters of the text are in the parts.
pub fn effect_in<R: Run, T: Part<R>>(parts: &[T]) -> u32
    requires { total R.effect (all_pairs T.pairs parts.now) < 2 ^ 32 }
    ensures { result ≡ total R.effect (all_pairs T.pairs parts.now) }
{
    let mut effect = 0;
    for part in parts {
        effect += part.sums().effect;
    }
    effect
}

/// The first part with a known character of a run whose label is greater, which there is.
pub fn part_known_after<R: Run, T: Part<R>>(parts: &[T], label: u64) -> usize
    requires { label < last_known R.known (all_pairs T.pairs parts.now) }
    ensures within { result < length parts.now }
    ensures before { last_known R.known (all_pairs T.pairs (take result parts.now)) ≤ label }
    ensures inside { (d : T) → label < last_known R.known (T.pairs (slice_index_or parts.now result d)) }
{
    for (k, part) in parts.iter().enumerate() {
        if label < part.last_known() {
            return k;
        }
    }
    unreachable!()
}
