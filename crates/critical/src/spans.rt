//! Spans of neighbouring cuts.

ghost use Rattle.std.specs.Prelude.{◌≡◌, ℕ, suc, ◌+◌, ◌-◌, ◌<◌, ◌≤◌, ◌^◌, List, [], ◌∷◌, ◌++◌, map, length, take, filter, nat_eq, nat_lt, true, IsTrue, IfOk, IfSome, IfNone, OnOk, OnErr};
ghost use Rattle.std.specs.List.{AllWithin, range_with_len};
ghost use Rattle.std.specs.Cmp.Lexicographic.{pointwise};
ghost use Rattle.ew_model.specs.Sets.{Among};
ghost use Rattle.critical.specs.KeptCuts.{chain_parents};
ghost use Rattle.critical.specs.Searches.{TellsHeads, IsGreatestTo};
ghost use Rattle.critical.specs.CutRuns.{span_count};
ghost use Rattle.critical.specs.Spans.{cuts_in, heads_in, RiseFrom, EndBelow, ends_before, with_last, shortened, IsHeldAt};

use ew_model::NoMem;
use smallvec::SmallVec;
use sorted_search::count_passing;
use std::alloc::Global;

/// Neighbouring critical cuts, all from the first one to the last one.
#[derive(Clone, Copy)]
pub struct CutSpan {
    pub first: u32,
    pub last: u32,
}

/// How many of the spans begin below a number.
fn count_below(spans: &[CutSpan], end: u32) -> usize
    requires { RiseFrom 0 spans.now }
    ensures bound { result ≤ length spans.now }
    ensures below { AllWithin (λ s. s.first < end) spans.now 0 result }
    ensures above { AllWithin (λ s. end ≤ s.first) spans.now result (length spans.now) }
{
    count_passing(spans, |s| s.first < end)
}

/// The place of the span that holds the number, if one does.
fn find_span(spans: &[CutSpan], k: u32) -> Option<usize>
    requires rising { RiseFrom 0 spans.now }
    requires room { k + 1 < 2 ^ 32 }
    ensures some { IfSome result (λ place. IsHeldAt spans.now place k) }
    ensures none { IfNone result (Among k (cuts_in spans.now) → ⊥) }
{
    let below = count_below(spans, k + 1);
    if below > 0 && k <= spans[below - 1].last {
        Some(below - 1)
    } else {
        None
    }
}

/// The place of the span that holds the number, if one does. The span at the place `near` and the next one are tried first.
pub fn find_span_near(spans: &[CutSpan], k: u32, near: usize) -> Option<usize>
    requires rising { RiseFrom 0 spans.now }
    requires room { k + 1 < 2 ^ 32 }
    ensures some { IfSome result (λ place. IsHeldAt spans.now place k) }
    ensures none { IfNone result (Among k (cuts_in spans.now) → ⊥) }
{
    if is_held_at(spans, near, k) {
        return Some(near);
    }
    let next = near.wrapping_add(1);
    if is_held_at(spans, next, k) {
        return Some(next);
    }
    find_span(spans, k)
}

/// Whether the span at a place holds the number.
fn is_held_at(spans: &[CutSpan], place: usize, k: u32) -> bool
    ensures { IsTrue result → IsHeldAt spans.now place k }
{
    match spans.get(place) {
        Some(span) => span.first <= k && k <= span.last,
        None => false,
    }
}

/// The greatest of the cuts that is at most this, or 0.
pub fn greatest_to(spans: &[CutSpan], at_most: u32) -> u32
    requires rising { RiseFrom 0 spans.now }
    requires room { at_most + 1 < 2 ^ 32 }
    ensures { IsGreatestTo (cuts_in spans.now) at_most result }
{
    let below = count_below(spans, at_most + 1);
    if below > 0 {
        at_most.min(spans[below - 1].last)
    } else {
        0
    }
}

/// Whether these are the heads below the cut, if that is among the spans.
pub fn has_heads(spans: &[CutSpan], heads: &[SmallVec<u32, 4>], cut: u32, positions: &[u32]) -> bool
    requires rising { RiseFrom 0 spans.now }
    requires alike { length heads.now ≡ length spans.now }
    requires room { cut + 1 < 2 ^ 32 }
    ensures { TellsHeads (cuts_in spans.now) (heads_in spans.now (map (λ v. v.items) heads.now)) cut positions.now result }
{
    match find_span(spans, cut) {
        Some(place) => {
            if spans[place].first == cut {
                heads[place].as_slice() == positions
            } else {
                is_only(positions, cut.saturating_sub(1))
            }
        }
        None => false,
    }
}

/// Whether the position stands in the list alone.
fn is_only(positions: &[u32], position: u32) -> bool
    ensures { result ≡ pointwise nat_eq positions.now (position ∷ []) }
{
    positions == [position].as_slice()
}

/// Whether the last span ends right before the cut.
pub fn ends_before(spans: &[CutSpan], cut: u32) -> bool
    requires { EndBelow cut spans.now }
    ensures { result ≡ ends_before spans.now cut }
{
    match spans.last() {
        Some(span) => span.last + 1 == cut,
        None => false,
    }
}

/// Puts one more cut behind the others: into the last span, where that ends right before it, or else into a span of its
/// own, which these are the heads for.
pub fn add_cut(
    spans: &mut Vec<CutSpan>,
    heads: &mut Vec<SmallVec<u32, 4>>,
    cut: u32,
    below: &[u32],
) -> Result<(), NoMem>
    requires rising { RiseFrom 0 spans.old.items }
    requires ends { EndBelow cut spans.old.items }
    requires alike { length heads.old.items ≡ length spans.old.items }
    requires room { cut + 1 < 2 ^ 32 }
    ensures cuts { OnOk result (cuts_in spans.new.items ≡ cuts_in spans.old.items ++ cut ∷ []) }
    ensures heads { OnOk result ((ends_before spans.old.items cut ≡ true → below.now ≡ (cut - 1) ∷ []) → heads_in spans.new.items (map (λ v. v.items) heads.new.items) ≡ heads_in spans.old.items (map (λ v. v.items) heads.old.items) ++ below.now ∷ []) }
    ensures rising { RiseFrom 0 spans.new.items }
    ensures ends { OnOk result (EndBelow (cut + 1) spans.new.items) }
    ensures alike { length heads.new.items ≡ length spans.new.items }
    ensures same_spans { OnErr result (spans.new.items ≡ spans.old.items) }
    ensures same_heads { OnErr result (map (λ v. v.items) heads.new.items ≡ map (λ v. v.items) heads.old.items) }
{
    if ends_before(spans, cut) {
        lengthen_last(spans, cut);
        Ok(())
    } else {
        start_span(spans, heads, cut, below)
    }
}

/// Puts so many neighbouring cuts behind the others, from one on. Below each of them the cut before it is the only head.
pub fn add_cuts(
    spans: &mut Vec<CutSpan>,
    heads: &mut Vec<SmallVec<u32, 4>>,
    cut: u32,
    count: u32,
) -> Result<(), NoMem>
    requires rising { RiseFrom 0 spans.old.items }
    requires ends { EndBelow cut spans.old.items }
    requires alike { length heads.old.items ≡ length spans.old.items }
    requires some { 0 < cut }
    requires room { cut + count < 2 ^ 32 }
    ensures cuts { OnOk result (cuts_in spans.new.items ≡ cuts_in spans.old.items ++ range_with_len cut count) }
    ensures heads { OnOk result (heads_in spans.new.items (map (λ v. v.items) heads.new.items) ≡ heads_in spans.old.items (map (λ v. v.items) heads.old.items) ++ chain_parents (cut - 1) count) }
    ensures rising { OnOk result (RiseFrom 0 spans.new.items) }
    ensures ends { OnOk result (EndBelow (cut + count) spans.new.items) }
    ensures alike { OnOk result (length heads.new.items ≡ length spans.new.items) }
    ensures same_spans { OnErr result (spans.new.items ≡ spans.old.items) }
    ensures same_heads { OnErr result (map (λ v. v.items) heads.new.items ≡ map (λ v. v.items) heads.old.items) }
{
    if count == 0 {
        return Ok(());
    }
    add_cut(spans, heads, cut, &[cut - 1])?;
    lengthen_last_to(spans, cut + (count - 1));
    Ok(())
}

/// Takes the cuts up to one behind the last span into it.
fn lengthen_last_to(spans: &mut Vec<CutSpan>, cut: u32)
    ensures { spans.new.items ≡ with_last spans.old.items cut }
{
    let count = spans.len();
    if count > 0 {
        spans[count - 1].last = cut;
    }
}

/// Takes the cut right behind the last span into it.
fn lengthen_last(spans: &mut Vec<CutSpan>, cut: u32)
    requires { ends_before spans.old.items cut ≡ true }
    ensures { spans.new.items ≡ with_last spans.old.items cut }
{
    lengthen_last_to(spans, cut);
}

/// Puts a span of one cut behind the others.
fn start_span(
    spans: &mut Vec<CutSpan>,
    heads: &mut Vec<SmallVec<u32, 4>>,
    cut: u32,
    below: &[u32],
) -> Result<(), NoMem>
    ensures spans { OnOk result (spans.new.items ≡ spans.old.items ++ record { first = cut; last = cut } ∷ []) }
    ensures heads { OnOk result (map (λ v. v.items) heads.new.items ≡ map (λ v. v.items) heads.old.items ++ below.now ∷ []) }
    ensures same_spans { OnErr result (spans.new.items ≡ spans.old.items) }
    ensures same_heads { OnErr result (map (λ v. v.items) heads.new.items ≡ map (λ v. v.items) heads.old.items) }
{
    let below = SmallVec::from_slice(*spans.allocator(), below)?;
    spans.reserve(1)?;
    heads.push(below)?;
    spans.push_reserved(CutSpan {
        first: cut,
        last: cut,
    });
    Ok(())
}

/// Leaves the cuts below a number, with their heads.
pub fn keep_below(spans: &mut Vec<CutSpan>, heads: &mut Vec<SmallVec<u32, 4>>, end: u32)
    requires rising { RiseFrom 0 spans.old.items }
    requires alike { length heads.old.items ≡ length spans.old.items }
    ensures cuts { cuts_in spans.new.items ≡ filter (λ k. nat_lt k end) (cuts_in spans.old.items) }
    ensures heads { heads_in spans.new.items (map (λ v. v.items) heads.new.items) ≡ take (length (cuts_in spans.new.items)) (heads_in spans.old.items (map (λ v. v.items) heads.old.items)) }
    ensures rising { RiseFrom 0 spans.new.items }
    ensures ends { (n : ℕ) → EndBelow n spans.old.items → EndBelow n spans.new.items }
    ensures alike { length heads.new.items ≡ length spans.new.items }
{
    let kept = count_below(spans, end);
    spans.truncate(kept);
    heads.truncate(kept);
    shorten_last(spans, end);
}

/// Leaves of the last span the cuts below a number. It begins below that.
fn shorten_last(spans: &mut Vec<CutSpan>, end: u32)
    requires { AllWithin (λ s. s.first < end) spans.old.items 0 (length spans.old.items) }
    ensures { spans.new.items ≡ shortened spans.old.items end }
{
    let count = spans.len();
    if count > 0 && spans[count - 1].last >= end {
        spans[count - 1].last = end.saturating_sub(1);
    }
}

/// Puts the cuts of all spans behind the numbers.
pub fn list_spans(numbers: &mut Vec<u32>, spans: &[CutSpan]) -> Result<(), NoMem>
    requires rising { RiseFrom 0 spans.now }
    requires ends { EndBelow (2 ^ 32 - 1) spans.now }
    ensures { OnOk result (numbers.new.items ≡ numbers.old.items ++ cuts_in spans.now) }
{
    for span in spans {
        list_span(numbers, *span)?;
    }
    Ok(())
}

/// Puts the cuts of a span behind the numbers.
pub fn list_span(numbers: &mut Vec<u32>, span: CutSpan) -> Result<(), NoMem>
    requires room { span.last + 1 < 2 ^ 32 }
    requires order { span.first ≤ span.last }
    ensures { OnOk result (numbers.new.items ≡ numbers.old.items ++ range_with_len span.first (suc (span.last - span.first))) }
{
    for k in span.first..span.last + 1 {
        numbers.push(k)?;
    }
    Ok(())
}

/// The first cut of the spans, or the number behind them.
pub fn first_of(spans: &[CutSpan], end: u32) -> u32
    ensures first { (rest : List ℕ) × (cuts_in spans.now ++ end ∷ [] ≡ result ∷ rest) }
    ensures high { (low : ℕ) → RiseFrom low spans.now → low ≤ end → low ≤ result }
{
    match spans.first() {
        Some(span) => span.first,
        None => end,
    }
}

/// How many runs of neighbours the cuts below a limit make, but for one that goes on with the number behind them.
pub fn runs_below(spans: &[CutSpan], limit: u32, next: u32) -> u32
    requires rising { RiseFrom 0 spans.now }
    requires order { limit ≤ next }
    ensures runs { (rest : List ℕ) → result + span_count (next ∷ rest) ≡ span_count (filter (λ k. nat_lt k limit) (cuts_in spans.now) ++ next ∷ rest) }
    ensures few { result + result ≤ limit + 1 }
{
    let kept = count_below(spans, limit);
    let runs = kept as u32;
    if kept > 0 && spans[kept - 1].last.min(limit - 1) == next - 1 {
        runs - 1
    } else {
        runs
    }
}

/// How many runs of neighbours the cuts of the spans and the number behind them make.
pub fn runs_before(spans: &[CutSpan], end: u32) -> u32
    requires rising { RiseFrom 0 spans.now }
    requires ends { EndBelow end spans.now }
    ensures runs { result ≡ span_count (cuts_in spans.now ++ end ∷ []) }
    ensures few { (low : ℕ) → RiseFrom low spans.now → low ≤ end → low + result + result ≤ end + 3 }
{
    let count = spans.len() as u32;
    if ends_before(spans, end) {
        count
    } else {
        count + 1
    }
}

/// A second one of the same lists of heads.
pub fn copy_heads(alloc: Global, heads: &[SmallVec<u32, 4>]) -> Result<Vec<SmallVec<u32, 4>>, NoMem>
    ensures { IfOk result (λ v. map (λ h. h.items) v.items ≡ map (λ h. h.items) heads.now) }
{
    let mut copy = Vec::with_capacity(alloc, heads.len())?;
    for list in heads {
        copy.push(SmallVec::from_slice(alloc, list.as_slice())?)?;
    }
    Ok(copy)
}
