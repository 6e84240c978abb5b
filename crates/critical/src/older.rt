//! Older spans of cuts, which several lists of cuts may hold together.

ghost use Rattle.std.specs.Prelude.{◌≡◌, ◌-◌, ◌<◌, ◌^◌, [], ◌++◌, map, length, true, IfOk, OnOk, OnErr};
ghost use Rattle.critical.specs.Older.{seen_cuts, seen_heads};
ghost use Rattle.critical.specs.Spans.{cuts_in, heads_in, RiseFrom, EndBelow};

use crate::spans::{CutSpan, copy_heads, ends_before, keep_below};
use ew_model::NoMem;
use smallvec::SmallVec;
use std::alloc::Global;
use std::marker::Model;
use std::rc::Rc;

/// Spans of cuts, and for each of them the heads of the events below its first cut.
#[derive(Drop)]
struct SpanRow {
    spans: Vec<CutSpan>,
    heads: Vec<SmallVec<u32, 4>>,
}

/// Spans of cuts that don't change while more than one holds them. So a second hold on them costs the same however many they are.
#[derive(Drop)]
pub struct Older {
    row: Option<Rc<SpanRow>>,
}

impl Model for Older {
    ghost use Rattle.std.specs.Prelude.{map};
    ghost use Rattle.critical.specs.Older.{SpanList, listed_by};

    ghost Value = { SpanList };

    ghost view = { λ o. record { spans = listed_by (λ r. r.value.spans.items) o.row; heads = listed_by (λ r. map (λ v. v.items) r.value.heads.items) o.row } };
}

impl Older {
    /// No spans. It takes no memory.
    pub fn none() -> Older
        ensures { result ≡ record { spans = []; heads = [] } }
    {
        Older { row: None }
    }

    /// The spans.
    pub fn spans(&self) -> &[CutSpan]
        ensures { result.now ≡ self.now.spans }
    {
        match &self.row {
            Some(row) => row.spans.as_slice(),
            None => &[],
        }
    }

    /// The heads below the first cut of each.
    pub fn heads(&self) -> &[SmallVec<u32, 4>]
        ensures { map (λ v. v.items) result.now ≡ self.now.heads }
    {
        match &self.row {
            Some(row) => row.heads.as_slice(),
            None => &[],
        }
    }

    /// A second hold on the same spans.
    pub fn share(&self) -> Result<Older, NoMem>
        ensures { IfOk result (λ o. o ≡ self.now) }
    {
        let row = match &self.row {
            Some(row) => Some(row.clone()?),
            None => None,
        };
        Ok(Older { row })
    }

    /// Takes spans in behind those below the limit, where nobody else holds these, and tells whether it did. Those below the limit
    /// stay in any case.
    pub fn take_in(
        &mut self,
        alloc: Global,
        limit: u32,
        spans: &[CutSpan],
        heads: &[SmallVec<u32, 4>],
    ) -> Result<bool, NoMem>
        requires rising { RiseFrom 0 self.old.spans }
        requires alike { length self.old.heads ≡ length self.old.spans }
        requires ends { EndBelow (2 ^ 32 - 1) self.old.spans }
        requires more_rising { RiseFrom limit spans.now }
        requires more_ends { EndBelow (2 ^ 32 - 1) spans.now }
        requires more_alike { length heads.now ≡ length spans.now }
        requires some { 0 < length spans.now }
        ensures cuts { IfOk result (λ took. took ≡ true → cuts_in self.new.spans ≡ seen_cuts self.old limit ++ cuts_in spans.now) }
        ensures heads { IfOk result (λ took. took ≡ true → heads_in self.new.spans self.new.heads ≡ seen_heads self.old limit ++ heads_in spans.now (map (λ v. v.items) heads.now)) }
        ensures rising { RiseFrom 0 self.new.spans }
        ensures ends { EndBelow (2 ^ 32 - 1) self.new.spans }
        ensures alike { length self.new.heads ≡ length self.new.spans }
        ensures seen_cuts { seen_cuts self.new limit ≡ seen_cuts self.old limit }
        ensures seen_heads { seen_heads self.new limit ≡ seen_heads self.old limit }
    {
        if self.row.is_none() {
            let row = SpanRow {
                spans: Vec::new(alloc),
                heads: Vec::new(alloc),
            };
            self.row = Some(Rc::new(alloc, row)?);
        }
        match &mut self.row {
            Some(row) => match Rc::get_mut(row) {
                Some(row) => extend(alloc, &mut row.spans, &mut row.heads, limit, spans, heads),
                None => Ok(false),
            },
            None => Ok(false),
        }
    }
}

/// Leaves the cuts below the limit, and puts other spans behind them, unless these begin right there. Tells whether it did.
fn extend(
    alloc: Global,
    spans: &mut Vec<CutSpan>,
    heads: &mut Vec<SmallVec<u32, 4>>,
    limit: u32,
    more: &[CutSpan],
    more_heads: &[SmallVec<u32, 4>],
) -> Result<bool, NoMem>
    requires rising { RiseFrom 0 spans.old.items }
    requires alike { length heads.old.items ≡ length spans.old.items }
    requires ends { EndBelow (2 ^ 32 - 1) spans.old.items }
    requires more_rising { RiseFrom limit more.now }
    requires more_ends { EndBelow (2 ^ 32 - 1) more.now }
    requires more_alike { length more_heads.now ≡ length more.now }
    requires some { 0 < length more.now }
    ensures cuts { IfOk result (λ took. took ≡ true → cuts_in spans.new.items ≡ seen_cuts (record { spans = spans.old.items; heads = map (λ v. v.items) heads.old.items }) limit ++ cuts_in more.now) }
    ensures heads { IfOk result (λ took. took ≡ true → heads_in spans.new.items (map (λ v. v.items) heads.new.items) ≡ seen_heads (record { spans = spans.old.items; heads = map (λ v. v.items) heads.old.items }) limit ++ heads_in more.now (map (λ v. v.items) more_heads.now)) }
    ensures rising { RiseFrom 0 spans.new.items }
    ensures ends { EndBelow (2 ^ 32 - 1) spans.new.items }
    ensures alike { length heads.new.items ≡ length spans.new.items }
    ensures seen_cuts { seen_cuts (record { spans = spans.new.items; heads = map (λ v. v.items) heads.new.items }) limit ≡ seen_cuts (record { spans = spans.old.items; heads = map (λ v. v.items) heads.old.items }) limit }
    ensures seen_heads { seen_heads (record { spans = spans.new.items; heads = map (λ v. v.items) heads.new.items }) limit ≡ seen_heads (record { spans = spans.old.items; heads = map (λ v. v.items) heads.old.items }) limit }
{
    keep_below(spans, heads, limit);
    if ends_before(spans, more[0].first) {
        return Ok(false);
    }
    append(alloc, spans, heads, more, more_heads)?;
    Ok(true)
}

/// Puts other spans behind these, with the heads of each.
fn append(
    alloc: Global,
    spans: &mut Vec<CutSpan>,
    heads: &mut Vec<SmallVec<u32, 4>>,
    more: &[CutSpan],
    more_heads: &[SmallVec<u32, 4>],
) -> Result<(), NoMem>
    ensures spans { OnOk result (spans.new.items ≡ spans.old.items ++ more.now) }
    ensures heads { OnOk result (map (λ v. v.items) heads.new.items ≡ map (λ v. v.items) heads.old.items ++ map (λ v. v.items) more_heads.now) }
    ensures same_spans { OnErr result (spans.new.items ≡ spans.old.items) }
    ensures same_heads { OnErr result (map (λ v. v.items) heads.new.items ≡ map (λ v. v.items) heads.old.items) }
{
    let mut copies = copy_heads(alloc, more_heads)?;
    let count = heads.len();
    heads.append(&mut copies)?;
    if let Err(fault) = spans.extend_from_slice(more) {
        heads.truncate(count);
        return Err(fault);
    }
    Ok(())
}
