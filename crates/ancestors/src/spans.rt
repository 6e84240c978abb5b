//! Spans of positions.

ghost use Rattle.std.specs.Prelude.{◌≡◌, ◌<◌, ◌≤◌, [], ◌++◌, OnOk, OnErr};
ghost use Rattle.std.specs.List.{All};
ghost use Rattle.ancestors.specs.Spans.{positions_in, positions_of, AreDescending};

use ew_model::NoMem;
use std::alloc::Global;
use std::marker::Model;

/// The positions from `from` on that are below `to`.
#[derive(Clone, Copy, Debug, PartialEq, Eq)]
pub struct Span {
    pub from: u32,
    pub to: u32,
}

/// Spans of positions, the highest first. None is empty, and no two share a position or lie next to each other.
/// Contracts see the list.
#[derive(Drop)]
pub struct Spans {
    spans: Vec<Span>,
}

impl Model for Spans {
    ghost use Rattle.std.specs.Prelude.{List};
    ghost use Rattle.ancestors.specs.declared.spans.Span.{Span};
    ghost use Rattle.ancestors.specs.Spans.{AreDescending};

    ghost Value = { List Span };

    ghost view = { λ s. s.spans.items };

    ghost invariant = { λ s. AreDescending s.spans.items };
}

impl Spans {
    /// No spans. It takes no memory.
    pub(crate) fn new(alloc: Global) -> Spans
        ensures none { result ≡ [] }
        ensures order { AreDescending result }
    {
        Spans {
            spans: Vec::new(alloc),
        }
    }

    /// The spans, the highest first.
    pub fn as_slice(&self) -> &[Span]
        ensures spans { result.now ≡ self.now }
        ensures order { AreDescending self.now }
    {
        self.spans.as_slice()
    }

    /// Puts in a span below all others.
    pub(crate) fn push_lower(&mut self, span: Span) -> Result<(), NoMem>
        requires filled { span.from < span.to }
        requires lower { All (λ p. span.to ≤ p) (positions_of self.old) }
        ensures ok { OnOk result (positions_of self.new ≡ positions_in span ++ positions_of self.old) }
        ensures order { AreDescending self.new }
        ensures err { OnErr result (self.new ≡ self.old) }
    {
        add_lower(&mut self.spans, span)
    }
}

/// Puts a span below the others into the last of them, where that begins right above it, or else behind them.
fn add_lower(spans: &mut Vec<Span>, span: Span) -> Result<(), NoMem>
    requires order { AreDescending spans.old.items }
    requires filled { span.from < span.to }
    requires lower { All (λ p. span.to ≤ p) (positions_of spans.old.items) }
    ensures ok { OnOk result (positions_of spans.new.items ≡ positions_in span ++ positions_of spans.old.items) }
    ensures order { AreDescending spans.new.items }
    ensures err { OnErr result (spans.new.items ≡ spans.old.items) }
{
    let count = spans.len();
    if count > 0 && spans[count - 1].from == span.to {
        spans[count - 1].from = span.from;
    } else {
        spans.push(span)?;
    }
    Ok(())
}
