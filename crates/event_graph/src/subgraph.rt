//! The part of a graph that a version holds.

ghost use Rattle.std.specs.Prelude.{◌≡◌, ◌+◌, ◌<◌, ◌^◌, ◌++◌, length, None, IfOk, OnOk};
ghost use Rattle.std.specs.List.{All};
ghost use Rattle.ew_model.specs.Ancestors.{version_events};
ghost use Rattle.ew_model.specs.Verdicts.{first_unknown};
ghost use Rattle.ancestors.specs.Spans.{positions_in, positions_of};
ghost use Rattle.event_graph.specs.Keeping.{AreAdmittedAfter, IsAdmitted};
ghost use Rattle.event_graph.specs.Subgraphs.{events_at, subgraph_of};

use crate::graph::Graph;
use crate::near::Near;
use ancestors::{Span, Spans, closure};
use ew_model::NoMem;
use ew_model::id::Id;
use std::alloc::Global;

impl Graph {
    /// The events of a version, in the same order, as a graph of their own.
    pub fn subgraph(&self, version: &[Id]) -> Result<Graph, NoMem>
        requires { first_unknown self.now version.now ≡ None }
        ensures filter { IfOk result (λ part. part ≡ subgraph_of self.now version.now) }
        ensures events { IfOk result (λ part. part ≡ version_events self.now version.now) }
    {
        let _count = self.count();
        let named = self.find_all(version)?;
        let spans = closure(self.alloc(), self, named.as_slice())?;
        part_of(self.alloc(), self, spans.as_slice())
    }
}

/// The events at the positions of spans, as a graph. The highest span stands first.
fn part_of(alloc: Global, graph: &Graph, spans: &[Span]) -> Result<Graph, NoMem>
    requires within { All (λ p. p < length graph.now) (positions_of spans.now) }
    requires admitted { IsAdmitted (events_at graph.now (positions_of spans.now)) }
    requires few { length (events_at graph.now (positions_of spans.now)) < 2 ^ 32 }
    ensures { IfOk result (λ part. part ≡ events_at graph.now (positions_of spans.now)) }
{
    let mut part = Graph::new(alloc)?;
    let mut left = spans.len();
    while left > 0 {
        left -= 1;
        admit_span(graph, &mut part, spans[left])?;
    }
    Ok(part)
}

/// Puts the events at the positions of a span behind those of a part.
fn admit_span(graph: &Graph, part: &mut Graph, span: Span) -> Result<(), NoMem>
    requires within { All (λ p. p < length graph.now) (positions_in span) }
    requires admitted { AreAdmittedAfter part.old (events_at graph.now (positions_in span)) }
    requires few { length part.old + length (events_at graph.now (positions_in span)) < 2 ^ 32 }
    ensures { OnOk result (part.new ≡ part.old ++ events_at graph.now (positions_in span)) }
{
    let mut near = Near::start();
    for position in span.from..span.to {
        part.admit(&graph.event_near(position, &mut near)?)?;
    }
    Ok(())
}
