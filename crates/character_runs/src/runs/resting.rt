//! Runs where no event is prepared.

ghost use Rattle.std.specs.Prelude.{◌≡◌, [], map, nat_eq, Bool, Contains, IfSome, IfNone};
ghost use Rattle.ew_model.specs.declared.node.Node.{Node as Nodes};
ghost use Rattle.order_tree.specs.Pairs.{runs, changed, lower, EndsWith, IsRising};
ghost use Rattle.character_runs.specs.States.{shown_in};
ghost use Rattle.character_runs.specs.Laid.{AreCounted, chars_in};
ghost use Rattle.character_runs.specs.Loose.{loose_in};
ghost use Rattle.character_runs.specs.Resting.{at_rest, rested};

use crate::runs::Runs;
use crate::runs::changing::Altered;
use ew_model::node::Node;
use ew_model::steps::Steps;
use std::sync::ledger::Ledger;
use walker_record::Record;

/// The prepared number of a node's character where no event is prepared.
fn at_rest(node: Node) -> u32
    ensures { result ≡ at_rest node }
{
    match node {
        Node::Base(_) => 1,
        Node::Root | Node::Event(_) => 0,
    }
}

/// Whether a run is as it is where no event is prepared.
fn is_at_rest(run: Record) -> bool
    ensures { result ≡ nat_eq run.prepared (at_rest run.from) }
{
    run.prepared == at_rest(run.from)
}

/// A run as it is where no event is prepared.
fn rested(run: Record) -> Record
    ensures { result ≡ rested run }
{
    Record {
        prepared: at_rest(run.from),
        ..run
    }
}

/// A run, with its label.
#[derive(Clone, Copy)]
pub struct Labelled {
    pub label: u64,
    pub run: Record,
}

impl Runs {
    /// Has the states of all characters as they are where no event is prepared. Answers how many are visible then, where so many
    /// were before.
    pub fn rest<L: Ledger>(&mut self, visible: u32, visits: &mut Steps<L>) -> u32
        requires { AreCounted self.old.tree.pairs self.old.labels visible (shown_in (chars_in self.old.tree.pairs)) }
        ensures counted { AreCounted self.new.tree.pairs self.new.labels result (shown_in (chars_in self.new.tree.pairs)) }
        ensures chars { chars_in self.new.tree.pairs ≡ map rested (chars_in self.old.tree.pairs) }
        ensures loose { (among : Nodes → Bool) → loose_in among (runs self.new.tree.pairs) ≡ loose_in among (runs self.old.tree.pairs) }
    {
        let Some(last) = self.last_run(visits) else {
            return visible;
        };
        let mut label = last.label;
        let mut count = self.rest_run(last, visible, visits);
        while let Some(next) = self.run_ahead(label, visits) {
            label = next.label;
            count = self.rest_run(next, count, visits);
        }
        count
    }

    /// Has the states of a run as they are where no event is prepared. Answers how many are visible then, where so many were
    /// before.
    fn rest_run<L: Ledger>(&mut self, found: Labelled, visible: u32, visits: &mut Steps<L>) -> u32
        requires counted { AreCounted self.old.tree.pairs self.old.labels visible (shown_in (chars_in self.old.tree.pairs)) }
        requires held { Contains self.old.tree.pairs (found.label, found.run) }
        ensures counted { AreCounted self.new.tree.pairs self.new.labels result (shown_in (chars_in self.new.tree.pairs)) }
        ensures pairs { self.new.tree.pairs ≡ changed self.old.tree.pairs found.label (rested found.run) }
        ensures loose { (among : Nodes → Bool) → loose_in among (runs self.new.tree.pairs) ≡ loose_in among (runs self.old.tree.pairs) }
        ensures rising { IsRising self.new.tree.pairs }
    {
        self.facts();
        if is_at_rest(found.run) {
            return visible;
        }
        let after = rested(found.run);
        self.tree.change(found.label, after, visits);
        self.facts();
        let altered = Altered {
            before: found.run,
            after,
        };
        altered.visible(visible)
    }

    /// The last run, with its label.
    fn last_run<L: Ledger>(&self, visits: &mut Steps<L>) -> Option<Labelled>
        ensures some { IfSome result (λ l. EndsWith self.now.tree.pairs l.label l.run) }
        ensures none { IfNone result (self.now.tree.pairs ≡ []) }
        ensures rising { IsRising self.now.tree.pairs }
    {
        self.facts();
        if self.tree.has_room(u64::MAX - 1, visits) {
            // no run has the greatest label
            self.run_ahead(u64::MAX, visits)
        } else {
            Some(Labelled {
                label: u64::MAX,
                run: self.record(u64::MAX, visits),
            })
        }
    }

    /// The last run with a lower label, with its own.
    fn run_ahead<L: Ledger>(&self, label: u64, visits: &mut Steps<L>) -> Option<Labelled>
        ensures some { IfSome result (λ l. EndsWith (lower self.now.tree.pairs label) l.label l.run) }
        ensures none { IfNone result (lower self.now.tree.pairs label ≡ []) }
        ensures rising { IsRising self.now.tree.pairs }
    {
        self.facts();
        let (label, run) = self.tree.ahead(label, visits)?;
        Some(Labelled { label, run: *run })
    }
}
