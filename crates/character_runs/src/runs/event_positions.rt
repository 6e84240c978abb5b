//! The positions of the events whose characters the runs are of.

ghost use Rattle.std.specs.Prelude.{◌≡◌, ◌++◌, map, ℕ, IfOk, OnOk};
ghost use Rattle.order_tree.specs.Pairs.{runs};
ghost use Rattle.walker_record.specs.Stretches.{Stretch};
ghost use Rattle.character_runs.specs.EventPositions.{event_positions};
ghost use Rattle.character_runs.specs.Laid.{AreLabelled, chars_in, records_of};

use crate::runs::Runs;
use ew_model::NoMem;
use ew_model::node::Node;
use ew_model::steps::Steps;
use std::sync::ledger::Ledger;
use walker_record::Record;

impl Runs {
    /// The positions of the events whose characters these are, in order. The runs are the same then under new labels, and after an
    /// error for want of memory too.
    pub fn event_positions<L: Ledger>(&mut self, visits: &mut Steps<L>) -> Result<Vec<u32>, NoMem>
        requires { AreLabelled self.old.tree.pairs self.old.labels }
        ensures positions { IfOk result (λ ps. ps.items ≡ event_positions (chars_in self.old.tree.pairs)) }
        ensures laid { AreLabelled self.new.tree.pairs self.new.labels }
        ensures runs { runs self.new.tree.pairs ≡ runs self.old.tree.pairs }
    {
        let given = self.relabel_each(visits)?;
        positions_of_each(&given)
    }
}

/// The positions of the events whose characters are in some runs, in order.
fn positions_of_each(given: &Vec<(u64, (u64, Record))>) -> Result<Vec<u32>, NoMem>
    ensures { IfOk result (λ ps. ps.items ≡ event_positions (chars_in (map (λ (g : ℕ × (ℕ × Stretch)). g.1) given.now.items))) }
{
    let mut positions = Vec::new(*given.allocator());
    for k in 0..given.len() {
        let (_, (_, run)) = given[k];
        add_positions(&mut positions, &run)?;
    }
    Ok(positions)
}

/// Puts the positions of the events whose characters are in a run behind others.
fn add_positions(positions: &mut Vec<u32>, run: &Record) -> Result<(), NoMem>
    ensures { OnOk result (positions.new.items ≡ positions.old.items ++ event_positions (records_of run.now)) }
{
    if let Node::Event(from) = run.from {
        for n in 0..run.len {
            positions.push(from + n)?;
        }
    }
    Ok(())
}
