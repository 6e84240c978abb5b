//! Runs that are handed out one after another.

ghost use Rattle.std.specs.Prelude.{◌≡◌, ◌<◌, [], ◌++◌, length, IfSome, IfNone};
ghost use Rattle.operation_runs.specs.Runs.{run_ops, RunFits};
ghost use Rattle.operation_runs.specs.Stored.{ops_in, AreStored};

use crate::run::OperationRun;
use crate::stored::StoredRun;
use std::marker::Model;

/// Operations that are read run by run. Contracts see the list of those that are left.
#[derive(Drop)]
pub struct RunReader<'a> {
    runs: &'a [StoredRun],
    /// The characters of the insertions that are left.
    chars: &'a [char],
}

impl<'a> Model for RunReader<'a> {
    ghost use Rattle.std.specs.Prelude.{List};
    ghost use Rattle.ew_model.specs.declared.text_op.TextOp.{TextOp};
    ghost use Rattle.operation_runs.specs.Stored.{ops_in, AreStored};

    ghost Value = { List TextOp };

    ghost view = { λ r. ops_in r.runs.now r.chars.now };

    ghost invariant = { λ r. AreStored r.runs.now r.chars.now };
}

impl<'a> RunReader<'a> {
    /// The operations of runs whose insertions have these characters.
    pub(crate) fn new(runs: &'a [StoredRun], chars: &'a [char]) -> RunReader<'a>
        requires { AreStored runs.now chars.now }
        ensures { result ≡ ops_in runs.now chars.now }
    {
        RunReader { runs, chars }
    }

    /// The next run. None where no operation is left.
    pub fn next_run(&mut self) -> Option<OperationRun<'a>>
        ensures ops { IfSome result (λ run. self.old ≡ run_ops run ++ self.new) }
        ensures fits { IfSome result (λ run. RunFits run) }
        ensures some { IfSome result (λ run. 0 < length (run_ops run)) }
        ensures none { IfNone result ((self.old ≡ []) × (self.new ≡ [])) }
    {
        let (first, behind) = self.runs.split_first()?;
        let (chars, others) = self.chars.split_at(first.char_count());
        self.runs = behind;
        self.chars = others;
        Some(first.with_chars(chars))
    }
}
