//! The list of operations.

ghost use Rattle.std.specs.Prelude.{◌≡◌, ◌<◌, [], ◌∷◌, ◌++◌, length, IfOk, OnOk, OnErr};
ghost use Rattle.operation_runs.specs.Runs.{run_ops, RunFits};
ghost use Rattle.operation_runs.specs.Stored.{op_chars, run_chars};

use crate::reader::RunReader;
use crate::run::OperationRun;
use crate::stored::{StoredRun, put};
use ew_model::NoMem;
use ew_model::text_op::TextOp;
use std::alloc::Global;
use std::marker::Model;

/// Operations on a text, one behind the other. Contracts see their list.
#[derive(Drop)]
pub struct OperationRuns {
    runs: Vec<StoredRun>,
    /// The characters of all insertions.
    chars: Vec<char>,
}

impl Model for OperationRuns {
    ghost use Rattle.std.specs.Prelude.{List};
    ghost use Rattle.ew_model.specs.declared.text_op.TextOp.{TextOp};
    ghost use Rattle.operation_runs.specs.Stored.{ops_in, AreStored};

    ghost Value = { List TextOp };

    ghost view = { λ o. ops_in o.runs.items o.chars.items };

    ghost invariant = { λ o. AreStored o.runs.items o.chars.items };
}

impl OperationRuns {
    /// No operations.
    pub fn new(alloc: Global) -> OperationRuns
        ensures { result ≡ [] }
    {
        OperationRuns {
            runs: Vec::new(alloc),
            chars: Vec::new(alloc),
        }
    }

    /// Puts an operation behind the others. Where memory is wanting they stay as they are.
    pub fn push(&mut self, op: TextOp) -> Result<(), NoMem>
        ensures ok { OnOk result (self.new ≡ self.old ++ op ∷ []) }
        ensures err { OnErr result (self.new ≡ self.old) }
    {
        self.runs.reserve(1)?;
        push_char(&mut self.chars, op)?;
        put(&mut self.runs, StoredRun::of_one(op));
        Ok(())
    }

    /// Puts the operations of a run behind the others. Where memory is wanting they stay as they are.
    pub fn push_run(&mut self, run: OperationRun<'_>) -> Result<(), NoMem>
        requires fits { RunFits run }
        requires some { 0 < length (run_ops run) }
        ensures ok { OnOk result (self.new ≡ self.old ++ run_ops run.entry) }
        ensures err { OnErr result (self.new ≡ self.old) }
    {
        self.runs.reserve(1)?;
        push_chars(&mut self.chars, run)?;
        put(&mut self.runs, StoredRun::of(run));
        Ok(())
    }

    /// All of them, to be read run by run.
    pub fn reader(&self) -> RunReader<'_>
        ensures { result ≡ self.now }
    {
        RunReader::new(&self.runs, &self.chars)
    }

    /// The operations as a list.
    pub fn to_vec(&self, alloc: Global) -> Result<Vec<TextOp>, NoMem>
        ensures { IfOk result (λ v. v.items ≡ self.now) }
    {
        let mut ops = Vec::new(alloc);
        let mut reader = self.reader();
        while let Some(run) = reader.next_run() {
            run.push_to(&mut ops)?;
        }
        Ok(ops)
    }
}

/// Puts the character of an insertion behind others. Where memory is wanting they stay as they are.
fn push_char(chars: &mut Vec<char>, op: TextOp) -> Result<(), NoMem>
    ensures ok { OnOk result (chars.new.items ≡ chars.old.items ++ op_chars op) }
    ensures err { OnErr result (chars.new.items ≡ chars.old.items) }
{
    if let TextOp::Ins { at: _, ch } = op {
        chars.push(ch)?;
    }
    Ok(())
}

/// Puts the characters of a run behind others. Where memory is wanting they stay as they are.
fn push_chars(chars: &mut Vec<char>, run: OperationRun<'_>) -> Result<(), NoMem>
    ensures ok { OnOk result (chars.new.items ≡ chars.old.items ++ run_chars run.entry) }
    ensures err { OnErr result (chars.new.items ≡ chars.old.items) }
{
    match run {
        OperationRun::Insertions { at: _, chars: more } => chars.extend_from_slice(more),
        OperationRun::Deletions { .. }
        | OperationRun::BackDeletions { .. }
        | OperationRun::Nothings { .. } => Ok(()),
    }
}
