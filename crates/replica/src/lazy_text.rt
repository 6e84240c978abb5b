//! A text that is made when it is asked for.

ghost use Rattle.std.specs.Prelude.{◌≡◌, [], ◌++◌, true, false, drop, length, take, None, Some, IfSome, IfOk, IfErr, OnOk, OnErr, encode_utf8_all};
ghost use Rattle.ew_model.specs.Operations.{changed_by_all};
ghost use Rattle.ew_model.specs.TextLaws.{AllFit};
ghost use Rattle.rope.specs.Extents.{extent, IsIndexBehind};
ghost use Rattle.rope.specs.Lengths.{AllStayShort};

use ew_model::NoMem;
use ew_model::text_op::TextOp;
use operation_runs::OperationRuns;
use rope::{Measure, Rope};
use std::alloc::Global;
use std::marker::Model;

/// A text. As long as nobody asks for it, it is known by the operations that make it of the empty one. Contracts see its characters,
/// the operations that it was told by, as long as nothing else came behind them, and whether it is made.
#[derive(Drop)]
pub struct LazyText {
    form: Form,
}

/// What is kept of a text.
#[derive(Drop)]
enum Form {
    Made(Rope),
    /// The operations that it was told by, what came behind them, and how many characters all of these leave of the empty text.
    Told {
        ops: OperationRuns,
        /// What came behind them.
        more: Vec<TextOp>,
        len: u32,
        /// Whether something came behind those that it was told by.
        grown: bool,
    },
}

impl Model for LazyText {
    ghost use Rattle.replica.specs.LazyTexts.{ToldText, characters_of, told_of, is_made, IsTellable};

    ghost Value = { ToldText };

    ghost view = { λ t. record { characters = characters_of t.form; told = told_of t.form; made = is_made t.form } };

    ghost invariant = { λ t. IsTellable t.form };
}

impl LazyText {
    /// The empty text.
    pub fn new(alloc: Global) -> Result<LazyText, NoMem>
        ensures { IfOk result (λ t. t ≡ record { characters = []; told = None; made = true }) }
    {
        let rope = Rope::new(alloc)?;
        Ok(LazyText {
            form: Form::Made(rope),
        })
    }

    /// What operations make of the empty text. Nothing is made of them yet. They leave `len` characters.
    pub fn told(alloc: Global, ops: OperationRuns, len: u32) -> LazyText
        requires fit { AllFit [] ops }
        requires short { AllStayShort [] ops }
        requires long { len ≡ length (changed_by_all ops []) }
        ensures { result ≡ record { characters = changed_by_all ops []; told = Some ops; made = false } }
    {
        LazyText {
            form: Form::Told {
                ops,
                more: Vec::new(alloc),
                len,
                grown: false,
            },
        }
    }

    /// Makes the text, if it isn't made yet, and keeps it: then nothing is left to make. Where memory is wanting it is as before.
    pub fn make(&mut self, alloc: Global) -> Result<(), NoMem>
        ensures characters { self.new.characters ≡ self.old.characters }
        ensures told { IfSome self.new.told (λ ops. self.old.told ≡ Some ops) }
        ensures made { OnOk result (self.new.made ≡ true) }
        ensures err { OnErr result (self.new ≡ self.old) }
    {
        match &self.form {
            Form::Made(_) => Ok(()),
            Form::Told { ops, more, .. } => {
                let rope = made(alloc, ops, more)?;
                self.form = Form::Made(rope);
                Ok(())
            }
        }
    }

    /// How many characters there are.
    pub fn len(&self) -> u32
        ensures { result ≡ length self.now.characters }
    {
        match &self.form {
            Form::Made(rope) => rope.len(),
            Form::Told { len, .. } => *len,
        }
    }

    /// The operations that it was told by, and nothing else is kept. Where something came behind them, or the text is made, it gives
    /// itself back.
    pub fn into_operations(self) -> Result<OperationRuns, LazyText>
        ensures told { IfOk result (λ ops. self.told ≡ Some ops) }
        ensures same { IfErr result (λ text. text ≡ self) }
    {
        match self.form {
            Form::Told {
                ops,
                grown: false,
                ..
            } => Ok(ops),
            form => Err(LazyText { form }),
        }
    }

    /// Something comes behind the operations that it was told by, and leaves the text as it is.
    pub fn grow(&mut self)
        ensures characters { self.new.characters ≡ self.old.characters }
        ensures told { self.new.told ≡ None }
        ensures made { self.new.made ≡ self.old.made }
    {
        match &mut self.form {
            Form::Made(_) => {}
            Form::Told { grown, .. } => *grown = true,
        }
    }

    /// Does operations to the text, which leave `after` characters. Where memory is wanting the text is as before.
    pub fn apply(&mut self, changes: &[TextOp], after: u32) -> Result<(), NoMem>
        requires fit { AllFit self.old.characters changes.now }
        requires short { AllStayShort self.old.characters changes.now }
        requires long { after ≡ length (changed_by_all changes.now self.old.characters) }
        ensures ok { OnOk result (self.new.characters ≡ changed_by_all changes.now self.old.characters) }
        ensures told { OnOk result (self.new.told ≡ None) }
        ensures made { self.new.made ≡ self.old.made }
        ensures err { OnErr result (self.new ≡ self.old) }
    {
        match &mut self.form {
            Form::Made(rope) => rope.apply(changes),
            Form::Told {
                more,
                len,
                grown,
                ..
            } => {
                more.extend_from_slice(changes)?;
                *len = after;
                *grown = true;
                Ok(())
            }
        }
    }

    /// How much of a measure the characters below an index take, or all where there are fewer. Memory is needed only where the text isn't
    /// made yet.
    pub fn extent_before(&self, alloc: Global, measure: Measure, at: u32) -> Result<u64, NoMem>
        ensures { IfOk result (λ much. much ≡ extent measure (take at self.now.characters)) }
    {
        match &self.form {
            Form::Made(rope) => Ok(rope.extent_before(measure, at)),
            Form::Told { ops, more, .. } => {
                let rope = made(alloc, ops, more)?;
                Ok(rope.extent_before(measure, at))
            }
        }
    }

    /// The index before which the characters take just so much of a measure. Memory is needed only where the text isn't made yet.
    pub fn index_behind(
        &self,
        alloc: Global,
        measure: Measure,
        much: u64,
    ) -> Result<Option<u32>, NoMem>
        ensures { IfOk result (λ at. IsIndexBehind measure self.now.characters much at) }
    {
        match &self.form {
            Form::Made(rope) => Ok(rope.index_behind(measure, much)),
            Form::Told { ops, more, .. } => {
                let rope = made(alloc, ops, more)?;
                Ok(rope.index_behind(measure, much))
            }
        }
    }

    /// Writes so many characters from an index on, or as many as there are, behind the bytes, in UTF-8.
    pub fn write_range(&self, from: u32, n: u32, to: &mut Vec<u8>) -> Result<(), NoMem>
        ensures { OnOk result (to.new.items ≡ to.old.items ++ encode_utf8_all (take n (drop from self.now.characters))) }
    {
        match &self.form {
            Form::Made(rope) => rope.write_range(from, n, to),
            Form::Told { ops, more, .. } => {
                let rope = made(*to.allocator(), ops, more)?;
                rope.write_range(from, n, to)
            }
        }
    }

    /// Writes the text behind the bytes, in UTF-8.
    pub fn write_to(&self, to: &mut Vec<u8>) -> Result<(), NoMem>
        ensures { OnOk result (to.new.items ≡ to.old.items ++ encode_utf8_all self.now.characters) }
    {
        match &self.form {
            Form::Made(rope) => rope.write_to(to),
            Form::Told { ops, more, .. } => {
                let rope = made(*to.allocator(), ops, more)?;
                rope.write_to(to)
            }
        }
    }
}

/// What operations and more of them behind make of the empty text.
fn made(alloc: Global, ops: &OperationRuns, more: &[TextOp]) -> Result<Rope, NoMem>
    requires fit { AllFit [] (ops.now ++ more.now) }
    requires short { AllStayShort [] (ops.now ++ more.now) }
    ensures { IfOk result (λ text. text.chars ≡ changed_by_all (ops.now ++ more.now) []) }
{
    let mut text = Rope::written(alloc, ops)?;
    text.apply(more)?;
    Ok(text)
}
