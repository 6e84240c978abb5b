//! A child that comes in.

ghost use Rattle.std.specs.Prelude.{◌≡◌, true, false, Some, None, [], ◌∷◌, ◌++◌, OnOk, OnErr};
ghost use Rattle.ew_model.specs.declared.node.Node.{Node as Nodes};
ghost use Rattle.ew_model.specs.declared.node.Node.TheVariants as nodes;
ghost use Rattle.fugue_place.specs.Attachments.{is_attached, is_there, has_id};
ghost use Rattle.character_runs.specs.Labelled.{label_of, Sets};
ghost use Rattle.character_runs.specs.Entering.{run_of, attached_by};

use crate::labels::Labels;
use crate::slot::Slot;
use ew_model::NoMem;
use ew_model::id::Id;
use ew_model::node::Node;
use fugue_place::Siblings;
use walker_record::Record;

/// A child that is to be attached: the event at a position inserts it.
#[derive(Clone, Copy)]
pub struct Child {
    pub slot: Slot,
    pub id: Id,
    pub position: u32,
}

impl Child {
    /// Its node.
    pub fn node(&self) -> Node
        ensures { result ≡ nodes.Event self.now.position }
    {
        Node::Event(self.position)
    }

    /// Its run before it has a place among the characters.
    pub fn empty_run(&self) -> Record
        ensures { result ≡ run_of self.now 0 }
    {
        Record {
            from: self.node(),
            len: 0,
            prepared: 1,
            effect: true,
        }
    }

    /// The run of its character.
    pub fn run(&self) -> Record
        ensures { result ≡ run_of self.now 1 }
    {
        Record {
            from: self.node(),
            len: 1,
            prepared: 1,
            effect: true,
        }
    }

    /// Attaches it.
    pub fn attach(&self, siblings: &mut Siblings) -> Result<(), NoMem>
        requires parent { is_there siblings.old self.now.slot.parent ≡ true }
        requires unused { has_id siblings.old self.now.id ≡ false }
        requires new { is_attached siblings.old (nodes.Event self.now.position) ≡ false }
        ensures ok { OnOk result (siblings.new ≡ siblings.old ++ attached_by self.now ∷ []) }
        ensures err { OnErr result (siblings.new ≡ siblings.old) }
    {
        let Slot { parent, side } = self.slot;
        siblings.attach(parent, side, self.id, self.node())
    }

    /// Attaches it, and gives its node a label.
    pub fn enlist(
        &self,
        label: u64,
        labels: &mut Labels,
        siblings: &mut Siblings,
    ) -> Result<(), NoMem>
        requires parent { is_there siblings.old self.now.slot.parent ≡ true }
        requires unused { has_id siblings.old self.now.id ≡ false }
        requires new { is_attached siblings.old (nodes.Event self.now.position) ≡ false }
        requires bare { label_of labels.old (nodes.Event self.now.position) ≡ None }
        ensures ok { OnOk result (siblings.new ≡ siblings.old ++ attached_by self.now ∷ []) }
        ensures err { OnErr result (siblings.new ≡ siblings.old) }
        ensures sets { OnOk result (Sets labels.old labels.new (nodes.Event self.now.position) (Some label)) }
        ensures same { OnErr result ((v : Nodes) → label_of labels.new v ≡ label_of labels.old v) }
    {
        let node = self.node();
        labels.insert(node, label)?;
        match self.attach(siblings) {
            Ok(()) => Ok(()),
            Err(e) => {
                labels.remove(node);
                Err(e)
            }
        }
    }
}
