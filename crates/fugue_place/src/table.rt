//! The attached children.

ghost use Rattle.std.specs.Prelude.{◌≡◌, ◌+◌, ◌<◌, ◌^◌, true, false, [], ◌∷◌, ◌++◌, IsTrue, IfOk, OnOk, OnErr};
ghost use Rattle.fugue_place.specs.Attachments.{is_event, is_attached, is_there, has_id, MayAttach};
ghost use Rattle.fugue_place.specs.Heirs.{is_heir, HaveHeirs, AreNew};
ghost use Rattle.fugue_place.specs.Neighbours.{has_beyond, SomeRightChild, EveryRightChild, IsPlaceOfNew};

use crate::child::{Attached, Side, is_heir};
use crate::children::Children;
use crate::known::has_known_right;
use crate::leaders::leader_of;
use crate::led::enlist_behind;
use crate::neighbour::Place;
use crate::places::Places;
use crate::search::place_of_new;
use crate::spot::Spot;
use crate::ways::Ways;
use ew_model::NoMem;
use ew_model::id::Id;
use ew_model::node::Node;
use std::alloc::Global;
use std::collections::BTreeMap;
use std::marker::Model;

/// The children of all nodes of a tree. Contracts see the list of them, in the order in which they were attached.
#[derive(Drop)]
pub struct Siblings {
    children: Children,
    /// The place of each child in that list, by parent, side and id, but for heirs.
    spots: BTreeMap<Spot, usize>,
    /// The place of each child by its node.
    places: Places,
    /// Where subtrees begin.
    left: Ways,
    /// Where subtrees end.
    right: Ways,
}

impl Model for Siblings {
    ghost use Rattle.std.specs.Prelude.{List, []};
    ghost use Rattle.std.specs.BTreeMap.{get};
    ghost use Rattle.fugue_place.specs.declared.child.Attached.{Attached};
    ghost use Rattle.fugue_place.specs.Kept.{AreSiblings};
    ghost use Rattle.fugue_place.specs.Spots.{spot_cmp};

    ghost Value = { List Attached };

    ghost view = { λ s. s.children.items };

    ghost invariant = { λ s. AreSiblings s.children.items (get spot_cmp s.spots) s.places s.left s.right };
}

impl Siblings {
    /// No children.
    pub fn new(alloc: Global) -> Result<Siblings, NoMem>
        ensures { IfOk result (λ s. s ≡ []) }
    {
        Ok(Siblings {
            children: Children::new(alloc),
            spots: BTreeMap::new(alloc),
            places: Places::new(alloc),
            left: Ways::new(Side::Left, alloc),
            right: Ways::new(Side::Right, alloc),
        })
    }

    /// Attaches the node of an event as a child of another node, which is the root, a base character or attached.
    pub fn attach(&mut self, parent: Node, side: Side, id: Id, node: Node) -> Result<(), NoMem>
        requires event { is_event node ≡ true }
        requires new { is_attached self.old node ≡ false }
        requires parent { is_there self.old parent ≡ true }
        requires unused { has_id self.old id ≡ false }
        ensures ok { OnOk result (self.new ≡ self.old ++ record { parent = parent; side = side; id = id; node = node } ∷ []) }
        ensures err { OnErr result (self.new ≡ self.old) }
    {
        // A name has at least one byte.
        let _agent = id.agent.as_slice();
        let child = Attached {
            parent,
            side,
            id,
            node,
        };
        if is_heir(&self.children, &child) {
            self.attach_heir(child)
        } else {
            self.attach_other(child)
        }
    }

    /// Where a new child with this id would stand: behind the last node of the next lower sibling's subtree; where there is no
    /// lower sibling, ahead of the first node of the next higher one's; where there is none either, beside the parent.
    pub fn position(&self, parent: Node, side: Side, id: Id) -> Place
        requires parent { is_there self.now parent ≡ true }
        requires unused { has_id self.now id ≡ false }
        // On the right of the root no attached node may descend from a base character, and on the right of a base character
        // none from a later one.
        requires last { side ≡ Side.Right → has_beyond self.now parent ≡ false }

        ensures { IsPlaceOfNew self.now parent side id result }
    {
        place_of_new(
            &self.children,
            &self.spots,
            &self.places,
            &self.left,
            &self.right,
            parent,
            side,
            id,
        )
    }

    /// Whether an attached right child of the node is known.
    pub fn has_known_right<F: Fn(Node) -> bool>(&self, node: Node, known: F) -> bool
        requires { EveryRightChild (F.pre known) self.now node }
        ensures one { result ≡ true → SomeRightChild (λ v. F.post known v true) self.now node }
        ensures none { result ≡ false → EveryRightChild (λ v. F.post known v false) self.now node }
    {
        has_known_right(&self.children, &self.spots, &self.places, node, known)
    }

    /// Attaches a child on the right of the one that was attached last, which has no other: it is found without its spot.
    fn attach_heir(&mut self, child: Attached) -> Result<(), NoMem>
        requires may { MayAttach self.old child }
        requires heir { is_heir self.old child ≡ true }
        ensures ok { OnOk result (self.new ≡ self.old ++ child ∷ []) }
        ensures err { OnErr result (self.new ≡ self.old) }
    {
        let agent = self.children.reserve(&child.id.agent)?;
        self.places.add(&self.children, &child)?;
        self.children.push_heir(child, agent);
        self.left.go_on();
        self.right.go_on();
        Ok(())
    }

    /// Attaches the nodes of so many events behind one, each on the right of that of the event before it, under the next id of its
    /// agent. Answers whether it did: the node of the event at this position has to be the one that was attached last, the nodes of
    /// all have to rise, and there has to be room. Else nothing has changed.
    pub fn attach_heirs(&mut self, newest: u32, count: u32) -> bool
        requires few { newest + count < 2 ^ 32 }
        requires new { AreNew self.old newest count }
        ensures yes { IsTrue result → HaveHeirs self.old self.new newest count }
        ensures no { result ≡ false → self.new ≡ self.old }
    {
        if !self.places.all_rise(&self.children) || !self.children.push_heirs(newest, count) {
            return false;
        }
        self.places.add_rising(count);
        self.left.go_on_by(count);
        self.right.go_on_by(count);
        true
    }

    /// Attaches any child.
    fn attach_other(&mut self, child: Attached) -> Result<(), NoMem>
        requires may { MayAttach self.old child }
        ensures ok { OnOk result (self.new ≡ self.old ++ child ∷ []) }
        ensures err { OnErr result (self.new ≡ self.old) }
    {
        match child.side {
            Side::Left => self.attach_left(child),
            Side::Right => self.attach_right(child),
        }
    }

    /// Attaches any child on the left.
    fn attach_left(&mut self, child: Attached) -> Result<(), NoMem>
        requires may { MayAttach self.old child }
        requires side { child.side ≡ Side.Left }
        ensures ok { OnOk result (self.new ≡ self.old ++ child ∷ []) }
        ensures err { OnErr result (self.new ≡ self.old) }
    {
        let leader = leader_of(&self.children, &self.places, &self.left, &child);
        let agent = self.children.reserve(&child.id.agent)?;
        self.right.prepare(None)?;
        enlist_behind(
            &mut self.left,
            leader,
            &mut self.spots,
            &mut self.places,
            &self.children,
            &child,
        )?;
        self.children.push_reserved(child, agent);
        self.left.begin(leader);
        self.right.begin(None);
        Ok(())
    }

    /// Attaches any child on the right.
    fn attach_right(&mut self, child: Attached) -> Result<(), NoMem>
        requires may { MayAttach self.old child }
        requires side { child.side ≡ Side.Right }
        ensures ok { OnOk result (self.new ≡ self.old ++ child ∷ []) }
        ensures err { OnErr result (self.new ≡ self.old) }
    {
        let leader = leader_of(&self.children, &self.places, &self.right, &child);
        let agent = self.children.reserve(&child.id.agent)?;
        self.left.prepare(None)?;
        enlist_behind(
            &mut self.right,
            leader,
            &mut self.spots,
            &mut self.places,
            &self.children,
            &child,
        )?;
        self.children.push_reserved(child, agent);
        self.left.begin(None);
        self.right.begin(leader);
        Ok(())
    }
}
