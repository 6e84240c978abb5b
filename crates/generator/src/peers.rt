//! The three peers.

ghost use Rattle.std.specs.Prelude.{◌≡◌, ◌<◌, ◌≤◌, ◌+◌, ◌^◌, [], ◌∷◌, true, false, length, slice_get, Some, IfOk, IfErr, OnOk, OnErr, IsTrue, ◌↔◌};
ghost use Rattle.ew_model.specs.Edits.Edit.{Insert};
ghost use Rattle.ew_model.specs.Kept.{is_awaited};
ghost use Rattle.ew_model.specs.Texts.{text_of};
ghost use Rattle.history_laws.specs.Repeats.{without_held};
ghost use Rattle.replica.specs.Answers.{EditsBy};
ghost use Rattle.generator.specs.Answers.{TellsStop};
ghost use Rattle.peer_definitions.specs.Draws.{drawn_edit, letter};
ghost use Rattle.peer_definitions.specs.Making as model;
ghost use Rattle.peer_definitions.specs.Making.{neighbours_agree, drawn_step, gives, newcomer, peer_at};
ghost use Rattle.peer_definitions.specs.Making.Made.{Going};
ghost use Rattle.generator.specs.Owning.{ArePeers};
ghost use Rattle.peer_definitions.specs.Touches.{gift_touches};

use crate::draws::Draws;
use ew_model::NoMem;
use ew_model::event::Event;
use ew_model::limits::Limits;
use ew_model::name::Name;
use ew_model::steps::Steps;
use replica::{EditFault, Replica};
use std::alloc::Global;
use std::sync::ledger::Ledger;

/// How many peers there are.
const PEERS: u32 = 3;

/// Three replicas of one set of limits.
#[derive(Drop)]
pub struct Peers {
    alloc: Global,
    replicas: Vec<Replica>,
}

impl Peers {
    /// Peers without events.
    pub fn new(alloc: Global, limits: Limits) -> Result<Peers, NoMem>
        ensures { IfOk result (λ p. p.replicas.items ≡ newcomer limits ∷ newcomer limits ∷ newcomer limits ∷ []) }
    {
        let mut replicas = Vec::with_capacity(alloc, PEERS as usize)?;
        replicas.push(Replica::new(alloc, limits)?)?;
        replicas.push(Replica::new(alloc, limits)?)?;
        replicas.push(Replica::new(alloc, limits)?)?;
        Ok(Peers { alloc, replicas })
    }

    /// A drawn peer makes a drawn edit.
    pub fn edit<L: Ledger>(
        &mut self,
        draws: &mut Draws,
        steps: &mut Steps<L>,
    ) -> Result<(), EditFault>
        requires { ArePeers self.old.replicas.items }
        ensures made { OnOk result (drawn_step (record { state = draws.old.state; peers = self.old.replicas.items }) ≡ Going (record { state = draws.new.state; peers = self.new.replicas.items })) }
        ensures stopped { IfErr result (TellsStop (drawn_step (record { state = draws.old.state; peers = self.old.replicas.items }))) }
        ensures kept { OnOk result (ArePeers self.new.replicas.items) }
        ensures steps { steps.new ≡ steps.old }
    {
        let who = draws.draw() % PEERS;
        let alloc = self.alloc;
        let peer = &mut self.replicas[who as usize];
        edit_by(alloc, peer, agent_of(who), draws, steps)?;
        Ok(())
    }

    /// One peer gives its events to another: those that the other doesn't hold, which leaves what all of them would. It takes at
    /// most the touches of receiving them.
    pub fn give<L: Ledger>(
        &mut self,
        giver: usize,
        taker: usize,
        steps: &mut Steps<L>,
    ) -> Result<(), NoMem>
        requires peers { ArePeers self.old.replicas.items }
        requires giver { giver < 3 }
        requires taker { taker < 3 }
        ensures given { OnOk result (self.new.replicas.items ≡ gives giver taker self.old.replicas.items) }
        ensures kept { OnOk result (ArePeers self.new.replicas.items) }
        ensures most { steps.new ≤ steps.old + gift_touches giver taker self.old.replicas.items }
    {
        let events = self.missing(giver, taker)?;
        match self.replicas[taker].receive(events, steps) {
            Ok(_) => Ok(()),
            Err(_) => Err(NoMem),
        }
    }

    /// The events of one peer that another doesn't hold, in order.
    fn missing(&self, giver: usize, taker: usize) -> Result<Vec<Event>, NoMem>
        requires peers { ArePeers self.now.replicas.items }
        requires giver { giver < 3 }
        requires taker { taker < 3 }
        ensures missing { IfOk result (λ v. v.items ≡ without_held (peer_at self.now.replicas.items taker).held (peer_at self.now.replicas.items giver).held) }
        ensures few { IfOk result (λ v. length v.items < 2 ^ 32) }
    {
        let _most = self.replicas[giver].limits().events();
        let known = self.replicas[taker].graph().summary()?;
        self.replicas[giver].graph().missing(&known)
    }

    /// The first peer.
    pub fn first(&self) -> &Replica
        requires { ArePeers self.now.replicas.items }
        ensures { result.now ≡ peer_at self.now.replicas.items 0 }
    {
        &self.replicas[0]
    }

    /// Whether all hold the same events.
    pub fn agree(&self) -> bool
        requires { ArePeers self.now.replicas.items }
        ensures { result ≡ neighbours_agree self.now.replicas.items }
    {
        self.replicas[0].agrees(&self.replicas[1]) && self.replicas[1].agrees(&self.replicas[2])
    }
}

/// The agent of a peer.
fn agent_of(who: u32) -> Name
    ensures { result ≡ model.agent_of who }
{
    let bytes: &[u8] = match who {
        0 => b"p0",
        1 => b"p1",
        _ => b"p2",
    };
    match Name::read(bytes) {
        Ok(name) => name,
        Err(_) => unreachable!(),
    }
}

/// A replica is edited as it is drawn.
fn edit_by<L: Ledger>(
    alloc: Global,
    replica: &mut Replica,
    agent: Name,
    draws: &mut Draws,
    steps: &mut Steps<L>,
) -> Result<u32, EditFault>
    requires { is_awaited replica.old.held replica.old.waiting agent ≡ false }
    ensures edits { EditsBy agent (drawn_edit draws.old.state (length (text_of replica.old.held))).edit replica.old replica.new result }
    ensures drawn { draws.new.state ≡ (drawn_edit draws.old.state (length (text_of replica.old.held))).state }
    ensures steps { steps.new ≡ steps.old }
{
    let _most = replica.limits().events();
    let len = replica.len();
    let deletes = draws.draw() % 4 == 0;
    let place = draws.draw();
    if deletes && len != 0 {
        replica.delete(agent, place % len, 1, steps)
    } else {
        let number = draws.draw();
        insert_letter(alloc, replica, agent, place % (len + 1), number, steps)
    }
}

/// Inserts a letter, counted from `a` round and round.
fn insert_letter<L: Ledger>(
    alloc: Global,
    replica: &mut Replica,
    agent: Name,
    at: u32,
    number: u32,
    steps: &mut Steps<L>,
) -> Result<u32, EditFault>
    requires { is_awaited replica.old.held replica.old.waiting agent ≡ false }
    ensures edits { EditsBy agent (Insert at (letter number ∷ [])) replica.old replica.new result }
    ensures steps { steps.new ≡ steps.old }
{
    let mut text = String::new(alloc);
    text.push(letter(number))?;
    replica.insert(agent, at, &text, steps)
}

fn letter(number: u32) -> char
    ensures { result ≡ letter number }
{
    char::from(b'a' + (number % 26) as u8)
}
