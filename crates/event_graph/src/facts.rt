//! What a type tells of its values.

ghost use Rattle.std.specs.Prelude.{◌≡◌, ◌<◌, ◌^◌, true};
ghost use Rattle.std.specs.Char.{IsScalar};
ghost use Rattle.std.specs.List.{All, AllByRecursion};
ghost use Rattle.ew_model.specs.Names.{is_name};
ghost use Rattle.ew_model.specs.Sound.{IsSoundId, IsSoundOp};
ghost use Rattle.event_runs.specs.RunOps.{IndicesFit, ops_of};

use event_runs::RunOps;
use ew_model::event::Op;
use ew_model::id::Id;
use ew_model::name::Name;

/// Values whose parts lie in the ranges of their types. A proof knows how far a number reaches, and how long a name is, only where
/// code reads it. So `facts` reads each part and says where it lies. When the program runs, it does nothing.
pub trait Facts {
    /// Each part lies in the range of its type.
    ghost is_sound: { Self → Type 0 };

    /// Does nothing: what it says is true of each value.
    fn facts(&self)
        ensures { is_sound self.now };
}

impl Facts for Id {
    ghost is_sound = { λ x. IsSoundId x };

    fn facts(&self) {
        let _agent = self.agent.as_slice();
        let _number = self.seq;
    }
}

impl Facts for Op {
    ghost is_sound = { λ op. IsSoundOp op };

    fn facts(&self) {
        match self {
            Op::Ins { at, ch } => {
                let _index = *at;
                let _character = *ch;
            }
            Op::Del { at } => {
                let _index = *at;
            }
            Op::Mark { label } => {
                let _label = label.as_slice();
            }
        }
    }
}

impl<'a> Facts for RunOps<'a> {
    ghost is_sound = { λ ops. IndicesFit ops → AllByRecursion IsSoundOp (ops_of ops) };

    fn facts(&self) {
        match *self {
            RunOps::Insertions { at, text } => {
                let _index = at;
                read_characters(text);
            }
            RunOps::Deletions { at, count: _ } => {
                let _index = at;
            }
            RunOps::BackDeletions { at, count: _ } => {
                let _index = at;
            }
        }
    }
}

/// Each of the characters is a Unicode scalar value.
fn read_characters(text: &[char])
    ensures { All IsScalar text.now }
{
    for ch in text {
        let _character = *ch;
    }
}

impl Facts for (Name, u32) {
    ghost is_sound = { λ own. (is_name own.0 ≡ true) × (own.1 < 2 ^ 32) };

    fn facts(&self) {
        let (agent, count) = self;
        let _agent = agent.as_slice();
        let _count = *count;
    }
}
