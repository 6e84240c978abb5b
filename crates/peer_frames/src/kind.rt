//! The kinds of frames.

ghost use Rattle.std.specs.Prelude.{◌≡◌, ◌↔◌, true, IsSome, IfSome};
ghost use Rattle.peer_definitions.specs.Cutting.{is_kind};
ghost use Rattle.peer_frames.specs.Reading.{kind_byte};
ghost use Rattle.peer_definitions.specs.Spelling.{kind_of};

use peer_definitions::frame::Frame;

#[derive(Clone, Copy)]
pub(crate) enum Kind {
    Have,
    Events,
    Done,
    Took,
    Clash,
    Bye,
}

impl Kind {
    /// The kind that a frame's first byte tells.
    pub(crate) fn of_byte(byte: u8) -> Option<Kind>
        ensures some { IsSome result ↔ (is_kind byte ≡ true) }
        ensures value { IfSome result (λ kind. kind_byte kind ≡ byte) }
    {
        match byte {
            1 => Some(Kind::Have),
            2 => Some(Kind::Events),
            3 => Some(Kind::Done),
            4 => Some(Kind::Took),
            5 => Some(Kind::Clash),
            6 => Some(Kind::Bye),
            _ => None,
        }
    }

    /// The first byte of a frame of this kind.
    pub(crate) fn byte(self) -> u8
        ensures { result ≡ kind_byte self }
    {
        match self {
            Kind::Have => 1,
            Kind::Events => 2,
            Kind::Done => 3,
            Kind::Took => 4,
            Kind::Clash => 5,
            Kind::Bye => 6,
        }
    }

    /// The kind of a frame.
    pub(crate) fn of_frame(frame: &Frame) -> Kind
        ensures { kind_byte result ≡ kind_of frame.now }
    {
        match frame {
            Frame::Have(_) => Kind::Have,
            Frame::Events(_) => Kind::Events,
            Frame::Done => Kind::Done,
            Frame::Took { .. } => Kind::Took,
            Frame::Clash(_) => Kind::Clash,
            Frame::Bye => Kind::Bye,
        }
    }
}
