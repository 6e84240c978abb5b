//! Frames that are found in bytes which come in pieces.

ghost use Rattle.std.specs.Prelude.{◌≡◌, ◌↔◌, [], ◌++◌, true, false, None, Some, Ok, Err, IsTrue, IsOkAnd, OnOk, OnErr, IfSome, IfErr, IfOk};
ghost use Rattle.peer_definitions.specs.Spelling.{HasSpelling, IsSoundFrame};
ghost use Rattle.peer_definitions.specs.Cutting.{Front, Finds};
ghost use Rattle.peer_frames.specs.Answers.{said, needs_memory, after_fault};

use crate::fault::FrameFault;
use crate::format::HEAD_LEN;
use crate::head::read_head;
use crate::reading::read_body;
use bytes::BytesMut;
use ew_model::NoMem;
use ew_model::limits::Limits;
use peer_definitions::frame::Frame;
use std::alloc::Global;
use std::marker::Model;

/// Finds frames in bytes that come in pieces. Contracts see its limits, the bytes that came since the last frame, and whether
/// their body was answered to be none.
#[derive(Drop)]
pub struct FrameReader {
    limits: Limits,
    buffer: BytesMut,
    /// The body in front was read, and is none.
    is_bad: bool,
}

impl Model for FrameReader {
    ghost use Rattle.std.specs.Prelude.{◌≡◌, true};
    ghost use Rattle.peer_frames.specs.Calls.{Kept};
    ghost use Rattle.peer_definitions.specs.Cutting.{Finds};
    ghost use Rattle.peer_definitions.specs.Cutting.Front.{BadBody};

    ghost Value = { Kept };

    ghost view = { λ r. record { limits = r.limits; bytes = r.buffer.items; refused = r.is_bad } };

    ghost invariant = { λ r. r.is_bad ≡ true → Finds r.limits r.buffer.items BadBody };
}

impl FrameReader {
    /// A reader that has no bytes yet. It takes no memory, and never fails.
    pub fn new(alloc: Global, limits: Limits) -> Result<FrameReader, NoMem>
        ensures { IsOkAnd result (λ reader. reader ≡ record { limits = limits; bytes = []; refused = false }) }
    {
        Ok(FrameReader {
            limits,
            buffer: BytesMut::new(alloc),
            is_bad: false,
        })
    }

    /// Whether no byte came since the last frame.
    pub fn is_empty(&self) -> bool
        ensures { IsTrue result ↔ (self.now.bytes ≡ []) }
    {
        self.buffer.is_empty()
    }

    /// Puts a piece of bytes behind those that came before. What is given behind a fault is kept too, all of it.
    pub fn feed(&mut self, piece: &[u8]) -> Result<(), NoMem>
        ensures ok { OnOk result (self.new ≡ record { limits = self.old.limits; bytes = self.old.bytes ++ piece.now; refused = self.old.refused }) }
        ensures err { OnErr result (self.new ≡ self.old) }
    {
        self.buffer.extend_from_slice(piece)
    }

    /// The frame in front of the bytes, which are taken off, or None where more bytes have to come first. Bytes that begin with
    /// no frame stay, and their fault is answered for good.
    pub fn next(&mut self) -> Result<Option<Frame>, FrameFault>
        // What is answered stands in front of the bytes.
        ensures found { IfSome (said result self.new.bytes) (λ front. Finds self.old.limits self.old.bytes front) }
        // A frame that is answered has a spelling.
        ensures frame { IfOk result (λ found. IfSome found (λ f. IsSoundFrame f × HasSpelling f)) }
        // What stands in front of the bytes is answered, unless memory runs out.
        ensures only { (front : Front) → Finds self.old.limits self.old.bytes front → IfSome (said result self.new.bytes) (λ answered. answered ≡ front) }
        // What is told without a body takes no memory, and is told in any case.
        ensures sure { (front : Front) → Finds self.old.limits self.old.bytes front → needs_memory front ≡ false → said result self.new.bytes ≡ Some front }
        // A body that was answered to be none is none for good.
        ensures again { self.old.refused ≡ true → result ≡ Err FrameFault.BadBody }
        // What is kept.
        ensures limits { self.new.limits ≡ self.old.limits }
        ensures taken { OnOk result (self.new.refused ≡ false) }
        ensures none { result ≡ Ok None → self.new ≡ self.old }
        ensures err { IfErr result (λ fault. self.new ≡ after_fault fault self.old) }
    {
        if self.is_bad {
            return Err(FrameFault::BadBody);
        }
        let alloc = *self.buffer.allocator();
        let Some(body) = read_head(&self.limits, self.buffer.as_slice())? else {
            return Ok(None);
        };
        let end = HEAD_LEN + body.len;
        match read_body(alloc, body.kind, &self.buffer.as_slice()[HEAD_LEN..end]) {
            Ok(frame) => {
                self.buffer.advance(end);
                Ok(Some(frame))
            }
            Err(FrameFault::BadBody) => {
                self.is_bad = true;
                Err(FrameFault::BadBody)
            }
            Err(fault) => Err(fault),
        }
    }
}
