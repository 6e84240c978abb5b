//! Bytes in memory that are written at the end.
ghost use Rattle.std.specs.Prelude.{◌≡◌, ◌<◌, ◌≤◌, ◌-◌, ◌++◌, ◌↔◌, [], length, take, min, IsTrue, IfOk};

use std::alloc::{AllocError, Global};
use std::marker::Model;

/// The bytes taken so far, within a room that was reserved for them. It takes no memory after `new`.
#[derive(Debug, Drop)]
pub struct BoundedBytes {
    bytes: Vec<u8>,
    flushed: usize,
    room: usize,
}

impl Model for BoundedBytes {
    ghost use Rattle.std.specs.Prelude.{◌≤◌, vec_len, vec_capacity};
    ghost use Rattle.ew_outside.specs.Memory.{Intake};

    ghost Value = { Intake };

    ghost view = { λ b. record { taken = b.bytes.items; flushed = b.flushed; room = b.room } };

    ghost invariant = { λ b. (vec_len b.bytes ≤ b.room) × (b.room ≤ vec_capacity b.bytes) };
}

impl BoundedBytes {
    pub fn new(alloc: Global, room: usize) -> Result<BoundedBytes, AllocError>
        ensures { IfOk result (λ b. b ≡ record { taken = []; flushed = 0; room = room }) }
    {
        Ok(BoundedBytes {
            bytes: Vec::with_capacity(alloc, room)?,
            flushed: 0,
            room,
        })
    }

    pub fn as_slice(&self) -> &[u8]
        ensures { result.now ≡ self.now.taken }
    {
        &self.bytes
    }

    /// How many of the bytes are flushed.
    pub fn flushed(&self) -> usize
        ensures { result ≡ self.now.flushed }
    {
        self.flushed
    }

    /// Whether a piece that isn't empty finds no room left.
    pub fn refuses(&self, piece: &[u8]) -> bool
        ensures full { IsTrue result ↔ ((0 < length piece.now) × (length self.now.taken ≡ self.now.room)) }
        ensures within { length self.now.taken ≤ self.now.room }
    {
        !piece.is_empty() && self.bytes.len() == self.room
    }

    /// Takes as many bytes of the piece as there is room for.
    pub fn take(&mut self, piece: &[u8]) -> usize
        ensures count { result ≡ min (length piece.now) (self.old.room - length self.old.taken) }
        ensures after { self.new ≡ record self.old { taken = self.old.taken ++ take result piece.now } }
    {
        let count = piece.len().min(self.room - self.bytes.len());
        self.bytes.extend_from_slice(&piece[..count]).unwrap();
        count
    }

    pub fn flush(&mut self)
        ensures { self.new ≡ record self.old { flushed = length self.old.taken } }
    {
        self.flushed = self.bytes.len();
    }
}
