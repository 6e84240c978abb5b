//! Bytes in memory that are read from the front.
ghost use Rattle.std.specs.Prelude.{◌≡◌, length, take, drop, min};
ghost use Rattle.ew_outside.specs.Counts.{EndsAfter};

use crate::Counter;
use std::marker::Model;

/// The bytes that are left to read.
#[derive(Debug, Drop)]
pub struct UnreadBytes {
    bytes: Vec<u8>,
    at: usize,
}

impl Model for UnreadBytes {
    ghost use Rattle.std.specs.Prelude.{ℕ, List, drop, ◌≤◌, vec_len};

    ghost Value = { List ℕ };

    ghost view = { λ u. drop u.at u.bytes.items };

    ghost invariant = { λ u. u.at ≤ vec_len u.bytes };
}

impl UnreadBytes {
    pub fn new(bytes: Vec<u8>) -> UnreadBytes
        ensures { result ≡ bytes.items }
    {
        UnreadBytes { bytes, at: 0 }
    }

    pub fn as_slice(&self) -> &[u8]
        ensures { result.now ≡ self.now }
    {
        &self.bytes[self.at..]
    }

    /// Gives as many bytes as there is room for.
    pub fn give(&mut self, buf: &mut [u8]) -> usize
        ensures count { result ≡ min (length self.old) (length buf.new) }
        ensures given { take result buf.new ≡ take result self.old }
        ensures rest { self.new ≡ drop result self.old }
    {
        let count = copy_front(&self.bytes[self.at..], buf);
        self.at += count;
        count
    }
}

// Copies as many bytes as there is room for.
fn copy_front(from: &[u8], buf: &mut [u8]) -> usize
    ensures count { result ≡ min (length from.now) (length buf.new) }
    ensures given { take result buf.new ≡ take result from.now }
{
    let count = from.len().min(buf.len());
    buf[..count].copy_from_slice(&from[..count]);
    count
}

/// Gives as many bytes as there is room for, and counts an end where there is room and none are left.
pub fn give_and_count(left: &mut UnreadBytes, ends: &mut Counter, buf: &mut [u8]) -> usize
    ensures count { result ≡ min (length left.old) (length buf.new) }
    ensures given { take result buf.new ≡ take result left.old }
    ensures rest { left.new ≡ drop result left.old }
    ensures ends { EndsAfter (length buf.new) result ends.old ends.new }
{
    let count = left.give(buf);
    if count == 0 && !buf.is_empty() {
        ends.rise();
    }
    count
}
