//! The name of an agent: 1 to 32 bytes, kept in place.

ghost use Rattle.std.specs.Prelude.{◌≡◌, ℕ, nat_eq, length, Some, None, true, IsTrue, IfOk, IfSome, position, not, ◌↔◌, ◌<◌, IsOk};
ghost use Rattle.std.specs.Ordering.{nat_cmp};
ghost use Rattle.std.specs.Result.{result_err};
ghost use Rattle.std.specs.Cmp.{partial_equiv_from_equiv};
ghost use Rattle.std.specs.Cmp.Rules.{comparing, hashing};
ghost use Rattle.std.specs.Cmp.Lexicographic.{pointwise, slice_cmp, texts_po};
ghost use Rattle.std.specs.Hash as fed;
ghost use Rattle.std.proofs.Common.{rules};
ghost use Rattle.std.proofs.lemmas.Cmp.{nat_list_cmp_total, nat_list_eq_equiv};
ghost use Rattle.ew_model.specs.Names.{is_name, is_name_byte, begins_with_dash, bad_place, name_fault};

use std::cmp::Ordering;
use std::fmt;
use std::hash::{Hash, Hasher};
use std::marker::Model;
use thiserror::Error;

/// The most bytes of a name.
pub const LONGEST_NAME: usize = 32;

/// Why bytes are no name. The first reason in this order is told.
#[derive(Clone, Copy, Debug, PartialEq, Eq, Error)]
pub enum NameFault {
    #[error("a name has at least one byte")]
    Empty,
    #[error("a name has at most 32 bytes")]
    TooLong,
    /// The place of the first byte that may not stand where it does, counted from 0.
    #[error("the byte at {0} may not stand in a name")]
    BadByte(u32),
}

/// The name of an agent: 1 to 32 bytes of `a-z A-Z 0-9 _ -`, of which the first isn't `-`. Contracts see the list of its
/// bytes.
#[derive(Clone, Copy)]
pub struct Name {
    bytes: [u8; 32],
    len: u8,
}

impl Model for Name {
    ghost use Rattle.std.specs.Prelude.{ℕ, List, take, length};
    ghost use Rattle.ew_model.specs.Padding.{IsPadded, padded};
    ghost use Rattle.ew_model.specs.PaddingLaws.{padded_again};

    ghost Value = { List ℕ };

    ghost view = { λ n. take n.len n.bytes };

    ghost invariant = { λ n. IsPadded n.len n.bytes };

    ghost inverse = { λ xs. record { bytes = padded xs; len = length xs } };

    ghost inverse_ok = { λ n h. λ i. record { bytes = (padded_again n.len n.bytes h).0 i; len = (padded_again n.len n.bytes h).1 i } };
}

impl Name {
    /// Reads a name.
    pub fn read(b: &[u8]) -> Result<Name, NameFault>
        ensures name { IsOk result ↔ (is_name b.now ≡ true) }
        ensures value { IfOk result (λ n. n ≡ b.now) }
        ensures fault { result_err result ≡ name_fault b.now }
    {
        if b.is_empty() {
            return Err(NameFault::Empty);
        }
        if b.len() > LONGEST_NAME {
            return Err(NameFault::TooLong);
        }
        if let Some(place) = find_bad(b) {
            return Err(NameFault::BadByte(place as u32));
        }
        let mut bytes = [0; 32];
        bytes[..b.len()].copy_from_slice(b);
        Ok(Name {
            bytes,
            len: b.len() as u8,
        })
    }

    /// The bytes of the name.
    pub fn as_slice(&self) -> &[u8]
        ensures bytes { result.now ≡ self.now }
        ensures name { is_name self.now ≡ true }
    {
        &self.bytes[..self.len as usize]
    }

    /// Whether the two are one name.
    pub fn is(&self, other: &Name) -> bool
        ensures { IsTrue result ↔ (self.now ≡ other.now) }
    {
        self.len == other.len && are_same(&self.bytes, &other.bytes)
    }
}

/// Whether the two are the same bytes. There is no way out before the end: so they are compared side by side.
fn are_same(ours: &[u8; LONGEST_NAME], theirs: &[u8; LONGEST_NAME]) -> bool
    ensures { IsTrue result ↔ (ours.now ≡ theirs.now) }
{
    let mut same = true;
    for place in 0..LONGEST_NAME {
        same &= ours[place] == theirs[place];
    }
    same
}

/// The place of the first byte that may not stand where it does.
fn find_bad(b: &[u8]) -> Option<usize>
    requires { 0 < length b.now }
    ensures place { result ≡ bad_place b.now }
    ensures within { IfSome result (λ k. k < length b.now) }
{
    if b[0] == b'-' {
        Some(0)
    } else {
        find_no_name_byte(b)
    }
}

fn find_no_name_byte(b: &[u8]) -> Option<usize>
    ensures place { result ≡ position (λ y. not (is_name_byte y)) b.now }
    ensures within { IfSome result (λ k. k < length b.now) }
{
    b.iter().position(|x| !is_name_byte(*x))
}

fn is_name_byte(x: u8) -> bool
    ensures { result ≡ is_name_byte x }
{
    x.is_ascii_alphanumeric() || x == b'_' || x == b'-'
}

impl fmt::Display for Name {
    ghost output = { λ x. Some x };

    fn fmt<W: fmt::Write>(&self, f: &mut fmt::Formatter<W>) -> fmt::Result {
        let text = str::from_utf8(self.as_slice()).map_err(|_| fmt::Error)?;
        f.write_str(text)
    }
}

impl fmt::Debug for Name {
    ghost debug_output = { λ x. Some x };

    fn fmt<W: fmt::Write>(&self, f: &mut fmt::Formatter<W>) -> fmt::Result {
        fmt::Display::fmt(self, f)
    }
}

impl PartialEq for Name {
    ghost eq = { pointwise nat_eq };

    ghost laws = { partial_equiv_from_equiv nat_list_eq_equiv };

    fn eq(&self, other: &Name) -> bool {
        self.as_slice() == other.as_slice()
    }
}

impl Eq for Name {
    ghost laws = { nat_list_eq_equiv };
}

impl PartialOrd for Name {
    ghost partial_cmp = { λ x y. Some (slice_cmp nat_cmp x y) };

    ghost laws = { texts_po };

    fn partial_cmp(&self, other: &Name) -> Option<Ordering> {
        Some(self.cmp(other))
    }
}

impl Ord for Name {
    ghost cmp = { slice_cmp nat_cmp };

    ghost total = { nat_list_cmp_total };

    ghost matches_partial_cmp = { Prim.search (comparing, rules) };

    ghost matches_eq = { Prim.search (comparing, rules) };

    fn cmp(&self, other: &Name) -> Ordering {
        self.as_slice().cmp(other.as_slice())
    }
}

impl Hash for Name {
    ghost hash_input = { fed.slice fed.u8 };

    ghost respects_eq = { Prim.search (hashing, rules) };

    fn hash<H: Hasher>(&self, state: &mut H) {
        self.as_slice().hash(state);
    }
}
