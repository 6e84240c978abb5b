//! A leaf of the tree: up to sixty-four characters.

ghost use Rattle.std.specs.Prelude.{◌≡◌, ◌+◌, ◌<◌, ◌≤◌, [], ◌∷◌, ◌++◌, length, take, drop, insert, slice_get, Some, encode_utf8_all, vec_capacity, IfOk, OnOk, OnErr};
ghost use Rattle.rope.specs.Counts.{wide_chars, utf8_bytes, Reaches};
ghost use Rattle.rope.specs.Deletions.{without};
ghost use Rattle.rope.specs.Extents.{extent};

use crate::extents::{Extents, Measure, extent_in, extents_in, reach_in};
use ew_model::NoMem;
use std::alloc::Global;
use std::marker::Model;

/// How many characters a leaf has at most.
pub const MOST_CHARS: usize = 64;

/// Up to sixty-four characters, with room for as many. Contracts see their list.
#[derive(Drop)]
pub struct Leaf {
    chars: Vec<char>,
}

impl Model for Leaf {
    ghost use Rattle.std.specs.Prelude.{ℕ, List, length, ◌≤◌, vec_capacity};

    ghost Value = { List ℕ };

    ghost view = { λ l. l.chars.items };

    ghost invariant = { λ l. (length l.chars.items ≤ 64) × (64 ≤ vec_capacity l.chars) };
}

impl Leaf {
    /// A leaf without characters.
    pub fn blank(alloc: Global) -> Result<Leaf, NoMem>
        ensures { IfOk result (λ l. l ≡ []) }
    {
        let chars = Vec::with_capacity(alloc, MOST_CHARS)?;
        Ok(Leaf { chars })
    }

    /// A leaf with the same characters.
    pub fn copy(&self, alloc: Global) -> Result<Leaf, NoMem>
        ensures { IfOk result (λ l. l ≡ self.now) }
    {
        let mut chars = Vec::with_capacity(alloc, MOST_CHARS)?;
        chars.extend_from_slice(self.chars.as_slice())?;
        Ok(Leaf { chars })
    }

    pub fn len(&self) -> u32
        ensures value { result ≡ length self.now }
        ensures few { length self.now ≤ 64 }
    {
        self.chars.len() as u32
    }

    pub fn char_at(&self, i: u32) -> char
        requires { i < length self.now }
        ensures { slice_get self.now i ≡ Some result }
    {
        self.chars[i as usize]
    }

    pub fn insert(&mut self, at: u32, ch: char)
        requires within { at ≤ length self.old }
        requires room { length self.old < 64 }
        ensures { self.new ≡ insert self.old at ch }
    {
        let Ok(()) = self.chars.insert(at as usize, ch) else {
            unreachable!()
        };
    }

    /// Takes characters out from an index on: so many, or all that it has there. Answers how many.
    pub fn remove(&mut self, at: u32, most: u32) -> u32
        requires within { at < length self.old }
        requires some { 1 ≤ most }
        ensures chars { self.new ≡ without self.old at result }
        ensures some { 1 ≤ result }
        ensures most { result ≤ most }
        ensures inside { at + result ≤ length self.old }
        ensures all { result < most → at + result ≡ length self.old }
    {
        let len = self.len();
        let many = most.min(len - at);
        self.chars
            .copy_within((at + many) as usize..len as usize, at as usize);
        self.chars.truncate((len - many) as usize);
        many
    }

    /// Moves the characters from an index on into an empty leaf.
    pub fn move_tail(&mut self, at: u32, to: &mut Leaf)
        requires within { at ≤ length self.old }
        requires empty { to.old ≡ [] }
        ensures left { self.new ≡ take at self.old }
        ensures right { to.new ≡ drop at self.old }
    {
        let Ok(()) = to.chars.extend_from_slice(&self.chars[at as usize..]) else {
            unreachable!()
        };
        self.chars.truncate(at as usize);
    }

    /// How much room the characters take.
    pub fn extents(&self) -> Extents
        ensures wide { result.wide ≡ wide_chars self.now }
        ensures bytes { result.bytes ≡ utf8_bytes self.now }
    {
        extents_in(self.chars.as_slice())
    }

    /// The same of so many characters from an index on, or of all that are there.
    pub fn extents_from(&self, at: u32, most: u32) -> Extents
        requires { at ≤ length self.now }
        ensures wide { result.wide ≡ wide_chars (take most (drop at self.now)) }
        ensures bytes { result.bytes ≡ utf8_bytes (take most (drop at self.now)) }
    {
        let many = most.min(self.len() - at);
        extents_in(&self.chars[at as usize..(at + many) as usize])
    }

    /// How much of a measure the characters below an index take.
    pub fn extent_before(&self, measure: Measure, at: u32) -> u64
        ensures { result ≡ extent measure (take at self.now) }
    {
        let end = at.min(self.len());
        extent_in(measure, &self.chars[..end as usize])
    }

    /// The index at which so much of a measure ends, or of the character in which it does, and how much of it is left there.
    pub fn reach(&self, measure: Measure, much: u64) -> (u32, u64)
        ensures { Reaches measure self.now much result.0 result.1 }
    {
        reach_in(measure, much, self.chars.as_slice())
    }

    /// Puts the UTF-8 of so many characters from an index on, or of as many as there are, behind the bytes of the vector. A refusal leaves
    /// the vector as it was.
    pub fn write_range(&self, from: u32, n: u32, to: &mut Vec<u8>) -> Result<(), NoMem>
        requires { from ≤ length self.now }
        ensures ok { OnOk result (to.new.items ≡ to.old.items ++ encode_utf8_all (take n (drop from self.now))) }
        ensures err { OnErr result (to.new.items ≡ to.old.items) }
    {
        let many = n.min(self.len() - from);
        write_chars(&self.chars[from as usize..(from + many) as usize], to)
    }

    /// Puts the UTF-8 of the characters behind the bytes of the vector. A refusal leaves the vector as it was.
    pub fn write_to(&self, to: &mut Vec<u8>) -> Result<(), NoMem>
        ensures ok { OnOk result (to.new.items ≡ to.old.items ++ encode_utf8_all self.now) }
        ensures err { OnErr result (to.new.items ≡ to.old.items) }
    {
        write_chars(self.chars.as_slice(), to)
    }
}

/// Puts the UTF-8 of characters behind the bytes of the vector. A refusal leaves the vector as it was.
fn write_chars(chars: &[char], to: &mut Vec<u8>) -> Result<(), NoMem>
    ensures ok { OnOk result (to.new.items ≡ to.old.items ++ encode_utf8_all chars.now) }
    ensures err { OnErr result (to.new.items ≡ to.old.items) }
{
    let before = to.len();
    for ch in chars {
        if let Err(e) = write_char(*ch, to) {
            to.truncate(before);
            return Err(e);
        }
    }
    Ok(())
}

/// The same of one character.
fn write_char(ch: char, to: &mut Vec<u8>) -> Result<(), NoMem>
    ensures ok { OnOk result (to.new.items ≡ to.old.items ++ encode_utf8_all (ch ∷ [])) }
    ensures err { OnErr result (to.new.items ≡ to.old.items) }
{
    if ch < '\u{80}' {
        to.push(ch as u8)?;
        return Ok(());
    }
    write_long_char(ch, to)
}

/// The same of one character, however many bytes it takes.
// Seldom called: kept apart, so that what is done for each character stays short.
#[inline(never)]
fn write_long_char(ch: char, to: &mut Vec<u8>) -> Result<(), NoMem>
    ensures ok { OnOk result (to.new.items ≡ to.old.items ++ encode_utf8_all (ch ∷ [])) }
    ensures err { OnErr result (to.new.items ≡ to.old.items) }
{
    let mut bytes = [0; 4];
    let text = ch.encode_utf8(&mut bytes);
    to.extend_from_slice(text.as_bytes())
}
