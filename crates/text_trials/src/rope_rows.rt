//! Rows of a text and a plain list of characters, changed side by side: so many characters go in and are taken out again.

ghost use Rattle.std.specs.Prelude.{◌≤◌, IfOk};

use ew_model::NoMem;
use ew_model::text_op::TextOp;
use rope::Rope;
use std::alloc::Global;
use trial_rows::fault::Fault;
use trial_rows::show;
use trial_rows::words::{first_word, number};

/// The longest text that is tried.
const MOST: u32 = 100_000;

/// The text and the list.
#[derive(Drop)]
struct Both {
    text: Rope,
    list: Vec<char>,
}

/// `front 3000`: the leaves and levels of the full text and of the emptied one, and whether text and list were equal all the time.
pub fn answer(alloc: Global, asked: &str) -> Result<String, Fault> {
    let (way, many) = first_word(asked);
    let many = number(many)?;
    let mut both = Both {
        text: Rope::new(alloc)?,
        list: Vec::new(alloc),
    };
    let filled = both.change(alloc, true, way, many)?;
    let full = shape(alloc, &both.text)?;
    let emptied = both.change(alloc, false, way, many)?;
    let bare = shape(alloc, &both.text)?;
    let equal = if filled && emptied {
        "equal"
    } else {
        "DIFFERENT"
    };
    Ok(format!(in alloc; "{full}, then {bare}; {equal}")?)
}

/// The numbers of leaves and levels.
fn shape(alloc: Global, text: &Rope) -> Result<String, NoMem> {
    let shape = text.shape();
    format!(in alloc; "{} leaves, {} levels", shape.leaves, shape.depth)
}

/// Where the turn's character goes into so many: at the front, at the end, in the middle, at both ends in turn, or first at the end and
/// then in front of the last twenty.
fn place(way: &str, turn: u32, len: u32) -> Result<u32, Fault>
    ensures { IfOk result (λ at. at ≤ len) }
{
    match way {
        "front" => Ok(0),
        "end" => Ok(len),
        "middle" => Ok(len / 2),
        "caret" => Ok(if turn < 64 {
            len
        } else {
            len.saturating_sub(20)
        }),
        "both-ends" => Ok(if turn % 2 == 0 { 0 } else { len }),
        _ => Err(Fault::Unreadable),
    }
}

/// The turn's character: each is as long in UTF-8 as its turn says.
fn character(turn: u32) -> char {
    match turn % 4 {
        0 => 'a',
        1 => 'é',
        2 => '語',
        _ => '😀',
    }
}

impl Both {
    /// Puts so many characters in, or takes as many out. Answers whether both were equal in some thirty turns, and at the end.
    fn change(&mut self, alloc: Global, fills: bool, way: &str, many: u32) -> Result<bool, Fault> {
        let mut equal = true;
        for turn in 0..many {
            let done = if fills {
                self.put(way, turn)?
            } else {
                self.take(way, turn)?
            };
            equal = equal && done && (turn % (many / 30).max(1) > 0 || self.is_equal(alloc)?);
        }
        Ok(equal && self.is_equal(alloc)?)
    }

    /// Puts a character in, at odd turns as an operation.
    fn put(&mut self, way: &str, turn: u32) -> Result<bool, Fault> {
        let len = self.text.len();
        if len as usize != self.list.len() || len >= MOST {
            return Ok(false);
        }
        let (at, ch) = (place(way, turn, len)?, character(turn));
        self.list.insert(at as usize, ch)?;
        if turn % 2 == 0 {
            self.text.insert(at, ch)?;
        } else {
            self.text.apply(&[TextOp::Ins { at, ch }, TextOp::Nothing])?;
        }
        Ok(true)
    }

    fn take(&mut self, way: &str, turn: u32) -> Result<bool, Fault> {
        let len = self.text.len();
        if len as usize != self.list.len() || len == 0 {
            return Ok(false);
        }
        let at = place(way, turn, len - 1)?;
        self.list.remove(at as usize);
        self.text.remove(at)?;
        Ok(true)
    }

    /// Whether both are equal: character by character, and written out.
    fn is_equal(&self, alloc: Global) -> Result<bool, NoMem> {
        let mut bytes = Vec::new(alloc);
        self.text.write_to(&mut bytes)?;
        let written = show::characters(alloc, &self.list)?;
        Ok(self.has_equal_characters() && bytes.as_slice() == written.as_bytes())
    }

    fn has_equal_characters(&self) -> bool {
        let len = self.text.len();
        for (i, ch) in self.list.iter().enumerate() {
            if i >= len as usize || self.text.char_at(i as u32) != *ch {
                return false;
            }
        }
        len as usize == self.list.len()
    }
}
