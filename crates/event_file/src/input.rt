//! The content of a file as it is read, and the fields that stand in it.

ghost use Rattle.std.specs.Prelude.{◌≡◌, true, [], nat_lt, Ok, IfSome};
ghost use Rattle.file_words.specs.FileFaults.{byte, number, field, only, is_scalar, read_name, read_mark, read_op};
ghost use Rattle.file_words.specs.FileFaults.RecordFault.{KindBad, Scalar};
ghost use Rattle.file_words.specs.FileRuns.{read_text};
ghost use Rattle.event_file.specs.Runs.{numbers_in};
ghost use Rattle.event_file.specs.Progress.{BeginsBy};
ghost use Rattle.event_file.specs.Reading.{Gives};

use crate::fault::{RecordFault, Stop, bad_field};
use crate::format::{BACK_DELETIONS, DELETION, INSERTION, MARK};
use crate::short_id::ShortId;
use ew_model::event::Op;
use ew_model::name::{LONGEST_NAME, Name};

/// The bytes that aren't read yet. What is read is taken off their front.
#[derive(Drop)]
pub(crate) struct Input<'a> {
    pub(crate) left: &'a [u8],
}

impl<'a> Input<'a> {
    pub(crate) fn byte(&mut self) -> Result<u8, Stop>
        ensures { Gives (λ b. (b, self.new.left.now)) result (byte self.old.left.now) }
    {
        match self.left {
            [] => Err(bad_field(self.left, RecordFault::Cut)),
            [b, left @ ..] => {
                self.left = left;
                Ok(*b)
            }
        }
    }

    /// A number of four bytes, the lowest first.
    pub(crate) fn number(&mut self) -> Result<u32, Stop>
        ensures { Gives (λ n. (n, self.new.left.now)) result (number self.old.left.now) }
    {
        if self.left.len() < 4 {
            return Err(bad_field(self.left, RecordFault::Cut));
        }
        let (digits, left) = self.left.split_at(4);
        self.left = left;
        Ok(u32::from_le_bytes([digits[0], digits[1], digits[2], digits[3]]))
    }

    /// Whether this byte comes next. Then it is taken off; else some bytes may be.
    fn is_byte(&mut self, b: u8) -> bool
        ensures { result ≡ true → byte self.old.left.now ≡ Ok (b, self.new.left.now) }
    {
        match self.byte() {
            Ok(found) => found == b,
            Err(_) => false,
        }
    }

    /// Whether this number comes next. Then it is taken off; else some bytes may be.
    fn is_number(&mut self, n: usize) -> bool
        ensures { result ≡ true → number self.old.left.now ≡ Ok (n, self.new.left.now) }
    {
        match self.number() {
            Ok(found) => found as usize == n,
            Err(_) => false,
        }
    }

    /// Whether a record comes next that has this id and one parent, at this position. Then all before its operation is taken off;
    /// else some bytes may be.
    pub(crate) fn begins(&mut self, id: ShortId, parent: usize) -> bool
        ensures { result ≡ true → BeginsBy id.agent id.seq parent self.old.left.now self.new.left.now }
    {
        self.is_number(id.agent as usize)
            && self.is_number(id.seq as usize)
            && self.is_byte(1)
            && self.is_number(parent)
    }

    /// A name behind its length.
    #[tactic(auto, unfolding(file_words::specs::FileFaults::read_name))]
    pub(crate) fn name(&mut self) -> Result<Name, Stop>
        ensures { Gives (λ name. (name, self.new.left.now)) result (read_name self.old.left.now) }
    {
        let field = self.left;
        let len = self.byte()? as usize;
        if len == 0 || len > LONGEST_NAME {
            return Err(bad_field(field, RecordFault::NameBad));
        }
        if self.left.len() < len {
            return Err(bad_field(field, RecordFault::Cut));
        }
        let (text, left) = self.left.split_at(len);
        self.left = left;
        match Name::read(text) {
            Ok(name) => Ok(name),
            Err(_) => Err(bad_field(field, RecordFault::NameBad)),
        }
    }

    /// The kind of an event, its index, and the character of an insertion; or a mark's label.
    #[tactic(auto, unfolding(file_words::specs::FileFaults::read_op))]
    pub(crate) fn operation(&mut self) -> Result<Op, Stop>
        ensures { Gives (λ op. (op, self.new.left.now)) result (read_op self.old.left.now) }
    {
        let field = self.left;
        let kind = self.byte()?;
        if kind == MARK {
            return self.mark();
        }
        if kind != INSERTION && kind != DELETION {
            return Err(bad_field(field, RecordFault::KindBad));
        }
        let at = self.number()?;
        if kind == DELETION {
            return Ok(Op::Del { at });
        }
        let ch = self.character()?;
        Ok(Op::Ins { at, ch })
    }

    /// The operation of an insertion or a deletion. None where the record says something else or can't be read: then some bytes may
    /// be taken off. It reads what `operation` reads, and is short enough to be compiled into its caller.
    #[tactic(auto, unfolding(file_words::specs::FileFaults::read_op))]
    pub(crate) fn insertion_or_deletion(&mut self) -> Option<Op>
        ensures { IfSome result (λ op. read_op self.old.left.now ≡ Ok (op, self.new.left.now)) }
    {
        match self.byte() {
            Ok(INSERTION) => {
                let at = self.number().ok()?;
                let ch = self.character().ok()?;
                Some(Op::Ins { at, ch })
            }
            Ok(DELETION) => {
                let at = self.number().ok()?;
                Some(Op::Del { at })
            }
            _ => None,
        }
    }

    /// The kind of a run.
    pub(crate) fn run_kind(&mut self) -> Result<u8, Stop>
        ensures { Gives (λ kind. (kind, self.new.left.now)) result (field byte (only (λ kind. nat_lt kind 4)) KindBad self.old.left.now) }
    {
        let field = self.left;
        let kind = self.byte()?;
        if kind > BACK_DELETIONS {
            return Err(bad_field(field, RecordFault::KindBad));
        }
        Ok(kind)
    }

    /// So many characters of four bytes each: the bytes that they stand in.
    pub(crate) fn text(&mut self, count: u32) -> Result<&'a [u8], Stop>
        ensures { Gives (λ text. (numbers_in text.now, self.new.left.now)) result (read_text [] count self.old.left.now) }
    {
        let bytes = self.left;
        for _ in 0..count {
            self.character()?;
        }
        Ok(&bytes[..bytes.len() - self.left.len()])
    }

    fn mark(&mut self) -> Result<Op, Stop>
        ensures { Gives (λ op. (op, self.new.left.now)) result (read_mark self.old.left.now) }
    {
        let label = self.name()?;
        Ok(Op::Mark { label })
    }

    fn character(&mut self) -> Result<char, Stop>
        ensures { Gives (λ ch. (ch, self.new.left.now)) result (field number (only is_scalar) Scalar self.old.left.now) }
    {
        let field = self.left;
        let code = self.number()?;
        match char::from_u32(code) {
            Some(ch) => Ok(ch),
            None => Err(bad_field(field, RecordFault::Scalar)),
        }
    }
}
