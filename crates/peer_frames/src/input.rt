//! A body as it is read, and the fields that stand in it.

ghost use Rattle.std.specs.Prelude.{◌≡◌};
ghost use Rattle.file_words.specs.FileFaults.{number, field, only, is_scalar, read_mark};
ghost use Rattle.file_words.specs.FileFaults.RecordFault.{Scalar};
ghost use Rattle.std.specs.Result.{result_ok};
ghost use Rattle.peer_frames.specs.Reading.{Gives, one_byte, one_number, one_name, one_operation, one_id};

use crate::fault::FrameFault;
use crate::format::{DELETION, INSERTION, MARK};
use ew_model::event::Op;
use ew_model::id::Id;
use ew_model::name::{LONGEST_NAME, Name};

/// The bytes that aren't read yet. What is read is taken off their front.
#[derive(Drop)]
pub(crate) struct Input<'a> {
    pub(crate) left: &'a [u8],
}

impl<'a> Input<'a> {
    pub(crate) fn byte(&mut self) -> Result<u8, FrameFault>
        ensures { Gives (λ b. (b, self.new.left.now)) result (one_byte self.old.left.now) }
    {
        match self.left {
            [] => Err(FrameFault::BadBody),
            [b, left @ ..] => {
                self.left = left;
                Ok(*b)
            }
        }
    }

    /// A number of four bytes, the lowest first.
    pub(crate) fn number(&mut self) -> Result<u32, FrameFault>
        ensures { Gives (λ n. (n, self.new.left.now)) result (one_number self.old.left.now) }
    {
        if self.left.len() < 4 {
            return Err(FrameFault::BadBody);
        }
        let (digits, left) = self.left.split_at(4);
        self.left = left;
        Ok(u32::from_le_bytes([digits[0], digits[1], digits[2], digits[3]]))
    }

    /// A name behind its length.
    #[tactic(auto, unfolding(file_words::specs::FileFaults::read_name))]
    pub(crate) fn name(&mut self) -> Result<Name, FrameFault>
        ensures { Gives (λ name. (name, self.new.left.now)) result (one_name self.old.left.now) }
    {
        let len = self.byte()? as usize;
        if len == 0 || len > LONGEST_NAME || self.left.len() < len {
            return Err(FrameFault::BadBody);
        }
        let (text, left) = self.left.split_at(len);
        self.left = left;
        match Name::read(text) {
            Ok(name) => Ok(name),
            Err(_) => Err(FrameFault::BadBody),
        }
    }

    #[tactic(auto, unfolding(crate::specs::Reading::one_id))]
    pub(crate) fn id(&mut self) -> Result<Id, FrameFault>
        ensures { Gives (λ id. (id, self.new.left.now)) result (one_id self.old.left.now) }
    {
        let agent = self.name()?;
        let seq = self.number()?;
        Ok(Id { agent, seq })
    }

    /// The kind of an event, its index, and the character of an insertion; or a mark's label.
    #[tactic(auto, unfolding(file_words::specs::FileFaults::read_op))]
    pub(crate) fn operation(&mut self) -> Result<Op, FrameFault>
        ensures { Gives (λ op. (op, self.new.left.now)) result (one_operation self.old.left.now) }
    {
        let kind = self.byte()?;
        if kind == MARK {
            return self.mark();
        }
        if kind != INSERTION && kind != DELETION {
            return Err(FrameFault::BadBody);
        }
        let at = self.number()?;
        if kind == DELETION {
            return Ok(Op::Del { at });
        }
        let ch = self.character()?;
        Ok(Op::Ins { at, ch })
    }

    fn mark(&mut self) -> Result<Op, FrameFault>
        ensures { Gives (λ op. (op, self.new.left.now)) result (result_ok (read_mark self.old.left.now)) }
    {
        let label = self.name()?;
        Ok(Op::Mark { label })
    }

    fn character(&mut self) -> Result<char, FrameFault>
        ensures { Gives (λ ch. (ch, self.new.left.now)) result (result_ok (field number (only is_scalar) Scalar self.old.left.now)) }
    {
        let code = self.number()?;
        match char::from_u32(code) {
            Some(ch) => Ok(ch),
            None => Err(FrameFault::BadBody),
        }
    }
}
