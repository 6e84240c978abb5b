//! Reading the input whole, where it isn't above a bound.
ghost use Rattle.std.specs.Prelude.{◌≡◌, ◌<◌, ◌+◌, IfOk, IfSome};
ghost use Rattle.line_plans.specs.Inputs.{input_view, input_of, EndsInput, IsWithin, MeetsEnd};
ghost use Rattle.line_plans.specs.Sources.{SourceCauses};
ghost use Rattle.command_table.specs.Reads.{TakesAtMost};

use ew_model::limits::INPUT_PIECE;
use ew_outside::{Failed, Fault, Source};
use std::alloc::Global;

/// The input, or that there is more of it.
#[derive(Debug, Drop)]
pub enum Input {
    TooLong,
    Whole(Vec<u8>),
}

/// Reads to the end, but at most one byte more than `most`.
pub fn read_input<S: Source>(alloc: Global, source: &mut S, most: u32) -> Result<Input, Fault>
    ensures told { IfSome (S.seen source.old).left (λ xs. IfOk result (λ i. input_view i ≡ input_of most xs)) }
    ensures short { IfOk result (IsWithin most) }
    ensures end { EndsInput (S.seen source.old).left (S.seen source.new).left result }
    ensures few { TakesAtMost (most + 1) (S.seen source.old).left (S.seen source.new).left }
    ensures cause { SourceCauses (S.seen source.old).faults (S.seen source.new).faults result }
    ensures ends { MeetsEnd (S.seen source.old).ends (S.seen source.new).ends result }
{
    let bound = most as usize;
    let mut bytes = Vec::new(alloc);
    let mut buffer = [0u8; INPUT_PIECE];
    'pieces: while bytes.len() <= bound {
        let room = (bound + 1 - bytes.len()).min(INPUT_PIECE);
        let count = match source.read(&mut buffer[..room]) {
            Ok(count) => count,
            Err(Failed) => return Err(Fault::Source),
        };
        if count == 0 {
            return Ok(Input::Whole(bytes));
        }
        bytes.extend_from_slice(&buffer[..count])?;
    }
    Ok(Input::TooLong)
}
