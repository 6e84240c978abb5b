//! Writing all of a piece.
ghost use Rattle.std.specs.Prelude.{◌≡◌, OnErr, OnOk};
ghost use Rattle.ew_outside.specs.Bytes.{IsFlushed};
ghost use Rattle.ew_outside.specs.Counts.{Counts};
ghost use Rattle.ew_outside.specs.Outputs.{Takes};

use crate::{Failed, Sink};

/// Writes all of the bytes, or a front of them and then a fault.
pub fn write_all<K: Sink>(out: &mut K, bytes: &[u8]) -> Result<(), Failed>
    ensures bytes { Takes (K.seen out.old).taken (K.seen out.new).taken bytes.now result }
    ensures flushed { (K.seen out.new).flushed ≡ (K.seen out.old).flushed }
    ensures cause { Counts (K.seen out.old).faults (K.seen out.new).faults result }
{
    let mut done = 0usize;
    'pieces: while done < bytes.len() {
        done += out.write(&bytes[done..])?;
    }
    Ok(())
}

/// Writes all of the bytes and flushes them.
pub fn write_and_flush<K: Sink>(out: &mut K, bytes: &[u8]) -> Result<(), Failed>
    ensures bytes { Takes (K.seen out.old).taken (K.seen out.new).taken bytes.now result }
    ensures flushed { OnOk result (IsFlushed (K.seen out.new).taken (K.seen out.new).flushed) }
    ensures unflushed { OnErr result ((K.seen out.new).flushed ≡ (K.seen out.old).flushed) }
    ensures cause { Counts (K.seen out.old).faults (K.seen out.new).faults result }
{
    write_all(out, bytes)?;
    out.flush()
}
