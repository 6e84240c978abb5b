//! How a run ends, once its reply is made.
ghost use Rattle.std.specs.Prelude.{◌≡◌};
ghost use Rattle.command_runs.specs.Endings.{EndFiles, EndFlushed, EndOut, EndShelfCount, EndSinkCount, EndStores, EndsReply, IsTold, IsToldWhole, PrintLeaves, SaysNone, end_status, end_text, fault_status, fault_text};
ghost use Rattle.command_table.specs.Text.{disk_failed};
ghost use Rattle.ew_outside.specs.Bytes.{IsFlushed};
ghost use Rattle.ew_outside.specs.Counts.{IsQuiet};
ghost use Rattle.ew_outside.specs.Outputs.{Tells};

use command_texts::refusal::Refusal;
use ew_model::NoMem;
use ew_outside::{Failed, Fault, Shelf, Sink, write_and_flush};
use opened_files::reply::Reply;
use std::alloc::Global;

/// A refused line, as it is told.
#[derive(Debug, Drop)]
pub struct Told {
    pub status: u8,
    pub text: Vec<u8>,
}

/// A run that did all, or was refused; or the fault that stopped it.
pub type Ending = Result<Option<Told>, Fault>;

/// Writes the bytes and flushes them.
fn print<K: Sink>(out: &mut K, bytes: &[u8]) -> Ending
    ensures out { PrintLeaves result (K.seen out.old) (K.seen out.new) bytes.now }
{
    match write_and_flush(out, bytes) {
        Ok(()) => Ok(None),
        Err(Failed) => Err(Fault::Sink),
    }
}

/// The text of a refusal, with its status.
fn refuse(alloc: Global, why: &Refusal) -> Ending
    ensures { IsTold why.now result }
{
    match why.text(alloc) {
        Ok(text) => Ok(Some(Told {
            status: why.status(),
            text,
        })),
        Err(NoMem) => Err(Fault::OutOfMemory),
    }
}

/// Stores and prints what a reply says; nothing, where there is none.
pub fn carry_out<H: Shelf, K: Sink>(
    alloc: Global,
    planned: Result<Reply, Fault>,
    shelf: &mut H,
    out: &mut K,
) -> Ending
    ensures which { EndsReply planned result }
    ensures files { EndFiles planned result (H.seen shelf.old).files (H.seen shelf.new).files }
    ensures out { EndOut planned result (K.seen out.old).taken (K.seen out.new).taken (K.seen out.new).flushed }
    ensures flushed { EndFlushed planned result (K.seen out.old).flushed (K.seen out.new).flushed }
    ensures shelf { EndShelfCount planned result (H.seen shelf.old).faults (H.seen shelf.new).faults }
    ensures sink { EndSinkCount planned result (K.seen out.old).faults (K.seen out.new).faults }
    ensures misses { (H.seen shelf.new).misses ≡ (H.seen shelf.old).misses }
    ensures loads { (H.seen shelf.new).loads ≡ (H.seen shelf.old).loads }
    ensures failed_loads { (H.seen shelf.new).failed_loads ≡ (H.seen shelf.old).failed_loads }
    ensures asked { (H.seen shelf.new).asked ≡ (H.seen shelf.old).asked }
    ensures stores { EndStores planned result (H.seen shelf.old).stores (H.seen shelf.new).stores }
{
    match planned {
        Err(fault) => Err(fault),
        Ok(Reply::Refuses(why)) => refuse(alloc, &why),
        Ok(Reply::Prints(bytes)) => print(out, &bytes),
        Ok(
            Reply::Stores {
                out: text,
                name,
                bytes,
            },
        ) => match shelf.store(name.as_str(), &bytes) {
            Ok(()) => print(out, &text),
            Err(fault) => Err(Fault::from(fault)),
        },
    }
}

/// Tells that the disk failed.
pub fn tell_disk<E: Sink>(err: &mut E) -> u8
    ensures status { result ≡ 6 }
    ensures text { Tells (E.seen err.old).taken (E.seen err.new).taken (E.seen err.old).faults (E.seen err.new).faults disk_failed }
    ensures flushed { IsQuiet (E.seen err.old).faults (E.seen err.new).faults → IsFlushed (E.seen err.new).taken (E.seen err.new).flushed }
{
    say(err, b"egw: disk failed\n", 6)
}

/// Answers the status, and tells what there is to tell.
pub fn tell<E: Sink>(ending: Ending, err: &mut E) -> u8
    ensures status { result ≡ end_status ending }
    ensures text { Tells (E.seen err.old).taken (E.seen err.new).taken (E.seen err.old).faults (E.seen err.new).faults (end_text ending) }
    ensures silent { SaysNone ending (E.seen err.old) (E.seen err.new) }
    ensures flushed { IsToldWhole ending (E.seen err.old) (E.seen err.new) }
{
    match ending {
        Ok(None) => 0,
        Ok(Some(refusal)) => say(err, &refusal.text, refusal.status),
        Err(fault) => say(err, text_of(fault), status_of(fault)),
    }
}

// Tells a text as far as it can and flushes it, and answers the status all the same.
fn say<E: Sink>(err: &mut E, text: &[u8], status: u8) -> u8
    ensures status { result ≡ status }
    ensures text { Tells (E.seen err.old).taken (E.seen err.new).taken (E.seen err.old).faults (E.seen err.new).faults text.now }
    ensures flushed { IsQuiet (E.seen err.old).faults (E.seen err.new).faults → IsFlushed (E.seen err.new).taken (E.seen err.new).flushed }
{
    let _ = write_and_flush(err, text);
    status
}

fn text_of(fault: Fault) -> &'static [u8]
    ensures { result.now ≡ fault_text fault }
{
    match fault {
        Fault::Shelf => b"egw: shelf failed\n",
        Fault::Source => b"egw: source failed\n",
        Fault::Sink => b"egw: sink failed\n",
        Fault::OutOfMemory => b"egw: out of memory\n",
    }
}

fn status_of(fault: Fault) -> u8
    ensures { result ≡ fault_status fault }
{
    match fault {
        Fault::Shelf | Fault::Source | Fault::Sink => 6,
        Fault::OutOfMemory => 8,
    }
}
