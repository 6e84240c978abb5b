//! A disk in memory, which keeps its calls, and fails where a test asks for it.

ghost use Rattle.std.specs.Prelude.{◌≡◌, ◌≤◌, ◌⊎◌, false, List, [], ◌∷◌, ◌++◌, refl, length, take, Option, Some, Result, Ok, Err, OnOk, OnErr, IfOk, IsErr, is_err};
ghost use Rattle.ew_outside.specs.Counts.{Counts, next};
ghost use Rattle.ew_outside.specs.Memory.{after_call};
ghost use Rattle.event_journal.specs.Disk.{written, IsTorn, ReadGives, WriteLeaves, LeavesJust, LeavesNoMore, LeavesTorn, Passes};
ghost use Rattle.event_journal.specs.MemDisk.{after, content, leaves, MayLeave, LeftSince, KeepsCall, KeepsWrite};
ghost use Rattle.event_journal.specs.Replay.{reads_one, counts_now, only_now};

use crate::disk::Disk;
use ew_model::NoMem;
use ew_outside::{Calls, Counter, Failed};
use std::alloc::Global;
use std::marker::Model;

/// A call of a disk.
#[derive(Drop)]
pub enum DiskCall {
    Len {
        failed: bool,
    },
    Read {
        at: u64,
        room: usize,
        failed: bool,
    },
    Write {
        at: u64,
        bytes: Vec<u8>,
    },
    /// A write that failed, and what stands there in place of its bytes.
    FailedWrite {
        at: u64,
        bytes: Vec<u8>,
        left: Vec<u8>,
    },
    Sync {
        failed: bool,
    },
}

/// What stands in place of a write that isn't synced, or that failed: so many of its first bytes, or one byte all over.
#[derive(Clone, Copy, Debug)]
pub enum Tear {
    Front { count: usize },
    Noise { byte: u8 },
}

/// Bytes in memory. Exactly the listed calls fail, and those that memory ran out for. Of a write that is listed there stands what the
/// tear says; any other call that failed changed nothing. Each call is kept, and a write with its bytes, so this disk is for trials. Of
/// the calls that memory ran out for it is kept how many they were, and no more.
#[derive(Drop)]
pub struct MemDisk {
    alloc: Global,
    first: Vec<u8>,
    bytes: Vec<u8>,
    made: Vec<DiskCall>,
    starved: Counter,
    calls: Calls,
    tear: Tear,
}

impl Model for MemDisk {
    ghost use Rattle.std.specs.Prelude.{◌≡◌};
    ghost use Rattle.event_journal.specs.MemDisk.{MemDiskSeen, content};

    ghost Value = { MemDiskSeen };

    ghost view = { λ d. record { first = d.first.items; made = d.made.items; starved = d.starved; calls = d.calls; tear = d.tear } };

    ghost invariant = { λ d. d.bytes.items ≡ content d.first.items d.made.items };
}

impl MemDisk {
    /// A disk with these bytes, all of them synced. The first call has the number 0 in the list.
    pub fn new(
        alloc: Global,
        bytes: Vec<u8>,
        failing: Vec<u64>,
        tear: Tear,
    ) -> Result<MemDisk, NoMem>
        ensures { IfOk result (λ disk. disk ≡ record { first = bytes.items; made = []; starved = 0; calls = record { failing = failing.items; made = 0; faults = 0 }; tear = tear }) }
    {
        let first = bytes.to_vec(alloc)?;
        Ok(MemDisk {
            alloc,
            first,
            bytes,
            made: Vec::new(alloc),
            starved: Counter::new(),
            calls: Calls::new(failing),
            tear,
        })
    }

    /// What a read gives now.
    pub fn bytes(&self) -> &[u8]
        ensures { result.now ≡ content self.now.first self.now.made }
    {
        &self.bytes
    }

    /// All calls in order, those that failed too, but for those that memory ran out for.
    pub fn made(&self) -> &[DiskCall]
        ensures { result.now ≡ self.now.made }
    {
        &self.made
    }

    /// How many calls memory ran out for. Each failed, and changed nothing.
    pub fn starved(&self) -> u64
        ensures { result ≡ self.now.starved }
    {
        self.starved.get()
    }

    /// What a crash may leave just after so many of the calls that were made. Of each write that isn't synced there stands what is said.
    pub fn image(&self, count: usize, tear: Tear) -> Result<Vec<u8>, NoMem>
        ensures { IfOk result (λ image. MayLeave self.now.first (λ b. b ≡ self.now.first) (take count self.now.made) image.items) }
    {
        let mut bytes = self.first.to_vec(self.alloc)?;
        let mut image = self.first.to_vec(self.alloc)?;
        for call in &self.made[..count.min(self.made.len())] {
            replay_torn(self.alloc, call, tear, &bytes, &mut image)?;
            replay(self.alloc, call, &mut bytes)?;
        }
        Ok(image)
    }

    /// How many calls failed.
    pub fn faults(&self) -> u64
        ensures { result ≡ self.now.calls.faults }
    {
        self.calls.faults()
    }
}

/// Bytes with a piece written over them.
fn write_over(alloc: Global, bytes: &[u8], at: usize, piece: &[u8]) -> Result<Vec<u8>, NoMem>
    ensures { IfOk result (λ v. v.items ≡ written bytes.now at piece.now) }
{
    let front = at.min(bytes.len());
    let mut next = bytes[..front].to_vec(alloc)?;
    next.extend_from_slice(piece)?;
    if piece.len() < bytes.len() - front {
        next.extend_from_slice(&bytes[front + piece.len()..])?;
    }
    Ok(next)
}

/// What stands in place of a piece.
fn torn_piece(alloc: Global, piece: &[u8], tear: Tear) -> Result<Vec<u8>, NoMem>
    ensures { IfOk result (λ v. length v.items ≤ length piece.now) }
{
    match tear {
        Tear::Front { count } => Ok(piece[..count.min(piece.len())].to_vec(alloc)?),
        Tear::Noise { byte } => {
            let mut noise = Vec::new(alloc);
            noise.resize(piece.len(), byte)?;
            Ok(noise)
        }
    }
}

/// Makes a call again.
fn replay(alloc: Global, call: &DiskCall, bytes: &mut Vec<u8>) -> Result<(), NoMem>
    ensures { OnOk result (bytes.new.items ≡ after bytes.old.items call.now) }
{
    match call {
        DiskCall::Write { at, bytes: piece } => {
            *bytes = write_over(alloc, bytes, *at as usize, piece)?;
            Ok(())
        }
        DiskCall::FailedWrite { at, left, .. } => {
            *bytes = write_over(alloc, bytes, *at as usize, left)?;
            Ok(())
        }
        DiskCall::Len { .. } | DiskCall::Read { .. } | DiskCall::Sync { .. } => Ok(()),
    }
}

/// Makes a call again on an image, where before it a read gave these bytes: a write is torn, until a sync.
fn replay_torn(
    alloc: Global,
    call: &DiskCall,
    tear: Tear,
    bytes: &[u8],
    image: &mut Vec<u8>,
) -> Result<(), NoMem>
    ensures { OnOk result (leaves bytes.now (λ b. b ≡ image.old.items) call.now image.new.items) }
{
    match call {
        DiskCall::Write { at, bytes: piece } => tear_image(alloc, image, *at as usize, piece, tear),
        DiskCall::FailedWrite {
            at,
            bytes: piece,
            ..
        } => tear_image(alloc, image, *at as usize, piece, tear),
        DiskCall::Sync { failed } => {
            if !*failed {
                *image = bytes.to_vec(alloc)?;
            }
            Ok(())
        }
        DiskCall::Len { .. } | DiskCall::Read { .. } => Ok(()),
    }
}

/// Writes what is left of a torn piece over an image, where it reaches so far.
fn tear_image(
    alloc: Global,
    image: &mut Vec<u8>,
    at: usize,
    piece: &[u8],
    tear: Tear,
) -> Result<(), NoMem>
    ensures { OnOk result (IsTorn at (length piece.now) image.old.items image.new.items) }
{
    if at <= image.len() {
        *image = write_over(alloc, image, at, &torn_piece(alloc, piece, tear)?)?;
    }
    Ok(())
}

impl Disk for MemDisk {
    ghost seen = { λ d. record { bytes = Some (content d.first d.made); faults = d.calls.faults } };

    ghost may_leave = { λ d c. MayLeave d.first (λ b. b ≡ d.first) d.made c };

    ghost moment = { λ d. length d.made };

    ghost left_since = { λ d t c. LeftSince d.first d.made t c };

    ghost reads_one = { λ d. reads_one d.first (λ b. b ≡ d.first) d.made refl };

    ghost counts_now = { λ d t c le now. counts_now d.first d.made t c le now };

    ghost only_now = { λ d c left. only_now d.first d.made c left };

    fn len(&mut self) -> Result<u64, Failed>
        ensures length { IfOk result (λ n. n ≡ length (content self.old.first self.old.made)) }
        ensures bytes { Some (content self.new.first self.new.made) ≡ Some (content self.old.first self.old.made) }
        ensures crash { LeavesNoMore (MayLeave self.old.first (λ b. b ≡ self.old.first) self.old.made) (MayLeave self.new.first (λ b. b ≡ self.new.first) self.new.made) }
        ensures time { Passes (length self.old.made) (length self.new.made) (LeftSince self.old.first self.old.made) (LeftSince self.new.first self.new.made) (λ c. MayLeave self.new.first (λ b. b ≡ self.new.first) self.new.made c) }
        ensures cause { Counts self.old.calls.faults self.new.calls.faults result }
        ensures kept { KeepsCall self.old self.new (DiskCall.Len (is_err result)) result }
    {
        let failed = self.calls.fails_next();
        note(
            &mut self.made,
            &mut self.starved,
            &mut self.calls,
            DiskCall::Len { failed },
            failed,
        )?;
        Ok(self.bytes.len() as u64)
    }

    fn read(&mut self, at: u64, buf: &mut [u8]) -> Result<usize, Failed>
        ensures given { ReadGives (Some (content self.old.first self.old.made)) at result buf.new }
        ensures bytes { Some (content self.new.first self.new.made) ≡ Some (content self.old.first self.old.made) }
        ensures crash { LeavesNoMore (MayLeave self.old.first (λ b. b ≡ self.old.first) self.old.made) (MayLeave self.new.first (λ b. b ≡ self.new.first) self.new.made) }
        ensures time { Passes (length self.old.made) (length self.new.made) (LeftSince self.old.first self.old.made) (LeftSince self.new.first self.new.made) (λ c. MayLeave self.new.first (λ b. b ≡ self.new.first) self.new.made c) }
        ensures cause { Counts self.old.calls.faults self.new.calls.faults result }
        ensures kept { KeepsCall self.old self.new (DiskCall.Read at (length buf.old) (is_err result)) result }
    {
        let failed = self.calls.fails_next();
        let room = buf.len();
        note(
            &mut self.made,
            &mut self.starved,
            &mut self.calls,
            DiskCall::Read { at, room, failed },
            failed,
        )?;
        Ok(read_from(&self.bytes, at, buf))
    }

    fn write_at(&mut self, at: u64, bytes: &[u8]) -> Result<(), Failed>
        requires { at ≤ length (content self.old.first self.old.made) }
        ensures bytes { WriteLeaves (Some (content self.old.first self.old.made)) (Some (content self.new.first self.new.made)) at bytes.now result }
        ensures crash { LeavesTorn at (length bytes.now) (MayLeave self.old.first (λ b. b ≡ self.old.first) self.old.made) (MayLeave self.new.first (λ b. b ≡ self.new.first) self.new.made) }
        ensures time { Passes (length self.old.made) (length self.new.made) (LeftSince self.old.first self.old.made) (LeftSince self.new.first self.new.made) (λ c. MayLeave self.new.first (λ b. b ≡ self.new.first) self.new.made c) }
        ensures cause { Counts self.old.calls.faults self.new.calls.faults result }
        ensures kept { KeepsWrite self.old self.new at bytes.now result }
    {
        if self.calls.fails_next() {
            self.calls.count(true);
            return Err(fail_or_starve(
                self.alloc,
                &mut self.bytes,
                &mut self.made,
                &mut self.starved,
                at,
                bytes,
                self.tear,
            ));
        }
        match record_write(self.alloc, &mut self.bytes, &mut self.made, at, bytes) {
            Ok(()) => {
                self.calls.count(false);
                Ok(())
            }
            Err(NoMem) => {
                self.starved.rise();
                self.calls.count(true);
                Err(Failed)
            }
        }
    }

    fn sync(&mut self) -> Result<(), Failed>
        ensures durable { OnOk result (LeavesJust (content self.old.first self.old.made) (MayLeave self.new.first (λ b. b ≡ self.new.first) self.new.made)) }
        ensures bytes { Some (content self.new.first self.new.made) ≡ Some (content self.old.first self.old.made) }
        ensures crash { LeavesNoMore (MayLeave self.old.first (λ b. b ≡ self.old.first) self.old.made) (MayLeave self.new.first (λ b. b ≡ self.new.first) self.new.made) }
        ensures time { Passes (length self.old.made) (length self.new.made) (LeftSince self.old.first self.old.made) (LeftSince self.new.first self.new.made) (λ c. MayLeave self.new.first (λ b. b ≡ self.new.first) self.new.made c) }
        ensures cause { Counts self.old.calls.faults self.new.calls.faults result }
        ensures kept { KeepsCall self.old self.new (DiskCall.Sync (is_err result)) result }
    {
        let failed = self.calls.fails_next();
        note(
            &mut self.made,
            &mut self.starved,
            &mut self.calls,
            DiskCall::Sync { failed },
            failed,
        )?;
        Ok(())
    }
}

/// Moves bytes from a place on into the buffer, and says how many.
fn read_from(bytes: &[u8], at: u64, buf: &mut [u8]) -> usize
    ensures { ReadGives (Some bytes.now) at (Ok result) buf.new }
{
    let at = at as usize;
    if at >= bytes.len() {
        return 0;
    }
    let count = (bytes.len() - at).min(buf.len());
    buf[..count].copy_from_slice(&bytes[at..at + count]);
    count
}

/// Keeps a call and counts it. It fails where it is to fail, and where memory runs out for keeping it, which is counted besides.
fn note(
    made: &mut Vec<DiskCall>,
    starved: &mut Counter,
    calls: &mut Calls,
    call: DiskCall,
    fails: bool,
) -> Result<(), Failed>
    ensures kept { OnOk result (made.new.items ≡ made.old.items ++ call ∷ []) }
    ensures kept_or_same { OnErr result ((made.new.items ≡ made.old.items) ⊎ (made.new.items ≡ made.old.items ++ call ∷ [])) }
    ensures noted { ((is_err result ≡ fails) × (made.new.items ≡ made.old.items ++ call ∷ []) × (starved.new ≡ starved.old)) ⊎ (IsErr result × (made.new.items ≡ made.old.items) × (starved.new ≡ next starved.old)) }
    ensures calls { calls.new ≡ after_call calls.old (is_err result) }
    ensures succeeds { OnOk result (fails ≡ false) }
    ensures cause { Counts calls.old.faults calls.new.faults result }
{
    match made.push(call) {
        Ok(()) => {
            calls.count(fails);
            if fails { Err(Failed) } else { Ok(()) }
        }
        Err(_) => {
            starved.rise();
            calls.count(true);
            Err(Failed)
        }
    }
}

/// Writes a piece over the bytes, and keeps the write.
fn record_write(
    alloc: Global,
    bytes: &mut Vec<u8>,
    made: &mut Vec<DiskCall>,
    at: u64,
    piece: &[u8],
) -> Result<(), NoMem>
    requires { at ≤ length bytes.old.items }
    ensures bytes { OnOk result (bytes.new.items ≡ written bytes.old.items at piece.now) }
    ensures made { OnOk result ((v : _) × (v.items ≡ piece.now) × (made.new.items ≡ made.old.items ++ DiskCall.Write at v ∷ [])) }
    ensures same { OnErr result ((bytes.new.items ≡ bytes.old.items) × (made.new.items ≡ made.old.items)) }
{
    let next = write_over(alloc, bytes, at as usize, piece)?;
    let kept = piece.to_vec(alloc)?;
    made.push(DiskCall::Write { at, bytes: kept })?;
    *bytes = next;
    Ok(())
}

/// Writes what is left of a write that fails over the bytes, and keeps both. Nothing is written where memory runs out.
fn fail_to_write(
    alloc: Global,
    bytes: &mut Vec<u8>,
    made: &mut Vec<DiskCall>,
    at: u64,
    piece: &[u8],
    tear: Tear,
) -> Result<(), NoMem>
    requires { at ≤ length bytes.old.items }
    ensures torn { OnOk result ((v : _) × (left : _) × (v.items ≡ piece.now) × (length left.items ≤ length piece.now) × (bytes.new.items ≡ written bytes.old.items at left.items) × (made.new.items ≡ made.old.items ++ DiskCall.FailedWrite at v left ∷ [])) }
    ensures same { OnErr result ((bytes.new.items ≡ bytes.old.items) × (made.new.items ≡ made.old.items)) }
{
    let left = torn_piece(alloc, piece, tear)?;
    let next = write_over(alloc, bytes, at as usize, &left)?;
    let kept = piece.to_vec(alloc)?;
    made.push(DiskCall::FailedWrite {
        at,
        bytes: kept,
        left,
    })?;
    *bytes = next;
    Ok(())
}

/// A write that fails, or that memory ran out for, which is counted.
fn fail_or_starve(
    alloc: Global,
    bytes: &mut Vec<u8>,
    made: &mut Vec<DiskCall>,
    starved: &mut Counter,
    at: u64,
    piece: &[u8],
    tear: Tear,
) -> Failed
    requires { at ≤ length bytes.old.items }
    ensures { ((v : _) × (left : _) × (v.items ≡ piece.now) × (length left.items ≤ length piece.now) × (bytes.new.items ≡ written bytes.old.items at left.items) × (made.new.items ≡ made.old.items ++ DiskCall.FailedWrite at v left ∷ []) × (starved.new ≡ starved.old)) ⊎ ((bytes.new.items ≡ bytes.old.items) × (made.new.items ≡ made.old.items) × (starved.new ≡ next starved.old)) }
{
    match fail_to_write(alloc, bytes, made, at, piece, tear) {
        Ok(()) => Failed,
        // Nothing stands of it.
        Err(NoMem) => {
            starved.rise();
            Failed
        }
    }
}
