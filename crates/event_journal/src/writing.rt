//! Writing what stays.

ghost use Rattle.std.specs.Prelude.{◌≡◌, ◌≤◌, ◌<◌, ◌+◌, ◌^◌, ◌⊎◌, [], ◌∷◌, length, None, Some, IfSome, OnOk};
ghost use Rattle.ew_outside.specs.Counts.{Counts};
ghost use Rattle.event_journal.specs.Disk.{written, IsTorn, TellsAlike, LeavesJust, StaysWithin};
ghost use Rattle.event_journal.specs.Writing.{staged, IsTornTwice};

use crate::disk::Disk;
use ew_outside::Failed;

/// The byte of an open gate.
const OPEN: u8 = 1;

/// Writes a piece at a place and syncs it.
pub(crate) fn write_and_sync<D: Disk>(disk: &mut D, at: u64, piece: &[u8]) -> Result<(), Failed>
    requires { IfSome (D.seen disk.old).bytes (λ bytes. at ≤ length bytes) }
    ensures bytes { OnOk result (IfSome (D.seen disk.old).bytes (λ bytes. (D.seen disk.new).bytes ≡ Some (written bytes at piece.now))) }
    ensures tells { TellsAlike (D.seen disk.old).bytes (D.seen disk.new).bytes }
    ensures untold { (D.seen disk.old).bytes ≡ None → (D.seen disk.new).bytes ≡ None }
    ensures durable { OnOk result (IfSome (D.seen disk.new).bytes (λ bytes. LeavesJust bytes (D.may_leave disk.new))) }
    ensures any_moment { IfSome (D.seen disk.old).bytes (λ bytes. LeavesJust bytes (D.may_leave disk.old) → StaysWithin D.moment D.left_since disk.old disk.new (IsTorn at (length piece.now) bytes)) }
    ensures cause { Counts (D.seen disk.old).faults (D.seen disk.new).faults result }
{
    disk.write_at(at, piece)?;
    disk.sync()
}

/// Writes a piece behind the closed gate at this place and syncs it, and only then opens the gate and syncs that.
pub(crate) fn commit<D: Disk>(disk: &mut D, gate: u64, piece: &[u8]) -> Result<(), Failed>
    requires inside { IfSome (D.seen disk.old).bytes (λ bytes. gate < length bytes) }
    requires small { gate + 1 < 2 ^ 64 }
    ensures bytes { OnOk result (IfSome (D.seen disk.old).bytes (λ bytes. (D.seen disk.new).bytes ≡ Some (written (staged bytes gate piece.now) gate (1 ∷ [])))) }
    ensures tells { TellsAlike (D.seen disk.old).bytes (D.seen disk.new).bytes }
    ensures untold { (D.seen disk.old).bytes ≡ None → (D.seen disk.new).bytes ≡ None }
    ensures durable { OnOk result (IfSome (D.seen disk.new).bytes (λ bytes. LeavesJust bytes (D.may_leave disk.new))) }
    ensures any_moment { IfSome (D.seen disk.old).bytes (λ bytes. LeavesJust bytes (D.may_leave disk.old) → StaysWithin D.moment D.left_since disk.old disk.new (IsTornTwice gate piece.now bytes)) }
    ensures cause { Counts (D.seen disk.old).faults (D.seen disk.new).faults result }
{
    write_and_sync(disk, gate + 1, piece)?;
    write_and_sync(disk, gate, &[OPEN])
}
