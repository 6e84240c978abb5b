//! Bytes that stay, and what a crash may leave of them.

ghost use Rattle.std.specs.Prelude.{◌≡◌, ◌≤◌, ℕ, List, length, IfOk, IfSome, OnOk};
ghost use Rattle.ew_outside.specs.Counts.{Counts};
ghost use Rattle.event_journal.specs.Disk.{DiskSeen, ReadGives, WriteLeaves, LeavesJust, LeavesNoMore, LeavesTorn, Passes};

use ew_outside::Failed;

/// A disk that holds one string of bytes. A call that fails is counted.
pub trait Disk {
    /// The bytes that a read gives, where the disk tells them, and the count of faults.
    ghost seen: { Self → DiskSeen };

    /// What a crash at this moment may leave. The calls' clauses bound it from above alone: a disk of which a crash leaves less meets them
    /// too. `reads_one` says that what is read is among it. What else is, each disk says for itself, as `MayLeave` does of a `MemDisk`.
    ghost may_leave: { Self → List ℕ → Type 0 };

    /// The moment, as a number that never falls.
    ghost moment: { Self → ℕ };

    /// What a crash at some moment since that one may have left, in a call or between two.
    ghost left_since: { Self → ℕ → List ℕ → Type 0 };

    /// How many bytes there are.
    fn len(&mut self) -> Result<u64, Failed>
        ensures length { IfOk result (λ n. IfSome (seen self.old).bytes (λ bytes. n ≡ length bytes)) }
        ensures bytes { (seen self.new).bytes ≡ (seen self.old).bytes }
        ensures crash { LeavesNoMore (may_leave self.old) (may_leave self.new) }
        ensures time { Passes (moment self.old) (moment self.new) (left_since self.old) (left_since self.new) (may_leave self.new) }
        ensures cause { Counts (seen self.old).faults (seen self.new).faults result };

    /// Moves bytes from a place on into the buffer, and says how many. 0 is the end, or a buffer without room.
    fn read(&mut self, at: u64, buf: &mut [u8]) -> Result<usize, Failed>
        ensures given { ReadGives (seen self.old).bytes at result buf.new }
        ensures bytes { (seen self.new).bytes ≡ (seen self.old).bytes }
        ensures crash { LeavesNoMore (may_leave self.old) (may_leave self.new) }
        ensures time { Passes (moment self.old) (moment self.new) (left_since self.old) (left_since self.new) (may_leave self.new) }
        ensures cause { Counts (seen self.old).faults (seen self.new).faults result };

    /// Writes all of the bytes from a place on, over what is there and past the end. Until a sync, a crash may leave any bytes there.
    fn write_at(&mut self, at: u64, bytes: &[u8]) -> Result<(), Failed>
        requires { IfSome (seen self.old).bytes (λ old. at ≤ length old) }
        ensures bytes { WriteLeaves (seen self.old).bytes (seen self.new).bytes at bytes.now result }
        ensures crash { LeavesTorn at (length bytes.now) (may_leave self.old) (may_leave self.new) }
        ensures time { Passes (moment self.old) (moment self.new) (left_since self.old) (left_since self.new) (may_leave self.new) }
        ensures cause { Counts (seen self.old).faults (seen self.new).faults result };

    /// After it a crash leaves what a read gives.
    fn sync(&mut self) -> Result<(), Failed>
        ensures durable { OnOk result (IfSome (seen self.old).bytes (λ bytes. LeavesJust bytes (may_leave self.new))) }
        ensures bytes { (seen self.new).bytes ≡ (seen self.old).bytes }
        ensures crash { LeavesNoMore (may_leave self.old) (may_leave self.new) }
        ensures time { Passes (moment self.old) (moment self.new) (left_since self.old) (left_since self.new) (may_leave self.new) }
        ensures cause { Counts (seen self.old).faults (seen self.new).faults result };

    /// The bytes that a read gives are among those that a crash may leave.
    ghost reads_one: { (disk : Self) → IfSome (seen disk).bytes (may_leave disk) };

    /// This moment is one of those since an earlier one.
    ghost counts_now: { (disk : Self) (t : ℕ) (c : List ℕ) → t ≤ moment disk → may_leave disk c → left_since disk t c };

    /// Since this moment there is no other.
    ghost only_now: { (disk : Self) (c : List ℕ) → left_since disk (moment disk) c → may_leave disk c };
}
