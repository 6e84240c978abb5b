//! Where files lie.
ghost use Rattle.std.specs.Prelude.{◌≡◌, ◌+◌, ◌<◌, ◌≤◌, ◌^◌, IfOk, IfSome, vec_len};
ghost use Rattle.ew_outside.specs.Counts.{Asks, CountsFaults, CountsMisses, CountsStores, next};
ghost use Rattle.ew_outside.specs.Files.{LoadGives, StoreLeaves};
ghost use Rattle.ew_outside.specs.Seen.{ShelfSeen};

use crate::ShelfFault;

/// Files by name.
pub trait Shelf {
    /// What is known of the shelf: its files, and its counts.
    ghost seen: { Self → ShelfSeen };

    /// The first `max + 1` bytes of a file, or all where there are fewer: so a file of more than `max` bytes shows.
    fn load(&mut self, name: &str, max: usize) -> Result<Option<Vec<u8>>, ShelfFault>
        requires { max < 2 ^ 62 }
        ensures bytes { LoadGives (seen self.old).files name.now max result }
        ensures most { IfOk result (λ found. IfSome found (λ v. vec_len v ≤ max + 1)) }
        ensures same { (seen self.new).files ≡ (seen self.old).files }
        ensures cause { CountsFaults (seen self.old).faults (seen self.new).faults result }
        ensures misses { CountsMisses (seen self.old).misses (seen self.new).misses result }
        ensures loads { (seen self.new).loads ≡ next (seen self.old).loads }
        ensures failed_loads { CountsFaults (seen self.old).failed_loads (seen self.new).failed_loads result }
        ensures asked { Asks max (seen self.old).asked (seen self.new).asked }
        ensures stores { (seen self.new).stores ≡ (seen self.old).stores };

    /// Gives one name these bytes, and leaves the others as they are. After `Failed` the name may have its old bytes.
    fn store(&mut self, name: &str, bytes: &[u8]) -> Result<(), ShelfFault>
        ensures left { StoreLeaves (seen self.old).files (seen self.new).files name.now bytes.now result }
        ensures cause { CountsFaults (seen self.old).faults (seen self.new).faults result }
        ensures misses { (seen self.new).misses ≡ (seen self.old).misses }
        ensures loads { (seen self.new).loads ≡ (seen self.old).loads }
        ensures failed_loads { (seen self.new).failed_loads ≡ (seen self.old).failed_loads }
        ensures asked { (seen self.new).asked ≡ (seen self.old).asked }
        ensures stores { CountsStores (seen self.old).stores (seen self.new).stores result };
}
