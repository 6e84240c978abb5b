//! A shelf in memory that never fails.
ghost use Rattle.std.specs.Prelude.{◌≡◌, ◌+◌, ◌<◌, ◌≤◌, ◌^◌, ℕ, Some, false, IfOk, IfSome, vec_len};
ghost use Rattle.std.specs.FinMap.{empty};
ghost use Rattle.ew_outside.specs.Counts.{Asks, CountsFaults, CountsMisses, CountsStores, is_failed, next};
ghost use Rattle.ew_outside.specs.Files.{LoadGives, StoreLeaves};

use crate::{Counter, FileMap, Greatest, Shelf, ShelfFault};
use std::alloc::Global;

/// Files in memory. Want of memory is its one fault, and isn't counted; a miss is.
#[derive(Debug, Drop)]
pub struct SureShelf {
    pub files: FileMap,
    pub misses: Counter,
    pub loads: Counter,
    pub asked: Greatest,
    pub stores: Counter,
}

impl SureShelf {
    /// A shelf without files.
    pub fn new(alloc: Global) -> SureShelf
        ensures files { result.files ≡ empty }
        ensures misses { result.misses ≡ 0 }
        ensures loads { result.loads ≡ 0 }
        ensures asked { result.asked ≡ 0 }
        ensures stores { result.stores ≡ 0 }
    {
        SureShelf {
            files: FileMap::new(alloc),
            misses: Counter::new(),
            loads: Counter::new(),
            asked: Greatest::new(),
            stores: Counter::new(),
        }
    }
}

impl Shelf for SureShelf {
    ghost seen = { λ s. record { files = Some s.files; faults = 0; misses = s.misses; loads = s.loads; failed_loads = 0; asked = s.asked; stores = s.stores } };

    fn load(&mut self, name: &str, max: usize) -> Result<Option<Vec<u8>>, ShelfFault>
        requires { max < 2 ^ 62 }
        ensures bytes { LoadGives (Some self.old.files) name.now max result }
        ensures most { IfOk result (λ found. IfSome found (λ v. vec_len v ≤ max + 1)) }
        ensures same { Some self.new.files ≡ Some self.old.files }
        ensures cause { CountsFaults 0 0 result }
        ensures misses { CountsMisses self.old.misses self.new.misses result }
        ensures loads { self.new.loads ≡ next self.old.loads }
        ensures failed_loads { CountsFaults 0 0 result }
        ensures asked { Asks max self.old.asked self.new.asked }
        ensures stores { self.new.stores ≡ self.old.stores }
        ensures sure { is_failed result ≡ false }
    {
        self.loads.rise();
        self.asked.reach(max);
        match self.files.first(name, max)? {
            Some(bytes) => Ok(Some(bytes)),
            None => {
                self.misses.rise();
                Ok(None)
            }
        }
    }

    fn store(&mut self, name: &str, bytes: &[u8]) -> Result<(), ShelfFault>
        ensures left { StoreLeaves (Some self.old.files) (Some self.new.files) name.now bytes.now result }
        ensures cause { CountsFaults 0 0 result }
        ensures misses { self.new.misses ≡ self.old.misses }
        ensures loads { self.new.loads ≡ self.old.loads }
        ensures failed_loads { ◌≡◌ {A = ℕ} 0 0 }
        ensures asked { self.new.asked ≡ self.old.asked }
        ensures stores { CountsStores self.old.stores self.new.stores result }
        ensures sure { is_failed result ≡ false }
    {
        self.files.put(name, bytes)?;
        self.stores.rise();
        Ok(())
    }
}
