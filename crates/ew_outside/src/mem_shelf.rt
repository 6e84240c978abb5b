//! A shelf in memory that fails where a test asks for it.
ghost use Rattle.std.specs.Prelude.{⊤, ◌≡◌, ◌+◌, ◌<◌, ◌≤◌, ◌^◌, ◌↔◌, Some, IfOk, IfSome, IsTrue, Contains, vec_len};
ghost use Rattle.std.specs.FinMap.{empty};
ghost use Rattle.ew_outside.specs.Counts.{Asks, CountsFaults, CountsMisses, CountsStores, is_failed, next};
ghost use Rattle.ew_outside.specs.Files.{LoadGives, StoreLeaves};
ghost use Rattle.ew_outside.specs.Memory.{after_call, StoresAsPlanned};

use crate::{Calls, Counter, FileMap, Greatest, Shelf, ShelfFault};
use std::alloc::{AllocError, Global};

/// Files in memory. Exactly the listed calls fail; a store among them whose number is listed in `landing` too has stored its bytes all the same.
#[derive(Debug, Drop)]
pub struct MemShelf {
    pub files: FileMap,
    pub calls: Calls,
    pub landing: Vec<u64>,
    pub misses: Counter,
    pub loads: Counter,
    pub failed_loads: Counter,
    pub asked: Greatest,
    pub stores: Counter,
}

impl MemShelf {
    /// A shelf without files. Loads and stores are numbered together, from 0 on.
    pub fn new(alloc: Global, failing: Vec<u64>, landing: Vec<u64>) -> MemShelf
        ensures files { result.files ≡ empty }
        ensures calls { result.calls ≡ record { failing = failing.items; made = 0; faults = 0 } }
        ensures landing { result.landing.items ≡ landing.items }
        ensures misses { result.misses ≡ 0 }
        ensures loads { result.loads ≡ 0 }
        ensures failed_loads { result.failed_loads ≡ 0 }
        ensures asked { result.asked ≡ 0 }
        ensures stores { result.stores ≡ 0 }
    {
        MemShelf {
            files: FileMap::new(alloc),
            calls: Calls::new(failing),
            landing,
            misses: Counter::new(),
            loads: Counter::new(),
            failed_loads: Counter::new(),
            asked: Greatest::new(),
            stores: Counter::new(),
        }
    }

    // A store that is to fail. Where its bytes can't land for want of memory, that is its answer.
    fn fail_to_store(&mut self, name: &str, bytes: &[u8]) -> Result<(), ShelfFault>
        ensures left { StoreLeaves (Some self.old.files) (Some self.new.files) name.now bytes.now result }
        ensures cause { CountsFaults self.old.calls.faults self.new.calls.faults result }
        ensures planned { StoresAsPlanned ⊤ (Contains self.old.landing.items self.old.calls.made) self.old.files self.new.files name.now bytes.now result }
        ensures calls { self.new.calls ≡ after_call self.old.calls (is_failed result) }
        ensures landing { self.new.landing.items ≡ self.old.landing.items }
        ensures misses { self.new.misses ≡ self.old.misses }
        ensures loads { self.new.loads ≡ self.old.loads }
        ensures failed_loads { self.new.failed_loads ≡ self.old.failed_loads }
        ensures asked { self.new.asked ≡ self.old.asked }
        ensures stores { CountsStores self.old.stores self.new.stores result }
    {
        if !self.landing.contains(&self.calls.made()) {
            self.calls.count(true);
            self.stores.rise();
            return Err(ShelfFault::Failed);
        }
        match self.files.put(name, bytes) {
            Ok(()) => {
                self.calls.count(true);
                self.stores.rise();
                Err(ShelfFault::Failed)
            }
            Err(AllocError) => {
                self.calls.count(false);
                Err(ShelfFault::OutOfMemory)
            }
        }
    }
}

impl Shelf for MemShelf {
    ghost seen = { λ s. record { files = Some s.files; faults = s.calls.faults; misses = s.misses; loads = s.loads; failed_loads = s.failed_loads; asked = s.asked; stores = s.stores } };

    fn load(&mut self, name: &str, max: usize) -> Result<Option<Vec<u8>>, ShelfFault>
        requires { max < 2 ^ 62 }
        ensures bytes { LoadGives (Some self.old.files) name.now max result }
        ensures most { IfOk result (λ found. IfSome found (λ v. vec_len v ≤ max + 1)) }
        ensures same { Some self.new.files ≡ Some self.old.files }
        ensures cause { CountsFaults self.old.calls.faults self.new.calls.faults result }
        ensures misses { CountsMisses self.old.misses self.new.misses result }
        ensures loads { self.new.loads ≡ next self.old.loads }
        ensures failed_loads { CountsFaults self.old.failed_loads self.new.failed_loads result }
        ensures asked { Asks max self.old.asked self.new.asked }
        ensures stores { self.new.stores ≡ self.old.stores }
        ensures exactly { IsTrue (is_failed result) ↔ Contains self.old.calls.failing self.old.calls.made }
        ensures calls { self.new.calls ≡ after_call self.old.calls (is_failed result) }
        ensures landing { self.new.landing.items ≡ self.old.landing.items }
    {
        self.loads.rise();
        self.asked.reach(max);
        if self.calls.fails_next() {
            self.calls.count(true);
            self.failed_loads.rise();
            return Err(ShelfFault::Failed);
        }
        self.calls.count(false);
        match self.files.first(name, max)? {
            Some(bytes) => Ok(Some(bytes)),
            None => {
                self.misses.rise();
                Ok(None)
            }
        }
    }

    fn store(&mut self, name: &str, bytes: &[u8]) -> Result<(), ShelfFault>
        ensures left { StoreLeaves (Some self.old.files) (Some self.new.files) name.now bytes.now result }
        ensures cause { CountsFaults self.old.calls.faults self.new.calls.faults result }
        ensures misses { self.new.misses ≡ self.old.misses }
        ensures loads { self.new.loads ≡ self.old.loads }
        ensures failed_loads { self.new.failed_loads ≡ self.old.failed_loads }
        ensures asked { self.new.asked ≡ self.old.asked }
        ensures stores { CountsStores self.old.stores self.new.stores result }
        ensures planned { StoresAsPlanned (Contains self.old.calls.failing self.old.calls.made) (Contains self.old.landing.items self.old.calls.made) self.old.files self.new.files name.now bytes.now result }
        ensures calls { self.new.calls ≡ after_call self.old.calls (is_failed result) }
        ensures landing { self.new.landing.items ≡ self.old.landing.items }
    {
        if self.calls.fails_next() {
            return self.fail_to_store(name, bytes);
        }
        self.calls.count(false);
        self.files.put(name, bytes)?;
        self.stores.rise();
        Ok(())
    }
}
