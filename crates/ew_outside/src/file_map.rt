//! Files in memory.
ghost use Rattle.std.specs.Prelude.{◌≡◌, ◌<◌, ◌^◌, ◌+◌, take, IfOk, OnOk, OnErr};
ghost use Rattle.std.specs.Option.{option_map};
ghost use Rattle.std.specs.FinMap.{empty, get, insert};
ghost use Rattle.ew_outside.specs.Files.{first_of};

use std::alloc::{AllocError, Global};
use std::collections::BTreeMap;
use std::marker::Model;

/// Files by name.
#[derive(Debug, Drop)]
pub struct FileMap {
    alloc: Global,
    files: BTreeMap<String, Vec<u8>>,
}

impl Model for FileMap {
    ghost use Rattle.std.specs.Coded.{coded_ℕ, coded_list};
    ghost use Rattle.std.specs.FinMap.{code};
    ghost use Rattle.ew_outside.specs.Files.{Files};
    ghost use Rattle.ew_outside.specs.FileMap.{files_of};

    ghost Value = { Files };

    ghost coded = { code (coded_list coded_ℕ) (coded_list coded_ℕ) };

    ghost view = { λ f. files_of f.files };
}

impl FileMap {
    pub fn new(alloc: Global) -> FileMap
        ensures { result ≡ empty }
    {
        FileMap {
            alloc,
            files: BTreeMap::new(alloc),
        }
    }

    /// The bytes of a file.
    pub fn get(&self, name: &str) -> Option<&[u8]>
        ensures { option_map (λ b. b.now) result ≡ get self.now name.now }
    {
        match self.files.get(name) {
            Some(bytes) => Some(bytes.as_slice()),
            None => None,
        }
    }

    /// The first `max + 1` bytes of a file, or all where there are fewer.
    pub fn first(&self, name: &str, max: usize) -> Result<Option<Vec<u8>>, AllocError>
        requires { max < 2 ^ 62 }
        ensures { IfOk result (λ found. option_map (λ v. v.items) found ≡ first_of self.now name.now max) }
    {
        match self.get(name) {
            Some(bytes) => Ok(Some(copy_front(self.alloc, bytes, max + 1)?)),
            None => Ok(None),
        }
    }

    /// Gives one name these bytes.
    pub fn put(&mut self, name: &str, bytes: &[u8]) -> Result<(), AllocError>
        ensures ok { OnOk result (self.new ≡ insert self.old name.now bytes.now) }
        ensures err { OnErr result (self.new ≡ self.old) }
    {
        let name = String::from_str(self.alloc, name)?;
        let bytes = Vec::from_slice(self.alloc, bytes)?;
        self.files.insert(name, bytes)?;
        Ok(())
    }
}

fn copy_front(alloc: Global, bytes: &[u8], most: usize) -> Result<Vec<u8>, AllocError>
    ensures { IfOk result (λ v. v.items ≡ take most bytes.now) }
{
    let count = bytes.len().min(most);
    Vec::from_slice(alloc, &bytes[..count])
}
