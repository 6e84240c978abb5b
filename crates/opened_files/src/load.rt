//! Loading a file whole, where it isn't above a bound.
ghost use Rattle.std.specs.Prelude.{◌≡◌, ◌<◌, ◌^◌, length, nat_lt, IfSome, IfOk};
ghost use Rattle.std.specs.FinMap.{get};
ghost use Rattle.ew_model.specs.Bytes.{AreBytes};
ghost use Rattle.ew_outside.specs.Counts.{Asks, CountsFaults, next};
ghost use Rattle.opened_files.specs.Loading.{LoadMisses, loaded_view};
ghost use Rattle.command_table.specs.Loads.{whole_of};
ghost use Rattle.command_table.specs.Possible.{KeepsTo};

use ew_outside::{Shelf, ShelfFault};

/// A file as a load found it.
#[derive(Debug, Drop)]
pub enum Loaded {
    Missing,
    TooLong,
    Whole(Vec<u8>),
}

/// Whether there are more bytes than `most`.
fn is_above(bytes: &[u8], most: u64) -> bool
    ensures above { result ≡ nat_lt most (length bytes.now) }
    ensures fits { AreBytes bytes.now }
{
    bytes.len() > most as usize
}

/// Loads a file of at most `most` bytes.
pub fn load_whole<H: Shelf>(shelf: &mut H, name: &str, most: u64) -> Result<Loaded, ShelfFault>
    requires { most < 2 ^ 62 }
    ensures told { IfSome (H.seen shelf.old).files (λ m. IfOk result (λ l. loaded_view l ≡ whole_of most (get m name.now))) }
    ensures short { IfOk result (λ l. KeepsTo most (loaded_view l)) }
    ensures same { (H.seen shelf.new).files ≡ (H.seen shelf.old).files }
    ensures cause { CountsFaults (H.seen shelf.old).faults (H.seen shelf.new).faults result }
    ensures misses { LoadMisses (H.seen shelf.old).misses (H.seen shelf.new).misses result }
    ensures loads { (H.seen shelf.new).loads ≡ next (H.seen shelf.old).loads }
    ensures failed_loads { CountsFaults (H.seen shelf.old).failed_loads (H.seen shelf.new).failed_loads result }
    ensures asked { Asks most (H.seen shelf.old).asked (H.seen shelf.new).asked }
    ensures stores { (H.seen shelf.new).stores ≡ (H.seen shelf.old).stores }
{
    match shelf.load(name, most as usize)? {
        None => Ok(Loaded::Missing),
        Some(bytes) => {
            if is_above(&bytes, most) {
                Ok(Loaded::TooLong)
            } else {
                Ok(Loaded::Whole(bytes))
            }
        }
    }
}
