//! What the system answers. Every call that is made of it goes through `counted` or `counted_or_starved`, so that none fails unseen.
ghost use Rattle.std.specs.Prelude.{◌≡◌, ◌≢◌, None, Some, Ok, Err, IsErr, IfOk, IfErr, IfSome, OnErr};
ghost use Rattle.std.specs.IoError.{error_kind};
ghost use Rattle.ew_outside.specs.Counts.{Counts, CountsFaults};

use crate::{Counter, Failed, ShelfFault};
use std::io;
use std::io::ErrorKind;

/// What the system answered. Where it refused, that is a fault, and is counted.
pub fn counted<T, E: Drop>(answer: Result<T, E>, faults: &mut Counter) -> Result<T, Failed>
    ensures answered { IfOk answer (λ v. result ≡ Ok v) }
    ensures given { IfOk result (λ v. answer ≡ Ok v) }
    ensures refused { OnErr answer (IsErr result) }
    ensures cause { Counts faults.old faults.new answer }
{
    match answer {
        Ok(value) => Ok(value),
        Err(_) => {
            faults.rise();
            Err(Failed)
        }
    }
}

/// The same of a call that may find no memory, which is no fault.
pub fn counted_or_starved<T>(answer: io::Result<T>, faults: &mut Counter) -> Result<T, ShelfFault>
    ensures answered { IfOk answer (λ v. result ≡ Ok v) }
    ensures given { IfOk result (λ v. answer ≡ Ok v) }
    ensures starved { IfErr answer (λ e. error_kind e ≡ ErrorKind.OutOfMemory → result ≡ Err ShelfFault.OutOfMemory) }
    ensures refused { IfErr answer (λ e. error_kind e ≢ ErrorKind.OutOfMemory → result ≡ Err ShelfFault.Failed) }
    ensures cause { CountsFaults faults.old faults.new result }
{
    match answer {
        Ok(value) => Ok(value),
        Err(error) if error.kind() == ErrorKind::OutOfMemory => Err(ShelfFault::OutOfMemory),
        Err(_) => {
            faults.rise();
            Err(ShelfFault::Failed)
        }
    }
}

/// What the system answered, and `None` where it refused in this way, which then is no fault.
pub fn unless<T>(kind: ErrorKind, answer: io::Result<T>) -> io::Result<Option<T>>
    ensures answered { IfOk answer (λ v. result ≡ Ok (Some v)) }
    ensures given { IfOk result (λ found. IfSome found (λ v. answer ≡ Ok v)) }
    ensures expected { IfErr answer (λ e. error_kind e ≡ kind → result ≡ Ok None) }
    ensures refused { IfErr answer (λ e. error_kind e ≢ kind → result ≡ Err e) }
{
    match answer {
        Ok(value) => Ok(Some(value)),
        Err(error) if error.kind() == kind => Ok(None),
        Err(error) => Err(error),
    }
}

/// What the system answered, and `None` where it refused a call that nothing hangs on. That is no fault.
pub fn uncounted<T>(answer: io::Result<T>) -> Option<T>
    ensures answered { IfOk answer (λ v. result ≡ Some v) }
    ensures refused { OnErr answer (result ≡ None) }
{
    answer.ok()
}
