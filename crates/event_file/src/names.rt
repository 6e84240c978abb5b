//! The names of a file's agents.

ghost use Rattle.std.specs.Prelude.{◌≡◌, [], not, IfOk};
ghost use Rattle.std.specs.BTreeSet.{contains};
ghost use Rattle.std.specs.Cmp.Lexicographic.{slice_cmp};
ghost use Rattle.std.specs.Ordering.{nat_cmp};
ghost use Rattle.ew_model.specs.Distinct.{AreDistinct};
ghost use Rattle.ew_model.specs.Ids.{name_eq};
ghost use Rattle.file_words.specs.FileFaults.{field, only, read_name, read_names};
ghost use Rattle.file_words.specs.FileFaults.RecordFault.{NameTwice};
ghost use Rattle.event_file.specs.Reading.{Gives};

use crate::fault::{RecordFault, Stop, bad_field};
use crate::input::Input;
use ew_model::name::Name;
use std::alloc::Global;
use std::collections::BTreeSet;

/// Reads so many names, all different.
pub(crate) fn read_names(alloc: Global, count: u32, input: &mut Input) -> Result<Vec<Name>, Stop>
    ensures exact { Gives (λ names. (names.items, input.new.left.now)) result (read_names [] count input.old.left.now) }
    ensures distinct { IfOk result (λ names. AreDistinct name_eq names.items) }
{
    let mut seen = BTreeSet::new(alloc);
    let mut names = Vec::new(alloc);
    for _ in 0..count {
        let name = read_new(&seen, input)?;
        seen.insert(name)?;
        names.push(name)?;
    }
    Ok(names)
}

/// Reads a name that isn't among the seen ones.
fn read_new(seen: &BTreeSet<Name>, input: &mut Input) -> Result<Name, Stop>
    ensures { Gives (λ name. (name, input.new.left.now)) result
        (field read_name (only (λ name. not (contains (slice_cmp nat_cmp) seen.now name))) NameTwice input.old.left.now) }
{
    let field = input.left;
    let name = input.name()?;
    if seen.contains(&name) {
        return Err(bad_field(field, RecordFault::NameTwice));
    }
    Ok(name)
}
