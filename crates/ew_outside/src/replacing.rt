//! New files of the system in place of old ones.
ghost use Rattle.std.specs.Prelude.{◌≡◌, length, IfOk, OnOk};
ghost use Rattle.std.specs.Io.KnownBytes.{Appends};
ghost use Rattle.ew_outside.specs.Counts.{CountsFaults};

use crate::loaded_files::OpenedFile;
use crate::{Counter, ShelfFault, counted_or_starved, uncounted, unless};
use std::alloc::Global;
use std::fs::{File, Metadata, OpenFile, Permissions};
use std::io::{ErrorKind, Write};
use std::os::unix::fs::{MetadataExt, OpenOptionsExt, PermissionsExt, fchown};
use std::rt::Files;
use std::{fs, io};

/// A new file with these bytes gets this name: in place of the file that was opened, or where nothing may lie. Says how many bytes it was
/// filled with.
pub fn place<R: Files<File = File>>(
    system: &R,
    alloc: Global,
    opened: Option<OpenedFile>,
    name: &str,
    bytes: &[u8],
    faults: &mut Counter,
) -> Result<usize, ShelfFault>
    ensures filled { IfOk result (λ n. n ≡ length bytes.now) }
    ensures cause { CountsFaults faults.old faults.new result }
{
    match opened {
        Some(opened) => replace(system, alloc, &opened, name, bytes, faults),
        None => create(system, alloc, name, bytes, faults),
    }
}

// The file that has this name: the one that it leads to, where it is a symbolic link. Where the system doesn't tell, it is taken for none.
fn followed<R: Files>(
    system: &R,
    alloc: Global,
    name: &str,
    faults: &mut Counter,
) -> Result<String, ShelfFault>
    ensures cause { CountsFaults faults.old faults.new result }
{
    match uncounted(system.symlink_metadata(name)) {
        Some(found) if found.is_symlink() => {
            let path = counted_or_starved(system.canonicalize(alloc, name), faults)?;
            Ok(path.into_string())
        }
        _ => Ok(String::from_str(alloc, name)?),
    }
}

// A new file takes the place of the one that was opened, which has to lie there still. Who replaces a file holds its lock, so that
// it stays there until the new one has its name. The look at the name comes after the lock: another may have replaced it before.
fn replace<R: Files<File = File>>(
    system: &R,
    alloc: Global,
    opened: &OpenedFile,
    name: &str,
    bytes: &[u8],
    faults: &mut Counter,
) -> Result<usize, ShelfFault>
    ensures filled { IfOk result (λ n. n ≡ length bytes.now) }
    ensures cause { CountsFaults faults.old faults.new result }
{
    let name = followed(system, alloc, name, faults)?;
    let old = counted_or_starved(
        File::options()
            .read(true)
            .write(true)
            .open(system, name.as_str()),
        faults,
    )?;
    counted_or_starved(old.try_lock().map_err(io::Error::from), faults)?;
    let found = look_again(system, opened, &old, name.as_str(), faults)?;
    let (file, neighbour) = new_neighbour(system, alloc, name.as_str(), 0o600, faults)?;
    let placed = fill_and_rename(
        system,
        file,
        &found,
        neighbour.as_str(),
        name.as_str(),
        bytes,
        faults,
    );
    match placed {
        Ok(filled) => {
            sync_folder(system, name.as_str());
            Ok(filled)
        }
        Err(fault) => {
            let _ = uncounted(fs::remove_file(system, neighbour.as_str()));
            Err(fault)
        }
    }
}

// What the system says of the old file, where it is the one that was opened, and the name still leads to it.
fn look_again<R: Files>(
    system: &R,
    opened: &OpenedFile,
    old: &File,
    name: &str,
    faults: &mut Counter,
) -> Result<Metadata, ShelfFault>
    ensures cause { CountsFaults faults.old faults.new result }
{
    let found = counted_or_starved(old.metadata(), faults)?;
    if !opened.is_still(&found) {
        faults.rise();
        return Err(ShelfFault::Failed);
    }
    let lies = counted_or_starved(system.symlink_metadata(name), faults)?;
    if !opened.is_still(&lies) {
        faults.rise();
        return Err(ShelfFault::Failed);
    }
    Ok(found)
}

// A new file gets a name that nothing has. A rename would replace what came there meanwhile, and a second name of a file doesn't.
fn create<R: Files<File = File>>(
    system: &R,
    alloc: Global,
    name: &str,
    bytes: &[u8],
    faults: &mut Counter,
) -> Result<usize, ShelfFault>
    ensures filled { IfOk result (λ n. n ≡ length bytes.now) }
    ensures cause { CountsFaults faults.old faults.new result }
{
    let (file, neighbour) = new_neighbour(system, alloc, name, 0o666, faults)?;
    let placed = fill_and_link(system, file, neighbour.as_str(), name, bytes, faults);
    let _ = uncounted(fs::remove_file(system, neighbour.as_str()));
    if placed.is_ok() {
        sync_folder(system, name);
    }
    placed
}

// A new file beside the one of this name. Its own name is one that nothing has, so that no other file changes.
fn new_neighbour<R: Files<File = File>>(
    system: &R,
    alloc: Global,
    name: &str,
    mode: u32,
    faults: &mut Counter,
) -> Result<(File, String), ShelfFault>
    ensures cause { CountsFaults faults.old faults.new result }
{
    for number in 0..=u32::MAX {
        let neighbour = format!(in alloc; "{name}.{number}.new")?;
        let made = counted_or_starved(
            unless(
                ErrorKind::AlreadyExists,
                File::options()
                    .write(true)
                    .create_new(true)
                    .mode(mode)
                    .open(system, neighbour.as_str()),
            ),
            faults,
        )?;
        if let Some(file) = made {
            return Ok((file, neighbour));
        }
    }
    faults.rise();
    Err(ShelfFault::Failed)
}

// Gives the new file the owner, the group and the rights of the old one. The rights come last, so that nobody else reads it before.
fn keep_rights(old: &Metadata, file: &File, faults: &mut Counter) -> Result<(), ShelfFault>
    ensures cause { CountsFaults faults.old faults.new result }
{
    keep_owner(old, file, faults)?;
    counted_or_starved(
        file.set_permissions(Permissions::from_mode(old.mode() & 0o777)),
        faults,
    )
}

// Gives the new file the owner and the group of the old one, where it has others.
fn keep_owner(old: &Metadata, file: &File, faults: &mut Counter) -> Result<(), ShelfFault>
    ensures cause { CountsFaults faults.old faults.new result }
{
    let new = counted_or_starved(file.metadata(), faults)?;
    if new.uid() == old.uid() && new.gid() == old.gid() {
        return Ok(());
    }
    counted_or_starved(fchown(file, Some(old.uid()), Some(old.gid())), faults)
}

// Has the system keep the names in the folder of this file, where it can.
fn sync_folder<R: Files>(system: &R, name: &str) {
    let folder = match name.rsplit_once('/') {
        Some(("", _)) => "/",
        Some((folder, _)) => folder,
        None => ".",
    };
    if let Some(folder) = uncounted(fs::open(system, folder)) {
        let _ = uncounted(folder.sync_all());
    }
}

// Gives the new file the rights of the old one, fills it, and gives it the name of the old one.
fn fill_and_rename<R: Files>(
    system: &R,
    file: File,
    old: &Metadata,
    neighbour: &str,
    name: &str,
    bytes: &[u8],
    faults: &mut Counter,
) -> Result<usize, ShelfFault>
    ensures filled { IfOk result (λ n. n ≡ length bytes.now) }
    ensures cause { CountsFaults faults.old faults.new result }
{
    keep_rights(old, &file, faults)?;
    let filled = fill_and_close(file, bytes, faults)?;
    counted_or_starved(fs::rename(system, neighbour, name), faults)?;
    Ok(filled)
}

// Fills the new file, and gives it a second name, which nothing has.
fn fill_and_link<R: Files, F: Write + OpenFile + Drop>(
    system: &R,
    file: F,
    neighbour: &str,
    name: &str,
    bytes: &[u8],
    faults: &mut Counter,
) -> Result<usize, ShelfFault>
    ensures filled { IfOk result (λ n. n ≡ length bytes.now) }
    ensures cause { CountsFaults faults.old faults.new result }
{
    let filled = fill_and_close(file, bytes, faults)?;
    counted_or_starved(fs::hard_link(system, neighbour, name), faults)?;
    Ok(filled)
}

fn fill_and_close<F: Write + OpenFile + Drop>(
    mut file: F,
    bytes: &[u8],
    faults: &mut Counter,
) -> Result<usize, ShelfFault>
    ensures filled { IfOk result (λ n. n ≡ length bytes.now) }
    ensures cause { CountsFaults faults.old faults.new result }
{
    fill(&mut file, bytes, faults)
}

// Writes all of the bytes, and has the system keep them. Says how many they are.
fn fill<F: Write + OpenFile>(
    file: &mut F,
    bytes: &[u8],
    faults: &mut Counter,
) -> Result<usize, ShelfFault>
    ensures contents { OnOk result (Appends (F.contents file.old) (F.contents file.new) bytes.now) }
    ensures filled { IfOk result (λ n. n ≡ length bytes.now) }
    ensures cause { CountsFaults faults.old faults.new result }
{
    counted_or_starved(file.write_all(bytes), faults)?;
    counted_or_starved(file.sync_all(), faults)?;
    Ok(bytes.len())
}
