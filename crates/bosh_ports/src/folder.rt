// Files and folders of the system.
ghost use Rattle.std.specs.Prelude.{◌≡◌, ◌≤◌, ◌↔◌, IfErr, IfOk, IfSome, IsOk, Some, length};
ghost use Rattle.std.specs.BTreeMap.{keys};
ghost use Rattle.std.specs.Fs.{IsSymlink};
ghost use Rattle.std.specs.IoError.{error_kind};
ghost use Rattle.bosh_ports.specs.Errors.{fault_of};
ghost use Rattle.bosh_ports.specs.Shelf.{AllOneLine, AnswersFile};
ghost use Rattle.bosh_ports.specs.Walk.{GoesOn};

use crate::ShelfFault;
use crate::errors::fault_of_read;
use crate::shelf::MOST_BYTES;
use crate::walk::{Found, Walk};
use std::alloc::Global;
use std::fs::{DirEntry, FileType, Files, ReadDir};
use std::io::{ErrorKind, Read};
use std::{fs, io};

/// What stands at a path. What a symbolic link leads to is absent, whether the link is the last name or an earlier one.
pub(crate) fn kind_at<R: Files>(alloc: Global, rt: &R, path: &str) -> Result<FileType, ShelfFault>
    ensures { IfOk result (λ kind. IsSymlink kind → ⊥) }
{
    let mut place = String::new(alloc);
    kind_along(rt, &mut place, path)
}

// The same, of the names of a path from a place on, which becomes the last of them.
fn kind_along<R: Files>(rt: &R, place: &mut String, path: &str) -> Result<FileType, ShelfFault>
    ensures { IfOk result (λ kind. IsSymlink kind → ⊥) }
{
    let mut kind = None;
    for name in path.split('/') {
        kind = Some(kind_of_next(rt, place, name)?);
    }
    kind.ok_or(ShelfFault::Absent)
}

// What stands at the next name from a place, which becomes the place.
fn kind_of_next<R: Files>(rt: &R, place: &mut String, name: &str) -> Result<FileType, ShelfFault>
    ensures { IfOk result (λ kind. IsSymlink kind → ⊥) }
{
    if !place.is_empty() {
        place.push('/')?;
    }
    place.push_str(name)?;
    kind_unless_link(rt, place.as_str())
}

fn kind_unless_link<R: Files>(rt: &R, path: &str) -> Result<FileType, ShelfFault>
    ensures { IfOk result (λ kind. IsSymlink kind → ⊥) }
{
    let kind = rt.symlink_metadata(path)?.file_type();
    if kind.is_symlink() {
        return Err(ShelfFault::Absent);
    }
    Ok(kind)
}

/// The bytes of a file that is not too large. Of one that is, it reads one byte past the limit at most.
pub(crate) fn read_whole<F: Read + Drop>(alloc: Global, file: F) -> Result<Vec<u8>, ShelfFault>
    ensures answer { IfSome (F.remaining file) (λ whole. AnswersFile result (Some whole)) }
    ensures size { IfOk result (λ bytes. length bytes.items ≤ MOST_BYTES) }
{
    let mut bytes = Vec::new(alloc);
    match file.take(MOST_BYTES as u64 + 1).read_to_end(&mut bytes) {
        Err(error) => Err(fault_of_read(&error)),
        Ok(_) if bytes.len() > MOST_BYTES => Err(ShelfFault::TooLarge),
        Ok(_) => Ok(bytes),
    }
}

/// The files below a folder, those in its folders too. More than `MOST_PATHS` of either are too large.
pub(crate) fn files_below<R: Files + AllocGlobal + Clone + Drop>(
    alloc: Global,
    rt: &R,
    folder: &str,
) -> Result<Found, ShelfFault>
    ensures { IfOk result (λ found. AllOneLine (keys found)) }
{
    let mut walk = Walk::new(alloc);
    match walk_from(rt, folder, &mut walk) {
        Ok(()) => Ok(walk.into_files()),
        Err(fault) => Err(fault),
    }
}

fn walk_from<R: Files + AllocGlobal + Clone + Drop>(
    rt: &R,
    folder: &str,
    walk: &mut Walk,
) -> Result<(), ShelfFault> {
    walk.meet_folder(folder)?;
    while let Some(next) = walk.next_folder() {
        read_folder(rt, next, walk)?;
    }
    Ok(())
}

fn read_folder<R: Files + AllocGlobal + Clone + Drop>(
    rt: &R,
    folder: String,
    walk: &mut Walk,
) -> Result<(), ShelfFault>
    requires { walk.old.met ≤ 4096 }
    ensures { GoesOn walk.old walk.new }
{
    match fs::read_dir(rt, folder.as_str()) {
        Ok(entries) => meet_entries(entries, walk),
        Err(error) => Err(ShelfFault::from(error)),
    }
}

// Dear to prove, since the open folder is alive wherever an entry may end the walk.
fn meet_entries<R: Files + AllocGlobal + Clone + Drop>(
    entries: ReadDir<R>,
    walk: &mut Walk,
) -> Result<(), ShelfFault>
    requires { walk.old.met ≤ 4096 }
    ensures { GoesOn walk.old walk.new }
{
    for entry in entries {
        meet_entry(entry, walk)?;
    }
    Ok(())
}

fn meet_entry<R: Files + Drop>(
    entry: io::Result<DirEntry<R>>,
    walk: &mut Walk,
) -> Result<(), ShelfFault>
    requires { walk.old.met ≤ 4096 }
    ensures { GoesOn walk.old walk.new }
{
    match entry {
        Ok(entry) => meet_named(&entry, walk),
        Err(error) => pass_over(error),
    }
}

fn meet_named<R: Files>(entry: &DirEntry<R>, walk: &mut Walk) -> Result<(), ShelfFault>
    requires { walk.old.met ≤ 4096 }
    ensures { GoesOn walk.old walk.new }
{
    let kind = entry.file_type()?;
    walk.meet(entry.path().as_str(), kind)
}

// A name that is no text is passed over; any other error ends the walk.
fn pass_over(error: io::Error) -> Result<(), ShelfFault>
    ensures passed { IsOk result ↔ (error_kind error ≡ ErrorKind.InvalidFilename) }
    ensures fault { IfErr result (λ fault. fault ≡ fault_of (error_kind error)) }
{
    if error.kind() == ErrorKind::InvalidFilename {
        return Ok(());
    }
    Err(ShelfFault::from(error))
}
