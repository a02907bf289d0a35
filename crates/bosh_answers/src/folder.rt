//! Files and folders: those that blocks kept stand before those of the shelf.
ghost use Rattle.std.specs.Prelude.{◌≡◌, ◌≢◌, ◌++◌, ◌+◌, ◌≤◌, [], ◌∷◌, IfErr, IfOk, IfSome, List, None, OnOk, drop, length};
ghost use Rattle.std.specs.Result.{result_map_both};
ghost use Rattle.bosh_answers.specs.Files.{file_from, kept_below, text_at};
ghost use Rattle.bosh_answers.specs.Folder.{folder_of, judged, listed, shelved_among, shelved_at, shelved_in};
ghost use Rattle.bosh_answers.specs.Shelved.{Adds, Answers, IsKeptFile, IsShelved, KeepsShelf};
ghost use Rattle.bosh_ports.specs.Shelf.{FailsByCount};
ghost use Rattle.bosh_ports.specs.declared.shelf.ShelfFault.TheVariants.{Memory};
ghost use Rattle.bosh_release_files.specs.declared.folder.File.{File as FileSeen};

use crate::{Files, KeptFile};
use bosh_base::Text;
use bosh_ports::{MOST_PATHS, Paths, Shelf, ShelfFault, is_below};
use bosh_release_files::File;
use std::alloc::Global;

/// The bytes of the file at a path.
pub fn read_file<F: Shelf>(
    alloc: Global,
    files: &Files,
    shelf: &mut F,
    path: &[u8],
) -> Result<Vec<u8>, ShelfFault>
    ensures kept { IfSome (text_at files.now path.now) (λ text. IsKeptFile text result × (shelf.new ≡ shelf.old)) }
    ensures shelved { text_at files.now path.now ≡ None → IsShelved F.files F.faults path.now shelf.old result shelf.new }
{
    match files.get(path) {
        Some(text) => Ok(Vec::from_slice(alloc, text.as_slice())?),
        None => shelf.read(alloc, path),
    }
}

/// The files below a folder, by their paths from there: first those of the shelf that no block keeps, and then those that
/// blocks keep.
pub fn read_folder<F: Shelf>(
    alloc: Global,
    files: &Files,
    shelf: &mut F,
    folder: &[u8],
) -> Result<Vec<File>, ShelfFault>
    ensures answer { IfSome (F.files shelf.old) (λ there.
        Answers (λ found. found.items) result (folder_of folder.now files.now there)) }
    ensures kept { IfOk result (λ found. (shelved : List FileSeen) × (found.items ≡ shelved ++ kept_below folder.now files.now)) }
    ensures some { IfOk result (λ found. (found.items ≢ []) × (length found.items ≤ MOST_PATHS)) }
    ensures shelf { KeepsShelf F.files F.faults shelf.old shelf.new }
    ensures failed { FailsByCount result (F.faults shelf.old) (F.faults shelf.new) }
{
    let mut found = Vec::new(alloc);
    add_shelved(alloc, files, shelf, folder, &mut found)?;
    add_kept(alloc, files, folder, &mut found)?;
    judged(found)
}

// The files of a folder, where there are any and not too many.
fn judged(found: Vec<File>) -> Result<Vec<File>, ShelfFault>
    ensures { result_map_both (λ it. it.items) (λ fault. fault) result ≡ judged found.items }
{
    if found.is_empty() {
        return Err(ShelfFault::Absent);
    }
    if found.len() > MOST_PATHS {
        return Err(ShelfFault::TooLarge);
    }
    Ok(found)
}

// The paths below a folder; one that is not on the shelf has none.
fn listed<F: Shelf>(alloc: Global, shelf: &mut F, folder: &[u8]) -> Result<Paths, ShelfFault>
    ensures answer { IfSome (F.files shelf.old) (λ there. Answers (λ paths. paths) result (listed folder.now there)) }
    ensures shelf { KeepsShelf F.files F.faults shelf.old shelf.new }
    ensures failed { FailsByCount result (F.faults shelf.old) (F.faults shelf.new) }
{
    match shelf.list(alloc, folder) {
        Err(ShelfFault::Absent) => Ok(Paths::new(alloc)),
        answer => answer,
    }
}

// Adds the files of the shelf that no block keeps.
fn add_shelved<F: Shelf>(
    alloc: Global,
    files: &Files,
    shelf: &mut F,
    folder: &[u8],
    found: &mut Vec<File>,
) -> Result<(), ShelfFault>
    ensures answer { IfSome (F.files shelf.old) (λ there.
        Adds result found.old.items found.new.items (shelved_in folder.now files.now there)) }
    ensures shelf { KeepsShelf F.files F.faults shelf.old shelf.new }
    ensures failed { FailsByCount result (F.faults shelf.old) (F.faults shelf.new) }
{
    let paths = listed(alloc, shelf, folder)?;
    add_each(alloc, files, shelf, folder, &paths, found)
}

// Adds the files of paths of the shelf.
fn add_each<F: Shelf>(
    alloc: Global,
    files: &Files,
    shelf: &mut F,
    folder: &[u8],
    paths: &Paths,
    found: &mut Vec<File>,
) -> Result<(), ShelfFault>
    ensures answer { IfSome (F.files shelf.old) (λ there.
        Adds result found.old.items found.new.items (shelved_among folder.now files.now there paths.now)) }
    ensures shelf { KeepsShelf F.files F.faults shelf.old shelf.new }
    ensures failed { FailsByCount result (F.faults shelf.old) (F.faults shelf.new) }
{
    for path in paths.iter() {
        add_unless_kept(alloc, files, shelf, folder, path.as_slice(), found)?;
    }
    Ok(())
}

// Adds the file of a path of the shelf, unless a block keeps one of that path.
fn add_unless_kept<F: Shelf>(
    alloc: Global,
    files: &Files,
    shelf: &mut F,
    folder: &[u8],
    path: &[u8],
    found: &mut Vec<File>,
) -> Result<(), ShelfFault>
    ensures answer { IfSome (F.files shelf.old) (λ there.
        Adds result found.old.items found.new.items (shelved_at folder.now files.now there path.now)) }
    ensures shelf { KeepsShelf F.files F.faults shelf.old shelf.new }
    ensures failed { FailsByCount result (F.faults shelf.old) (F.faults shelf.new) }
{
    if files.get(path).is_some() {
        return Ok(());
    }
    let bytes = shelf.read(alloc, path)?;
    push_file(alloc, folder, path, bytes, found)
}

// Adds the files that blocks keep.
fn add_kept(
    alloc: Global,
    files: &Files,
    folder: &[u8],
    found: &mut Vec<File>,
) -> Result<(), ShelfFault>
    ensures ok { OnOk result (found.new.items ≡ found.old.items ++ kept_below folder.now files.now) }
    ensures err { IfErr result (λ fault. fault ≡ Memory) }
{
    for file in files.as_slice() {
        add_if_below(alloc, folder, file, found)?;
    }
    Ok(())
}

fn add_if_below(
    alloc: Global,
    folder: &[u8],
    file: &KeptFile,
    found: &mut Vec<File>,
) -> Result<(), ShelfFault>
    ensures ok { OnOk result (found.new.items ≡ found.old.items ++ kept_below folder.now (file.now ∷ [])) }
    ensures err { IfErr result (λ fault. fault ≡ Memory) }
{
    if !is_below(folder, file.path.as_slice()) {
        return Ok(());
    }
    let bytes = Vec::from_slice(alloc, file.text.as_slice())?;
    push_file(alloc, folder, file.path.as_slice(), bytes, found)
}

// What follows the folder and a slash in a path.
fn path_from<'a>(folder: &[u8], path: &'a [u8]) -> &'a [u8]
    ensures { result.now ≡ drop (length folder.now + 1) path.now }
{
    match path.get(folder.len() + 1..) {
        Some(rest) => rest,
        None => &[],
    }
}

fn push_file(
    alloc: Global,
    folder: &[u8],
    path: &[u8],
    bytes: Vec<u8>,
    found: &mut Vec<File>,
) -> Result<(), ShelfFault>
    ensures ok { OnOk result (found.new.items ≡ found.old.items ++ file_from folder.now path.now bytes.items ∷ []) }
    ensures err { IfErr result (λ fault. fault ≡ Memory) }
{
    let path = Vec::from_slice(alloc, path_from(folder, path))?;
    found.push(File {
        path: Text::from(path),
        bytes: Text::from(bytes),
    })?;
    Ok(())
}
