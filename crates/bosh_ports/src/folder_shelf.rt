// The files below the current folder as a shelf.
ghost use Rattle.std.specs.Prelude.{◌≡◌, ◌≤◌, None, IfOk, length};
ghost use Rattle.std.specs.BTreeMap.{keys};
ghost use Rattle.bosh_ports.specs.Shelf.{AllOneLine, IsListing};

use crate::folder::{files_below, kind_at, read_whole};
use crate::inside::inside;
use crate::listing::paths_below;
use crate::shelf::MOST_BYTES;
use crate::walk::Found;
use crate::{Paths, Shelf, ShelfFault};
use std::alloc::Global;
use std::fs;
use std::fs::Files;

/// The files below the current folder of a runtime. It reads nothing outside that folder, follows no symbolic link, and
/// passes over names that are no text or have a line feed. It does not tell its files.
#[derive(Drop)]
pub struct FolderShelf<'a, R: Files + AllocGlobal + Clone + Drop> {
    rt: &'a R,
    faults: u64,
}

impl<'a, R: Files + AllocGlobal + Clone + Drop> FolderShelf<'a, R> {
    pub fn new(rt: &'a R) -> FolderShelf<'a, R>
        ensures { result.faults ≡ 0 }
    {
        FolderShelf { rt, faults: 0 }
    }
}

impl<'a, R: Files + AllocGlobal + Clone + Drop> Shelf for FolderShelf<'a, R> {
    ghost files = { λ s. None };

    ghost faults = { λ s. s.faults };

    fn faults(&self) -> u64 {
        self.faults
    }

    fn read(&mut self, alloc: Global, path: &[u8]) -> Result<Vec<u8>, ShelfFault> {
        let answer = read_file(alloc, self.rt, path);
        if matches!(&answer, Err(ShelfFault::Failed)) {
            self.faults = self.faults.saturating_add(1);
        }
        answer
    }

    fn list(&mut self, alloc: Global, folder: &[u8]) -> Result<Paths, ShelfFault> {
        let answer = list_folder(alloc, self.rt, folder);
        if matches!(&answer, Err(ShelfFault::Failed)) {
            self.faults = self.faults.saturating_add(1);
        }
        answer
    }
}

// A path that leads outside is absent.
fn read_file<R: Files>(alloc: Global, rt: &R, path: &[u8]) -> Result<Vec<u8>, ShelfFault>
    ensures { IfOk result (λ bytes. length bytes.items ≤ MOST_BYTES) }
{
    match inside(path) {
        Some(place) => read_at(alloc, rt, place),
        None => Err(ShelfFault::Absent),
    }
}

fn read_at<R: Files>(alloc: Global, rt: &R, place: &str) -> Result<Vec<u8>, ShelfFault>
    ensures { IfOk result (λ bytes. length bytes.items ≤ MOST_BYTES) }
{
    if !kind_at(alloc, rt, place)?.is_file() {
        return Err(ShelfFault::Absent);
    }
    read_whole(alloc, fs::open(rt, place)?)
}

fn list_folder<R: Files + AllocGlobal + Clone + Drop>(
    alloc: Global,
    rt: &R,
    folder: &[u8],
) -> Result<Paths, ShelfFault>
    ensures { IfOk result (λ paths. IsListing folder.now paths) }
{
    let found = find_at(alloc, rt, folder)?;
    paths_below(alloc, &found, folder)
}

fn find_at<R: Files + AllocGlobal + Clone + Drop>(
    alloc: Global,
    rt: &R,
    folder: &[u8],
) -> Result<Found, ShelfFault>
    ensures { IfOk result (λ found. AllOneLine (keys found)) }
{
    match inside(folder) {
        Some(place) if kind_at(alloc, rt, place)?.is_dir() => files_below(alloc, rt, place),
        _ => Err(ShelfFault::Absent),
    }
}
