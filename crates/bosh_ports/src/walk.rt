// What a walk over the folders below one has met.
ghost use Rattle.std.specs.Prelude.{◌≡◌, ◌+◌, ◌≤◌, IsFalse, MatchOption};
ghost use Rattle.std.specs.BTreeMap.{keys};
ghost use Rattle.bosh_ports.specs.Shelf.{AllOneLine, has_line_feed};
ghost use Rattle.bosh_ports.specs.Walk.{GoesOn};

use crate::ShelfFault;
use crate::shelf::{MOST_PATHS, has_line_feed};
use std::alloc::Global;
use std::collections::BTreeMap;
use std::fs::FileType;
use std::marker::Model;

/// The paths that were found.
pub(crate) type Found = BTreeMap<Vec<u8>, ()>;

/// A walk over the folders below one, which meets `MOST_PATHS` of them at most, and as many files.
#[derive(Drop)]
pub(crate) struct Walk {
    alloc: Global,
    files: Found,
    folders: Vec<String>,
    met: usize,
}

impl Model for Walk {
    ghost use Rattle.std.specs.Prelude.{◌≤◌, vec_len};
    ghost use Rattle.std.specs.BTreeMap.{btree_map_len, keys};
    ghost use Rattle.bosh_ports.specs.Shelf.{AllOneLine};
    ghost use Rattle.bosh_ports.specs.Walk.{WalkState};

    ghost Value = { WalkState };

    ghost view = { λ s. record { pending = vec_len s.folders; met = s.met } };

    ghost invariant = { λ s. (s.met ≤ 4096) × (btree_map_len s.files ≤ 4096) × AllOneLine (keys s.files) };
}

impl Walk {
    pub(crate) fn new(alloc: Global) -> Walk
        ensures { result ≡ record { pending = 0; met = 0 } }
    {
        Walk {
            alloc,
            files: BTreeMap::new(alloc),
            folders: Vec::new(alloc),
            met: 0,
        }
    }

    /// A folder that is still to be read.
    pub(crate) fn next_folder(&mut self) -> Option<String>
        ensures met { self.new.met ≡ self.old.met }
        ensures next { MatchOption result (self.new.pending ≡ 0) (λ _. self.new.pending + 1 ≡ self.old.pending) }
    {
        self.folders.pop()
    }

    /// Takes note of what stands at a path: a file, a folder, or what is neither. A path with a line feed is passed
    /// over.
    pub(crate) fn meet(&mut self, path: &str, kind: FileType) -> Result<(), ShelfFault>
        requires { self.old.met ≤ 4096 }
        ensures { GoesOn self.old self.new }
    {
        if has_line_feed(path.as_bytes()) {
            return Ok(());
        }
        if kind.is_dir() {
            return self.meet_folder(path);
        }
        if kind.is_file() {
            return self.meet_file(path.as_bytes());
        }
        Ok(())
    }

    pub(crate) fn meet_folder(&mut self, path: &str) -> Result<(), ShelfFault>
        ensures { GoesOn self.old self.new }
    {
        if self.met >= MOST_PATHS {
            return Err(ShelfFault::TooLarge);
        }
        self.folders.push(String::from_str(self.alloc, path)?)?;
        self.met += 1;
        Ok(())
    }

    fn meet_file(&mut self, path: &[u8]) -> Result<(), ShelfFault>
        requires { IsFalse (has_line_feed path.now) }
        ensures { self.new ≡ self.old }
    {
        if self.files.len() >= MOST_PATHS {
            return Err(ShelfFault::TooLarge);
        }
        self.files.insert(path.to_vec(self.alloc)?, ())?;
        Ok(())
    }

    /// The paths of the files that it has met.
    pub(crate) fn into_files(self) -> Found
        ensures { AllOneLine (keys result) }
    {
        let Walk { files, .. } = self;
        files
    }
}
