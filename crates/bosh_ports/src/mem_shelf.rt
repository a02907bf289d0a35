// A shelf in memory, for tests.
ghost use Rattle.std.specs.Prelude.{◌≡◌, ◌≤◌, ◌+◌, ◌↔◌, [], None, Some, IfErr, IfOk, OnOk, IsErrOf};
ghost use Rattle.std.specs.Prelude.{IsTrue, IsFalse, length, if◌then◌else◌};
ghost use Rattle.bosh_ports.specs.Faults.{NeverFalls, count_with};
ghost use Rattle.bosh_ports.specs.Shelf.{AnswersFile, AnswersPaths, FailsByCount, IsListing, Places};
ghost use Rattle.bosh_ports.specs.Shelf.{file_at, has_line_feed, paths_below, placed};
ghost use Rattle.bosh_ports.specs.MemShelf.{IsFailing, ShelfState, faults_after};
ghost use Rattle.bosh_ports.specs.declared.shelf.ShelfFault.TheVariants.{Memory};

use crate::listing::paths_below;
use crate::shelf::MOST_BYTES;
use crate::{Paths, Shelf, ShelfFault};
use std::alloc::Global;
use std::collections::BTreeMap;
use std::marker::Model;

/// A shelf of the files that were added to it. It fails one call.
#[derive(Drop)]
pub struct MemShelf {
    alloc: Global,
    files: BTreeMap<Vec<u8>, Vec<u8>>,
    calls: u64,
    failing: Option<u64>,
    faults: u64,
}

impl Model for MemShelf {
    ghost use Rattle.std.specs.BTreeMap.{keys};
    ghost use Rattle.bosh_ports.specs.MemShelf.{ShelfState, files_of};
    ghost use Rattle.bosh_ports.specs.Shelf.{AllOneLine};

    ghost Value = { ShelfState };

    ghost view = { λ s. record {
      files = files_of s.files.entries;
      calls = s.calls;
      failing = s.failing;
      faults = s.faults;
    } };

    ghost invariant = { λ s. AllOneLine (keys s.files) };
}

impl MemShelf {
    pub fn new(alloc: Global) -> MemShelf
        ensures { result ≡ record { files = []; calls = 0; failing = None; faults = 0 } }
    {
        MemShelf {
            alloc,
            files: BTreeMap::new(alloc),
            calls: 0,
            failing: None,
            faults: 0,
        }
    }

    /// Puts a file at a path, in place of what was there.
    pub fn add(&mut self, path: &[u8], bytes: &[u8]) -> Result<(), ShelfFault>
        requires { IsFalse (has_line_feed path.now) }
        ensures ok { OnOk result (self.new ≡ record self.old { files = placed self.old.files path.now bytes.now }) }
        ensures places { OnOk result (Places self.old.files path.now bytes.now self.new.files) }
        ensures memory { IfErr result (λ fault. (fault ≡ ShelfFault.Memory) × (self.new ≡ self.old)) }
    {
        let path = path.to_vec(self.alloc)?;
        let bytes = bytes.to_vec(self.alloc)?;
        self.files.insert(path, bytes)?;
        Ok(())
    }

    /// Makes call number `k` fail, of all calls of `read` and `list` from the making of the shelf on, counted from 1.
    /// It takes the place of a call that was named before.
    pub fn fail(&mut self, k: u64)
        ensures { self.new ≡ record self.old { failing = Some k } }
    {
        self.failing = Some(k);
    }
}

impl Shelf for MemShelf {
    ghost files = { λ s. Some s.files };

    ghost faults = { λ s. s.faults };

    fn faults(&self) -> u64 {
        self.faults
    }

    fn read(&mut self, alloc: Global, path: &[u8]) -> Result<Vec<u8>, ShelfFault>
        ensures fails { IsErrOf result ShelfFault.Failed ↔ IsFailing self.old }
        ensures calls { self.new.calls ≡ count_with self.old.calls 1 }
        ensures failing { self.new.failing ≡ self.old.failing }
        ensures faults { self.new.faults ≡ faults_after self.old.faults result }
        ensures answer { AnswersFile result (file_at self.old.files path.now) }
        ensures size { IfOk result (λ bytes. length bytes.items ≤ MOST_BYTES) }
        ensures files { Some self.new.files ≡ Some self.old.files }
        ensures count { NeverFalls self.old.faults self.new.faults }
        ensures failed { FailsByCount result self.old.faults self.new.faults }
    {
        if fails(&mut self.calls, self.failing, &mut self.faults) {
            return Err(ShelfFault::Failed);
        }
        match self.files.get(path) {
            None => Err(ShelfFault::Absent),
            Some(bytes) if bytes.len() > MOST_BYTES => Err(ShelfFault::TooLarge),
            Some(bytes) => Ok(bytes.to_vec(alloc)?),
        }
    }

    fn list(&mut self, alloc: Global, folder: &[u8]) -> Result<Paths, ShelfFault>
        ensures fails { IsErrOf result ShelfFault.Failed ↔ IsFailing self.old }
        ensures calls { self.new.calls ≡ count_with self.old.calls 1 }
        ensures failing { self.new.failing ≡ self.old.failing }
        ensures faults { self.new.faults ≡ faults_after self.old.faults result }
        ensures answer { AnswersPaths result (paths_below folder.now self.old.files) }
        ensures listing { IfOk result (λ paths. IsListing folder.now paths) }
        ensures files { Some self.new.files ≡ Some self.old.files }
        ensures count { NeverFalls self.old.faults self.new.faults }
        ensures failed { FailsByCount result self.old.faults self.new.faults }
    {
        if fails(&mut self.calls, self.failing, &mut self.faults) {
            return Err(ShelfFault::Failed);
        }
        paths_below(alloc, &self.files, folder)
    }
}

// Counts a call, and its failure where it is the one that fails.
fn fails(calls: &mut u64, failing: Option<u64>, faults: &mut u64) -> bool
    ensures fails { IsTrue result ↔ (failing ≡ Some (calls.old + 1)) }
    ensures calls { calls.new ≡ count_with calls.old 1 }
    ensures faults { faults.new ≡ (if result then count_with faults.old 1 else faults.old) }
{
    let fails = *calls < u64::MAX && failing == Some(*calls + 1);
    *calls = calls.saturating_add(1);
    if fails {
        *faults = faults.saturating_add(1);
    }
    fails
}
