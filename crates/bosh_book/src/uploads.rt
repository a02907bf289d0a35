ghost use Rattle.std.specs.Prelude.{◌≡◌, ◌⊎◌, IfErr, IfOk, IsFalse, IsTrue, OnOk, false, is_some, true};
ghost use Rattle.std.specs.Option.{option_copied};
ghost use Rattle.bosh_asks.specs.Faults.{name_and_version};
ghost use Rattle.bosh_asks.specs.Goals.{config_in};
ghost use Rattle.bosh_asks.specs.declared.fault.BookFault.TheVariants as faults;
ghost use Rattle.bosh_base.specs.Version.{IsVersion};
ghost use Rattle.bosh_base.specs.declared.entry.Entry.TheVariants as entries;
ghost use Rattle.bosh_book.specs.Adds.{Adds};
ghost use Rattle.bosh_book.specs.Appends.{LeavesAllowed, unless_refused};
ghost use Rattle.bosh_book.specs.Faults.{FailsAs, IsConfigFault, IsDiffering, IsNoConfig, IsQuiet, IsUploadFault};
ghost use Rattle.bosh_book.specs.Running.{is_stopped};
ghost use Rattle.bosh_book.specs.Uploads.{AreSame, GoesWith, IsAdded, IsOther, IsUpload};
ghost use Rattle.bosh_book.specs.Uploads.{are_equal, has_stemcell, if_new, recorded};
ghost use Rattle.bosh_book.specs.declared.uploads.Added.TheVariants.{New, Same};

use crate::Book;
use crate::faults::no_config;
use bosh_asks::{BookFault, config_in, differs};
use bosh_base::{
    Copyable, Entry, Name, Release, Stemcell, Text, is_same, is_version, version_order,
};
use bosh_drops::is_there;
use bosh_ports::Keeper;
use bosh_sound::{are_sound, are_sound_with};
use std::alloc::{AllocError, Global};
use std::cmp::Ordering;

/// Whether what was uploaded is new.
#[derive(Clone, Copy, Debug, PartialEq, Eq)]
pub enum Added {
    New,
    /// It was there already.
    Same,
}

impl<K: Keeper> Book<K> {
    /// Records a release. One of its name and version that is there already has to be the same, and it has to go with
    /// those that are there. One that is not sound by itself, or whose version is none, goes with none.
    #[tactic(auto, using(crate::proofs::FaultLemmas::fails_quietly, crate::proofs::PendingLemmas::made_allowed, crate::proofs::PendingLemmas::quiet_allowed))]
    pub fn upload(&mut self, release: Release) -> Result<Added, BookFault>
        ensures adds { Adds K.bodies K.faults self.old (if_new result (entries.Release release)) self.new }
        ensures told { IfOk result (IsUpload self.old.records.releases.items release) }
        ensures failed { FailsAs K.faults result self.old.journal self.new.journal }
        ensures pending { LeavesAllowed (IsUpload self.old.records.releases.items release New) result
            (entries.Release release) self.new.journal }
        ensures fault { IfErr result (IsUploadFault self.old (name_and_version release.name release.version)
            (IsOther self.old.records.releases.items release)) }
        ensures stopped { is_stopped self.old ≡ true → IfErr result (λ fault. fault ≡ faults.Stopped) }
    {
        match self.compared(&release) {
            Ok(Added::Same) => Ok(Added::Same),
            Ok(Added::New) => self.note_made(Ok((Entry::Release(release), Added::New))),
            Err(fault) => Err(fault),
        }
    }

    fn compared(&self, release: &Release) -> Result<Added, BookFault>
        ensures runs { OnOk result (is_stopped self.now ≡ false) }
        ensures told { IfOk result (IsUpload self.now.records.releases.items release.now) }
        ensures fault { IfErr result (IsUploadFault self.now (name_and_version release.now.name release.now.version)
            (IsOther self.now.records.releases.items release.now)) }
        ensures quiet { IfErr result IsQuiet }
        ensures stopped { is_stopped self.now ≡ true → IfErr result (λ fault. fault ≡ faults.Stopped) }
    {
        self.check_running()?;
        compared(self.alloc, self.records.releases(), release)
    }

    /// Records a stemcell, where it is not there yet. What is no version is taken for another one than those that are
    /// there.
    #[tactic(auto, using(crate::proofs::PendingLemmas::made_allowed, crate::proofs::PendingLemmas::quiet_allowed))]
    pub fn add_stemcell(&mut self, os: &Name, version: &[u8]) -> Result<Added, BookFault>
        ensures adds { Adds K.bodies K.faults self.old
            (if_new result (entries.Stemcell (record { os = os.now; version = version.now }))) self.new }
        ensures told { IfOk result (IsAdded self.old.records.stemcells.items os.now version.now) }
        ensures failed { FailsAs K.faults result self.old.journal self.new.journal }
        ensures pending { LeavesAllowed (IsAdded self.old.records.stemcells.items os.now version.now New) result
            (entries.Stemcell (record { os = os.now; version = version.now })) self.new.journal }
        ensures fault { IfErr result (IsUploadFault self.old (name_and_version os.now version.now) (¬ IsVersion version.now)) }
        ensures stopped { is_stopped self.old ≡ true → IfErr result (λ fault. fault ≡ faults.Stopped) }
    {
        self.check_running()?;
        if !is_version(version) {
            return Err(differs(self.alloc, os, version));
        }
        if has_stemcell(self.records.stemcells(), os, version) {
            return Ok(Added::Same);
        }
        self.note_made(stemcell(self.alloc, os, version))
    }

    /// Puts a cloud config in the place of the one that is there. A file that spells none is refused as if there were
    /// none.
    #[tactic(auto, using(crate::proofs::AddsLemmas::made_added, crate::proofs::FaultLemmas::fails_quietly, crate::proofs::PendingLemmas::made_allowed, crate::proofs::PendingLemmas::quiet_allowed))]
    pub fn set_config(&mut self, file: &[u8]) -> Result<(), BookFault>
        ensures adds { Adds K.bodies K.faults self.old (unless_refused result (entries.Config file.now)) self.new }
        ensures failed { FailsAs K.faults result self.old.journal self.new.journal }
        ensures pending { LeavesAllowed (is_some (config_in file.now) ≡ true) result (entries.Config file.now)
            self.new.journal }
        ensures spells { OnOk result (is_some (config_in file.now) ≡ true) }
        ensures fault { IfErr result (IsConfigFault self.old file.now) }
        ensures stopped { is_stopped self.old ≡ true → IfErr result (λ fault. fault ≡ faults.Stopped) }
    {
        self.check_running()?;
        check_config(self.alloc, file)?;
        self.note_made(config(self.alloc, file))
    }
}

// That a file spells a cloud config.
fn check_config(alloc: Global, file: &[u8]) -> Result<(), BookFault>
    ensures spells { OnOk result (is_some (config_in file.now) ≡ true) }
    ensures fault { IfErr result (IsNoConfig file.now) }
    ensures quiet { IfErr result IsQuiet }
{
    match spells(alloc, file) {
        Ok(true) => Ok(()),
        Ok(false) => Err(no_config()),
        Err(fault) => Err(fault),
    }
}

fn spells(alloc: Global, file: &[u8]) -> Result<bool, BookFault>
    ensures spells { IfOk result (λ yes. yes ≡ is_some (config_in file.now)) }
    ensures memory { IfErr result (λ fault. fault ≡ faults.Memory) }
{
    is_there(config_in(alloc, file))
}

fn are_equal(one: &[u8], other: &[u8]) -> bool
    ensures { result ≡ are_equal one.now other.now }
{
    matches!(version_order(one, other), Some(Ordering::Equal))
}

// What is told of a release beside those that are recorded.
fn compared(alloc: Global, releases: &[Release], release: &Release) -> Result<Added, BookFault>
    ensures told { IfOk result (IsUpload releases.now release.now) }
    ensures fault { IfErr result (IsDiffering (name_and_version release.now.name release.now.version)
        (IsOther releases.now release.now)) }
{
    match recorded(releases, release) {
        Some(there) => same_or_differs(alloc, there, release),
        None => new_or_differs(alloc, releases, release),
    }
}

// The recorded release of the name and version of another.
fn recorded<'a>(releases: &'a [Release], release: &Release) -> Option<&'a Release>
    ensures { option_copied result ≡ recorded releases.now release.now }
{
    releases.iter().find(|it| it.name == release.name
        && are_equal(it.version.as_slice(), release.version.as_slice()))
}

fn same_or_differs(alloc: Global, there: &Release, release: &Release) -> Result<Added, BookFault>
    ensures told { IfOk result (λ added. (added ≡ Same) × AreSame there.now release.now) }
    ensures fault { IfErr result (IsDiffering (name_and_version release.now.name release.now.version)
        (¬ AreSame there.now release.now)) }
{
    if is_same(&there.jobs, &release.jobs) && is_same(&there.packages, &release.packages) {
        Ok(Added::Same)
    } else {
        Err(differing(alloc, release))
    }
}

// One that is not recorded is new, where it has a version and goes with those that are.
fn new_or_differs(
    alloc: Global,
    releases: &[Release],
    release: &Release,
) -> Result<Added, BookFault>
    ensures told { IfOk result (λ added. (added ≡ New) × IsVersion release.now.version
        × GoesWith releases.now release.now) }
    ensures fault { IfErr result (IsDiffering (name_and_version release.now.name release.now.version)
        ((¬ IsVersion release.now.version) ⊎ (¬ GoesWith releases.now release.now))) }
{
    if !is_version(release.version.as_slice()) || !goes_with(alloc, releases, release)? {
        return Err(differing(alloc, release));
    }
    Ok(Added::New)
}

// Whether the recorded releases are sound, also with one more.
fn goes_with(alloc: Global, releases: &[Release], release: &Release) -> Result<bool, AllocError>
    ensures yes { IfOk result (λ yes. IsTrue yes → GoesWith releases.now release.now) }
    ensures no { IfOk result (λ yes. IsFalse yes → ¬ GoesWith releases.now release.now) }
{
    match are_sound(alloc, releases)? {
        true => are_sound_with(alloc, releases, release),
        false => Ok(false),
    }
}

// That a release is another one than those that are there.
fn differing(alloc: Global, release: &Release) -> BookFault
    ensures { (result ≡ faults.Differs (name_and_version release.now.name release.now.version))
        ⊎ (result ≡ faults.Memory) }
{
    differs(alloc, &release.name, release.version.as_slice())
}

fn has_stemcell(stemcells: &[Stemcell], os: &Name, version: &[u8]) -> bool
    ensures { result ≡ has_stemcell stemcells.now os.now version.now }
{
    stemcells.iter().any(|it| it.os == *os && are_equal(it.version.as_slice(), version))
}

fn stemcell(alloc: Global, os: &Name, version: &[u8]) -> Result<(Entry, Added), BookFault>
    ensures entry { IfOk result (λ it. it ≡ (entries.Stemcell (record { os = os.now; version = version.now }), New)) }
    ensures memory { IfErr result (λ fault. fault ≡ faults.Memory) }
{
    let os = os.copy(alloc)?;
    let version = Text::from(Vec::from_slice(alloc, version)?);
    Ok((Entry::Stemcell(Stemcell { os, version }), Added::New))
}

fn config(alloc: Global, file: &[u8]) -> Result<(Entry, ()), BookFault>
    ensures entry { IfOk result (λ it. it.0 ≡ entries.Config file.now) }
    ensures memory { IfErr result (λ fault. fault ≡ faults.Memory) }
{
    let file = Vec::from_slice(alloc, file)?;
    Ok((Entry::Config(Text::from(file)), ()))
}
