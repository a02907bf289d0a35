ghost use Rattle.std.specs.Prelude.{◌≡◌, ◌≤◌, Err, IfErr, IfOk, OnOk, is_ok, length, true};
ghost use Rattle.std.specs.Option.{option_copied};
ghost use Rattle.bosh_asks.specs.Goals.{AreSound};
ghost use Rattle.bosh_asks.specs.declared.fault.BookFault.TheVariants as faults;
ghost use Rattle.bosh_book.specs.Adds.{IsRecorded};
ghost use Rattle.bosh_book.specs.Faults.{IsQuiet, IsStartFault, StopsAs};
ghost use Rattle.bosh_book.specs.Folds.{IsFirstUnsound, IsRead, StandAll, TakesIn};
ghost use Rattle.bosh_book.specs.Folds.{config_of, has_config, may_stand, place_of_release, releases_in};
ghost use Rattle.bosh_journal.specs.Director.{is_snapshot};
ghost use Rattle.bosh_records.specs.Recorded.{nothing, recorded};

use bosh_asks::{BookFault, config_in};
use bosh_base::{Entry, Release};
use bosh_claim::is_allowed;
use bosh_drops::is_there;
use bosh_fold::apply;
use bosh_records::Records;
use bosh_sound::are_sound;
use std::alloc::Global;

/// What entries stand for, where each may stand after those before it: a config reads and is checked, and releases go
/// with those before them. Else the first one is named that may not.
pub(crate) fn folded(alloc: Global, entries: &[Entry]) -> Result<Records, BookFault>
    ensures read { IfOk result (IsRead entries.now) }
    ensures recorded { IfOk result (IsRecorded entries.now) }
    ensures fault { IfErr result (IsStartFault entries.now) }
    ensures quiet { IfErr result IsQuiet }
{
    let mut records = Records::empty(alloc);
    let taken = take_all(alloc, &mut records, entries);
    where_taken(records, taken)
}

// It is generic, since records that are let go are dear to prove.
fn where_taken<T: Drop>(value: T, taken: Result<(), BookFault>) -> Result<T, BookFault>
    ensures value { IfOk result (λ it. (it ≡ value) × (is_ok taken ≡ true)) }
    ensures taken { IfErr result (λ fault. taken ≡ Err fault) }
{
    match taken {
        Ok(()) => Ok(value),
        Err(fault) => Err(fault),
    }
}

fn take_all(alloc: Global, records: &mut Records, entries: &[Entry]) -> Result<(), BookFault>
    requires { recorded records.old ≡ nothing }
    ensures read { OnOk result (IsRead entries.now records.new) }
    ensures fault { IfErr result (IsStartFault entries.now) }
    ensures quiet { IfErr result IsQuiet }
{
    let taken = fold(alloc, records, entries)?;
    check(alloc, records, entries, taken)
}

// Takes entries into records up to the first that may not stand there, and answers how many.
fn fold(alloc: Global, records: &mut Records, entries: &[Entry]) -> Result<usize, BookFault>
    ensures taken { IfOk result (λ count. TakesIn records.old entries.now count records.new) }
    ensures memory { IfErr result (λ fault. fault ≡ faults.Memory) }
{
    for (place, entry) in entries.iter().enumerate() {
        if !may_stand(alloc, records, entry, place)? {
            return Ok(place);
        }
        apply(records, entry)?;
    }
    Ok(entries.len())
}

fn may_stand(
    alloc: Global,
    records: &Records,
    entry: &Entry,
    place: usize,
) -> Result<bool, BookFault>
    ensures yes { IfOk result (λ yes. yes ≡ may_stand place records.now entry.now) }
    ensures memory { IfErr result (λ fault. fault ≡ faults.Memory) }
{
    if is_snapshot(entry) && place > 0 {
        return Ok(false);
    }
    match is_allowed(alloc, records, entry) {
        Ok(true) => has_config(alloc, entry),
        Ok(false) => Ok(false),
        Err(_) => Err(BookFault::Memory),
    }
}

fn is_snapshot(entry: &Entry) -> bool
    ensures { result ≡ is_snapshot entry.now }
{
    matches!(entry, Entry::Snapshot(_))
}

// Where it is or holds a config, that is one.
fn has_config(alloc: Global, entry: &Entry) -> Result<bool, BookFault>
    ensures yes { IfOk result (λ yes. yes ≡ has_config entry.now) }
    ensures memory { IfErr result (λ fault. fault ≡ faults.Memory) }
{
    match config_of(entry) {
        Some(file) => is_there(config_in(alloc, file)),
        None => Ok(true),
    }
}

fn config_of(entry: &Entry) -> Option<&[u8]>
    ensures { option_copied result ≡ config_of entry.now }
{
    match entry {
        Entry::Config(file) => Some(file.as_slice()),
        Entry::Snapshot(snapshot) => match &snapshot.config {
            Some(file) => Some(file.as_slice()),
            None => None,
        },
        _ => None,
    }
}

// That so many entries are all, and that the releases among them go with one another.
fn check(alloc: Global, records: &Records, entries: &[Entry], taken: usize) -> Result<(), BookFault>
    ensures all { OnOk result (length entries.now ≤ taken) }
    ensures sound { OnOk result (AreSound records.now.releases.items) }
    ensures fault { IfErr result (StopsAs records.now entries.now taken) }
{
    let releases = records.releases();
    if !are_sound(alloc, releases)? {
        let number = first_unsound(alloc, releases)?;
        return Err(damaged(place_of_release(entries, number)));
    }
    if taken < entries.len() {
        return Err(damaged(taken));
    }
    Ok(())
}

fn damaged(place: usize) -> BookFault
    ensures { result ≡ faults.Damaged place }
{
    BookFault::Damaged {
        position: place as u64,
    }
}

// The number of the first release, counted from 1, with which those up to it are not sound.
fn first_unsound(alloc: Global, releases: &[Release]) -> Result<usize, BookFault>
    requires { ¬ AreSound releases.now }
    ensures first { IfOk result (IsFirstUnsound releases.now) }
    ensures memory { IfErr result (λ fault. fault ≡ faults.Memory) }
{
    for count in 1..releases.len() {
        if !are_sound(alloc, &releases[..count])? {
            return Ok(count);
        }
    }
    Ok(releases.len())
}

// The place of the entry that brought a release, by its number counted from 1.
fn place_of_release(entries: &[Entry], number: usize) -> usize
    ensures { result ≡ place_of_release entries.now number }
{
    let mut left = number;
    for (place, entry) in entries.iter().enumerate() {
        let brought = releases_in(entry);
        if left <= brought {
            return place;
        }
        left -= brought;
    }
    0
}

fn releases_in(entry: &Entry) -> usize
    ensures { result ≡ releases_in entry.now }
{
    match entry {
        Entry::Release(_) => 1,
        Entry::Snapshot(snapshot) => snapshot.releases.len(),
        _ => 0,
    }
}
