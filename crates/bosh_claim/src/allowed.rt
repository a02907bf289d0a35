ghost use Rattle.std.specs.Prelude.{◌≡◌, IfOk};
ghost use Rattle.std.specs.List.{list_any};
ghost use Rattle.bosh_claim.specs.Allowed.{allowed, are_equal, ends_call, is_new_release, is_new_stemcell};
ghost use Rattle.bosh_claim.specs.Allowed.{same_release, same_stemcell};

use crate::ClaimFault;
use crate::beginning::begins;
use crate::ending::{ends_task, ends_update, fails_task, leaves};
use crate::opening::opens;
use crate::snapshot::is_sound;
use crate::updating::begins_update;
use bosh_base::{End, Entry, Release, Stemcell, is_version, version_order};
use bosh_records::Records;
use std::alloc::Global;
use std::cmp::Ordering;

/// Whether an entry may stand after those that the records stand for. What a config says, and whether a release goes with
/// the others, is not looked at; nor is whether a goal is the one that its manifest asks for.
pub fn is_allowed(alloc: Global, records: &Records, entry: &Entry) -> Result<bool, ClaimFault>
    ensures { IfOk result (λ yes. yes ≡ allowed records.now entry.now) }
{
    match entry {
        Entry::Release(release) => Ok(is_new_release(records, release)),
        Entry::Stemcell(stemcell) => Ok(is_new_stemcell(records, stemcell)),
        Entry::Config(_) => Ok(true),
        Entry::TaskOpen(opening) => Ok(opens(records, opening)),
        Entry::Begin(begin) => begins(alloc, records, begin),
        Entry::End(end) => Ok(ends_call(records, end)),
        Entry::UpdBegin(update) => Ok(begins_update(records, update)),
        Entry::UpdDone(update) => ends_update(alloc, records, update),
        Entry::Gone(update) => leaves(alloc, records, update),
        Entry::TaskDone(task) => Ok(ends_task(records, *task)),
        Entry::TaskError(error) => Ok(fails_task(records, error)),
        Entry::Snapshot(snapshot) => Ok(records.is_empty() && is_sound(snapshot)),
        Entry::Effect(_) | Entry::Write(_) | Entry::Lost(_) => Ok(false),
    }
}

// Two versions that compare equal are one version.
fn is_new_release(records: &Records, release: &Release) -> bool
    ensures { result ≡ is_new_release records.now release.now }
{
    is_version(release.version.as_slice()) && !has_release(records.releases(), release)
}

fn has_release(releases: &[Release], release: &Release) -> bool
    ensures { result ≡ list_any (same_release release.now) releases.now }
{
    releases.iter().any(|it| it.name == release.name
        && are_equal(it.version.as_slice(), release.version.as_slice()))
}

fn is_new_stemcell(records: &Records, stemcell: &Stemcell) -> bool
    ensures { result ≡ is_new_stemcell records.now stemcell.now }
{
    is_version(stemcell.version.as_slice()) && !has_stemcell(records.stemcells(), stemcell)
}

fn has_stemcell(stemcells: &[Stemcell], stemcell: &Stemcell) -> bool
    ensures { result ≡ list_any (same_stemcell stemcell.now) stemcells.now }
{
    stemcells.iter().any(|it| it.os == stemcell.os
        && are_equal(it.version.as_slice(), stemcell.version.as_slice()))
}

fn are_equal(one: &[u8], other: &[u8]) -> bool
    ensures { result ≡ are_equal one.now other.now }
{
    matches!(version_order(one, other), Some(Ordering::Equal))
}

// The call is open, and the answer is of its kind.
fn ends_call(records: &Records, end: &End) -> bool
    ensures { result ≡ ends_call records.now end.now }
{
    match records.call(end.n) {
        Some(begin) => end.answer.is_kind(begin.call.method()),
        None => false,
    }
}
