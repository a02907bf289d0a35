//! Records that are written down whole, and read again.
use crate::store::body_of;
use bosh_base::Entry;
use bosh_cases::CaseFault;
use bosh_drops::beside;
use bosh_fold::apply;
use bosh_records::Records;
use bosh_views::snapshot;
use std::alloc::Global;

// A snapshot of records, and its body.
fn spelled(alloc: Global, records: &Records) -> Result<(Entry, Vec<u8>), CaseFault> {
    let Ok(snapshot) = snapshot(records) else {
        return Err(CaseFault::Memory);
    };
    with_body(alloc, Entry::Snapshot(snapshot))
}

fn with_body(alloc: Global, entry: Entry) -> Result<(Entry, Vec<u8>), CaseFault> {
    let body = body_of(alloc, &entry);
    beside(entry, body)
}

fn read_again(alloc: Global, snapshot: &Entry) -> Result<Records, CaseFault> {
    let mut records = Records::empty(alloc);
    match apply(&mut records, snapshot) {
        Ok(()) => Ok(records),
        Err(_) => Err(CaseFault::Memory),
    }
}

/// Whether records that are read from a snapshot of others tell the same: what is uploaded, the deployments, the
/// instances, the compile machines, the disks, the compiled keys and the tasks, and the number of the last call.
pub(crate) fn folds_again(alloc: Global, records: &Records) -> Result<bool, CaseFault> {
    let (snapshot, body) = spelled(alloc, records)?;
    let again = read_again(alloc, &snapshot)?;
    Ok(tells_alike(records, &again) && spelled(alloc, &again)?.1.as_slice() == body.as_slice())
}

fn tells_alike(one: &Records, other: &Records) -> bool {
    one.last_call() == other.last_call() && one.tasks_opened() == other.tasks_opened()
}
