ghost use Rattle.std.specs.Prelude.{◌≡◌};
ghost use Rattle.bosh_records.specs.Recorded.{recorded};
ghost use Rattle.bosh_fold.specs.Updates.{left_in, loose, other_in, update_begun_in, update_finished_in, update_in};
ghost use Rattle.bosh_fold.specs.Updates.{updated_in, with_loose, with_orphans, with_row_of};
ghost use Rattle.bosh_records.specs.declared.orphans.LooseDisk.{LooseDisk};

use bosh_base::{Entry, Orphan, Row, Update};
use bosh_plan::Updated;
use bosh_records::{LooseDisk, Records, Table};

/// The update of an instance begins. All other entries for which nothing is planned change nothing.
pub(crate) fn learn_update_begin(records: &mut Records, entry: &Entry)
    ensures { recorded records.new ≡ other_in entry.now (recorded records.old) }
{
    if let Entry::UpdBegin(update) = entry {
        begin_update(records, update);
    }
}

fn begin_update(records: &mut Records, update: &Update)
    ensures { recorded records.new ≡ update_begun_in update.now (recorded records.old) }
{
    let change = records.instances.part(&update.inst).change;
    records.works.begin_update(&update.task, change);
}

/// The update of an instance is done, or an obsolete one has nothing left.
pub(crate) fn learn_updated(records: &mut Records, entry: &Entry, updated: Updated)
    ensures { recorded records.new ≡ updated_in entry.now updated (recorded records.old) }
{
    let Updated { row, left } = updated;
    end_update(records, entry);
    record_where(records, row);
    add_orphans(&mut records.orphans, left);
}

fn end_update(records: &mut Records, entry: &Entry)
    ensures { recorded records.new ≡ update_in entry.now (recorded records.old) }
{
    match entry {
        Entry::UpdDone(update) => finish_update(records, update),
        Entry::Gone(update) => leave(records, update),
        _ => {}
    }
}

fn finish_update(records: &mut Records, update: &Update)
    ensures { recorded records.new ≡ update_finished_in update.now (recorded records.old) }
{
    let change = records.instances.part(&update.inst).change;
    records.works.finish_update(&update.task, change);
}

fn leave(records: &mut Records, update: &Update)
    ensures { recorded records.new ≡ left_in update.now (recorded records.old) }
{
    let leaving = records.instances.part(&update.inst).leaving;
    records.works.finish_leaving(&update.task, leaving);
    records.instances.forget(&update.inst);
}

// What is recorded of the instance, where anything is.
fn record_where(records: &mut Records, row: Option<Row>)
    ensures { recorded records.new ≡ with_row_of row (recorded records.old) }
{
    if let Some(row) = row {
        records.instances.record(row);
    }
}

fn add_orphans(orphans: &mut Table<u64, LooseDisk>, left: Vec<Orphan>)
    ensures { orphans.new.places.entries ≡ with_orphans left.items orphans.old.places.entries }
{
    for orphan in left {
        add_orphan(orphans, orphan);
    }
}

/// A disk belongs to no instance from now on, where its place is kept.
pub(crate) fn add_orphan(orphans: &mut Table<u64, LooseDisk>, orphan: Orphan)
    ensures { orphans.new.places.entries ≡ with_loose orphans.old.places.entries orphan }
{
    let disk = orphan.disk;
    let loose = LooseDisk {
        orphan,
        deleting: None,
        call: None,
    };
    orphans.put(&disk, loose);
}
