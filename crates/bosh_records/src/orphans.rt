ghost use Rattle.std.specs.Prelude.{◌≡◌};
ghost use Rattle.std.specs.Ordering.{nat_cmp};
ghost use Rattle.bosh_records.specs.Changes.{with_deleting, with_disk_call, with_disk_doubt};
ghost use Rattle.bosh_records.specs.Table.{changed};

use crate::Table;
use bosh_base::{Doubt, Orphan};
use bosh_drops::put;

/// What is known of a disk that belongs to no instance any more.
#[derive(Drop)]
pub struct LooseDisk {
    pub orphan: Orphan,
    /// Its place among the disks of the open task that deletes disks.
    pub deleting: Option<usize>,
    /// The number of its open call.
    pub call: Option<u64>,
}

impl Table<u64, LooseDisk> {
    /// Notes the open call of a disk, or that it has none.
    pub fn set_call(&mut self, disk: &u64, call: Option<u64>)
        ensures { self.new.places.entries ≡ changed nat_cmp disk.now (with_disk_call call) self.old.places.entries }
    {
        if let Some(place) = self.places.get_mut(disk) {
            if let Some(loose) = place {
                loose.call = call;
            }
        }
    }

    /// Notes its place among those that are deleted.
    pub fn set_deleting(&mut self, disk: &u64, deleting: Option<usize>)
        ensures { self.new.places.entries ≡ changed nat_cmp disk.now (with_deleting deleting) self.old.places.entries }
    {
        if let Some(place) = self.places.get_mut(disk) {
            if let Some(loose) = place {
                loose.deleting = deleting;
            }
        }
    }

    /// Notes the call that leaves in doubt whether it is there, or that none does.
    pub fn set_doubt(&mut self, disk: &u64, doubt: Option<Doubt>)
        ensures { self.new.places.entries ≡ changed nat_cmp disk.now (with_disk_doubt doubt) self.old.places.entries }
    {
        if let Some(place) = self.places.get_mut(disk) {
            if let Some(loose) = place {
                put(&mut loose.orphan.doubt, doubt);
            }
        }
    }
}
