ghost use Rattle.std.specs.Prelude.{◌≡◌, map};

use bosh_base::{DiskRow, DiskWant, Role, Seq};
use std::alloc::Global;

/// A change of one disk.
#[derive(Clone, Copy)]
pub(crate) enum Change {
    Attach,
    /// It is neither attached nor mounted.
    LetGo,
    Mount,
    Unmount,
    BecomeActive,
    BecomeOld,
}

impl Change {
    ghost use Rattle.bosh_rows.specs.DiskChange.{changed_disk};

    fn make(self, disk: &mut DiskRow)
        ensures { disk.new ≡ changed_disk self disk.old }
    {
        match self {
            Change::Attach => disk.attached = true,
            Change::LetGo => {
                disk.attached = false;
                disk.mounted = false;
            }
            Change::Mount => disk.mounted = true,
            Change::Unmount => disk.mounted = false,
            Change::BecomeActive => disk.role = Role::Active,
            Change::BecomeOld => disk.role = Role::Old,
        }
    }
}

/// A change of the disks of an instance.
#[derive(Clone, Copy)]
pub(crate) enum DiskChange<'a> {
    Each(Change),
    /// Of the disk with this number.
    One(u64, Change),
    /// Just the disks with these numbers are attached.
    AttachedBy(&'a [u64]),
    /// .. are mounted.
    MountedBy(&'a [u64]),
}

impl DiskChange<'_> {
    ghost use Rattle.bosh_rows.specs.DiskChange.{disk_after};

    fn make_to(self, disk: &mut DiskRow)
        ensures { disk.new ≡ disk_after self.entry disk.old }
    {
        match self {
            DiskChange::Each(change) => change.make(disk),
            DiskChange::One(number, change) => {
                if disk.disk == number {
                    change.make(disk);
                }
            }
            DiskChange::AttachedBy(numbers) => disk.attached = numbers.contains(&disk.disk),
            DiskChange::MountedBy(numbers) => disk.mounted = numbers.contains(&disk.disk),
        }
    }

    /// Makes the change in place: it takes no memory.
    pub(crate) fn make(self, alloc: Global, disks: &mut Seq<DiskRow>)
        ensures { disks.new ≡ map (disk_after self.entry) disks.old }
    {
        for place in 0..disks.len() {
            let mut disk = disks.set(place, blank(alloc));
            self.make_to(&mut disk);
            disks.set(place, disk);
        }
    }
}

// Stands in a list for a disk that was taken out of it: a list gives an item only for another.
fn blank(alloc: Global) -> DiskRow {
    DiskRow {
        disk: 0,
        tag: 0,
        want: DiskWant {
            size: 0,
            properties: Seq::new(alloc),
        },
        role: Role::Old,
        attached: false,
        mounted: false,
    }
}
