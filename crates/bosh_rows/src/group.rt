ghost use Rattle.std.specs.Prelude.{◌≡◌};

use crate::Step;
use crate::disks::{is_active, is_spare_beside, lesser_if};
use bosh_base::{DiskRow, Method};

/// Some of the disks of an instance.
#[derive(Clone, Copy)]
pub(crate) enum Group<'a> {
    Every,
    Active,
    /// Those of which no use is left beside the one that takes the place of the active one.
    Spare(Option<&'a DiskRow>),
}

impl Group<'_> {
    ghost use Rattle.bosh_rows.specs.Group.{is_in};
    ghost use Rattle.bosh_rows.specs.NextStep.{letting_go};

    pub(crate) fn has(self, disk: &DiskRow) -> bool
        ensures { result ≡ is_in self.entry disk.now }
    {
        match self {
            Group::Every => true,
            Group::Active => is_active(disk),
            Group::Spare(coming) => is_spare_beside(coming, disk),
        }
    }

    /// The least mounted disk of the group is unmounted, and else the least attached one detached.
    pub(crate) fn letting_go(self, disks: &[DiskRow]) -> Option<Step>
        ensures { result ≡ letting_go (is_in self.entry) disks.now }
    {
        let mut mounted = None;
        let mut attached = None;
        for disk in disks {
            let is_in = self.has(disk);
            mounted = lesser_if(is_in && disk.mounted, mounted, disk);
            attached = lesser_if(is_in && disk.attached, attached, disk);
        }
        Step::on(Method::UnmountDisk, mounted).or(Step::on(Method::DetachDisk, attached))
    }
}
