ghost use Rattle.std.specs.Prelude.{◌≡◌};
ghost use Rattle.std.specs.Option.{option_and_then};
ghost use Rattle.bosh_records.specs.Places.{places_of};
ghost use Rattle.bosh_records.specs.Readers.{machine_at, orphan_at};

use crate::Records;
use bosh_base::Owner;
use bosh_work::{MachineName, Part, Places};

impl Records {
    /// Where an owner stands in the open task that has something to do for it.
    pub fn places_of(&self, owner: &Owner) -> Places
        ensures { result ≡ places_of self.now owner.now }
    {
        match owner {
            Owner::Instance(inst) => Places {
                part: self.instances.part(inst),
                sweep: None,
                deleting: None,
            },
            Owner::Compile(task, slot) => Places {
                part: Part::none(),
                sweep: self.sweep_of(*task, *slot),
                deleting: None,
            },
            Owner::Disk(disk) => Places {
                part: Part::none(),
                sweep: None,
                deleting: self.deleting_of(*disk),
            },
        }
    }

    fn sweep_of(&self, task: u64, slot: u32) -> Option<usize>
        ensures { result
            ≡ option_and_then (λ machine. machine.sweep) (machine_at self.now (record { task = task; slot = slot })) }
    {
        self.machine(MachineName { task, slot })?.sweep
    }

    /// The place of a disk among those that the open task deletes.
    pub fn deleting_of(&self, disk: u64) -> Option<usize>
        ensures { result ≡ option_and_then (λ loose. loose.deleting) (orphan_at self.now disk) }
    {
        self.orphan(disk)?.deleting
    }
}
