ghost use Rattle.std.specs.Prelude.{◌≡◌, [], ◌∷◌, ◌++◌, OnErr, OnOk};
ghost use Rattle.bosh_inventory.specs.Changes.{Leads};
ghost use Rattle.bosh_inventory.specs.Happens.{MayFollow};
ghost use Rattle.bosh_inventory.specs.Made.{MakesDisk, MakesVm};
ghost use Rattle.bosh_inventory.specs.Steps.{IsStep};

use crate::inventory::Inventory;
use crate::step::Step;
use bosh_base::{Disk, Entry, Machine};
use bosh_registers::{Change, InventoryFault, push, push_held, push_made};

impl Inventory {
    /// Adds what a store tells that it was done. Where there is no memory for it nothing is added.
    pub fn add(&mut self, entry: Entry, step: Step) -> Result<(), InventoryFault>
        requires follows { MayFollow self.old entry }
        requires step { IsStep self.old entry step }
        ensures ok { OnOk result (self.new ≡ self.old ++ entry ∷ []) }
        ensures refused { OnErr result (self.new ≡ self.old) }
    {
        match step {
            Step::Vm(machine) => self.add_vm(entry, machine),
            Step::Disk(disk) => self.add_disk(entry, disk),
            Step::Change(change) => self.add_change(entry, change),
        }
    }

    // Dear to prove, as `put_change` is: a change of six kinds is alive where there may be no memory.
    fn add_change(&mut self, entry: Entry, change: Change) -> Result<(), InventoryFault>
        requires follows { MayFollow self.old entry }
        requires leads { Leads self.old entry change }
        ensures ok { OnOk result (self.new ≡ self.old ++ entry ∷ []) }
        ensures refused { OnErr result (self.new ≡ self.old) }
    {
        let added = push(&mut self.effects, entry);
        if added.is_ok() {
            change.carry(&mut self.tables);
        }
        added
    }

    fn add_vm(&mut self, entry: Entry, machine: Machine) -> Result<(), InventoryFault>
        requires follows { MayFollow self.old entry }
        requires makes { MakesVm self.old entry machine }
        ensures ok { OnOk result (self.new ≡ self.old ++ entry ∷ []) }
        ensures refused { OnErr result (self.new ≡ self.old) }
    {
        push_made(&mut self.effects, entry, &mut self.tables.vms, machine)
    }

    fn add_disk(&mut self, entry: Entry, disk: Disk) -> Result<(), InventoryFault>
        requires follows { MayFollow self.old entry }
        requires makes { MakesDisk self.old entry disk }
        ensures ok { OnOk result (self.new ≡ self.old ++ entry ∷ []) }
        ensures refused { OnErr result (self.new ≡ self.old) }
    {
        push_held(&mut self.effects, entry, &mut self.tables, disk)
    }
}
