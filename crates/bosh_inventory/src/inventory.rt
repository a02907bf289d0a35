ghost use Rattle.std.specs.Prelude.{◌≡◌, [], is_some, IsTrue, Some};
ghost use Rattle.std.specs.List.{filter_map};
ghost use Rattle.std.specs.Option.{option_copied};
ghost use Rattle.bosh_base.specs.Cloud.{disk_of, disks, disks_created, holder_of, is_disk_mounted, is_disk_there, is_vm_there, machine_of, machines, present, vms_created};
ghost use Rattle.bosh_base.specs.CallStep.{is_movable};
ghost use Rattle.bosh_inventory.specs.Rows.{slots};

use bosh_agent::has;
use bosh_base::{Disk, Entry, Machine};
use bosh_registers::Tables;
use std::alloc::Global;
use std::marker::Model;

/// What was done to a cloud, in order, with tables of what is there. It is seen as what was done.
#[derive(Drop)]
pub struct Inventory {
    pub(crate) effects: Vec<Entry>,
    pub(crate) tables: Tables,
}

impl Model for Inventory {
    ghost use Rattle.std.specs.Prelude.{List};
    ghost use Rattle.bosh_base.specs.declared.entry.Entry.{Entry};
    ghost use Rattle.bosh_inventory.specs.Happens.{AllFollow};
    ghost use Rattle.bosh_inventory.specs.Rows.{AreTables};

    ghost Value = { List Entry };

    ghost view = { λ inventory. inventory.effects.items };

    ghost invariant = { λ inventory.
        AreTables inventory.effects.items inventory.tables.vms inventory.tables.disks inventory.tables.holders
        × AllFollow inventory.effects.items };
}

impl Inventory {
    /// Nothing was done yet.
    pub fn new(alloc: Global) -> Inventory
        ensures { result ≡ [] }
    {
        Inventory {
            effects: Vec::new(alloc),
            tables: Tables::new(alloc),
        }
    }

    /// What was done, in order.
    pub fn effects(&self) -> &[Entry]
        ensures { result.now ≡ self.now }
    {
        self.effects.as_slice()
    }

    /// The machines by number: a slot for each that was made, which is empty where it is gone.
    pub fn machines(&self) -> &[Option<Machine>]
        ensures slots { result.now ≡ slots (machine_of self.now) (vms_created self.now) }
        ensures there { filter_map (λ slot. slot) result.now ≡ machines self.now }
    {
        self.tables.vms.slots()
    }

    /// The disks by number, as `machines` has the machines.
    pub fn disks(&self) -> &[Option<Disk>]
        ensures slots { result.now ≡ slots (disk_of self.now) (disks_created self.now) }
        ensures there { filter_map (λ slot. slot) result.now ≡ disks self.now }
    {
        self.tables.disks.slots()
    }

    /// A machine, where it is there.
    pub fn machine(&self, vm: u64) -> Option<&Machine>
        ensures machine { option_copied result ≡ machine_of self.now vm }
        ensures there { is_some result ≡ is_vm_there self.now vm }
    {
        self.tables.vms.get(vm)
    }

    pub fn has_vm(&self, vm: u64) -> bool
        ensures { result ≡ is_vm_there self.now vm }
    {
        self.machine(vm).is_some()
    }

    /// A disk, where it is there.
    pub fn disk(&self, disk: u64) -> Option<&Disk>
        ensures disk { option_copied result ≡ disk_of self.now disk }
        ensures there { is_some result ≡ is_disk_there self.now disk }
    {
        self.tables.disks.get(disk)
    }

    pub fn has_disk(&self, disk: u64) -> bool
        ensures { result ≡ is_disk_there self.now disk }
    {
        self.disk(disk).is_some()
    }

    /// The machine that a disk is attached to.
    pub fn holder(&self, disk: u64) -> Option<u64>
        requires { IsTrue (is_disk_there self.now disk) }
        ensures { result ≡ holder_of self.now disk }
    {
        match self.tables.holders.get(disk) {
            Some(vm) => self.if_there(*vm),
            None => None,
        }
    }

    fn if_there(&self, vm: u64) -> Option<u64>
        ensures { result ≡ present self.now vm }
    {
        if self.has_vm(vm) { Some(vm) } else { None }
    }

    /// Whether a disk is on the machine or on none, and not mounted.
    pub fn is_movable(&self, vm: u64, disk: u64) -> bool
        ensures { result ≡ is_movable self.now vm disk }
    {
        if !self.has_disk(disk) {
            return false;
        }
        match self.holder(disk) {
            Some(holder) => holder == vm && !self.is_mounted(holder, disk),
            None => true,
        }
    }

    fn is_mounted(&self, vm: u64, disk: u64) -> bool
        requires { holder_of self.now disk ≡ Some vm }
        ensures { result ≡ is_disk_mounted self.now disk }
    {
        // A field that is looked at lets the prover know that the tables are those of what was done.
        let _ = &self.effects;
        match self.machine(vm) {
            Some(machine) => has(&machine.mounted, disk),
            None => false,
        }
    }
}
