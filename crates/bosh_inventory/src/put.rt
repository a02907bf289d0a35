ghost use Rattle.std.specs.Prelude.{◌≡◌, [], ◌∷◌, ◌++◌, IsFalse, OnErr, OnOk};
ghost use Rattle.bosh_entry.specs.Body.{spelling};
ghost use Rattle.bosh_inventory.specs.Changes.{Leads};
ghost use Rattle.bosh_inventory.specs.Happens.{MayFollow};
ghost use Rattle.bosh_inventory.specs.Made.{MakesDisk, MakesVm};
ghost use Rattle.bosh_inventory.specs.Steps.{IsStep};
ghost use Rattle.bosh_registers.specs.Store.{Appends};
ghost use Rattle.bosh_ports.specs.Faults.{NeverFalls};

use crate::inventory::Inventory;
use crate::step::Step;
use bosh_base::{Disk, Entry, Machine};
use bosh_ports::Keeper;
use bosh_registers::{Change, PutFault, keep, keep_held, keep_made};

impl Inventory {
    /// Adds what is done, once its body is in the store. Where that fails nothing is added.
    pub fn put<L: Keeper>(
        &mut self,
        store: &mut L,
        body: &[u8],
        entry: Entry,
        step: Step,
    ) -> Result<(), PutFault>
        requires whole { IsFalse (L.is_broken store.old) }
        requires spelled { body.now ≡ spelling entry }
        requires follows { MayFollow self.old entry }
        requires step { IsStep self.old entry step }
        ensures ok { OnOk result (self.new ≡ self.old ++ entry ∷ []) }
        ensures refused { OnErr result (self.new ≡ self.old) }
        ensures store { Appends L.bodies L.faults L.is_broken result store.old (spelling entry) store.new }
        ensures count { NeverFalls (L.faults store.old) (L.faults store.new) }
    {
        match step {
            Step::Vm(machine) => self.put_vm(store, body, entry, machine),
            Step::Disk(disk) => self.put_disk(store, body, entry, disk),
            Step::Change(change) => self.put_change(store, body, entry, change),
        }
    }

    /// The same of what makes nothing.
    // Dear to prove: an entry and a change, of six kinds, are alive where the store is called.
    fn put_change<L: Keeper>(
        &mut self,
        store: &mut L,
        body: &[u8],
        entry: Entry,
        change: Change,
    ) -> Result<(), PutFault>
        requires whole { IsFalse (L.is_broken store.old) }
        requires follows { MayFollow self.old entry }
        requires leads { Leads self.old entry change }
        ensures ok { OnOk result (self.new ≡ self.old ++ entry ∷ []) }
        ensures refused { OnErr result (self.new ≡ self.old) }
        ensures store { Appends L.bodies L.faults L.is_broken result store.old body.now store.new }
        ensures count { NeverFalls (L.faults store.old) (L.faults store.new) }
    {
        let kept = keep(&mut self.effects, entry, store, body);
        if kept.is_ok() {
            change.carry(&mut self.tables);
        }
        kept
    }

    /// The same of the creation of a machine.
    fn put_vm<L: Keeper>(
        &mut self,
        store: &mut L,
        body: &[u8],
        entry: Entry,
        machine: Machine,
    ) -> Result<(), PutFault>
        requires whole { IsFalse (L.is_broken store.old) }
        requires follows { MayFollow self.old entry }
        requires makes { MakesVm self.old entry machine }
        ensures ok { OnOk result (self.new ≡ self.old ++ entry ∷ []) }
        ensures refused { OnErr result (self.new ≡ self.old) }
        ensures store { Appends L.bodies L.faults L.is_broken result store.old body.now store.new }
        ensures count { NeverFalls (L.faults store.old) (L.faults store.new) }
    {
        keep_made(
            &mut self.effects,
            entry,
            &mut self.tables.vms,
            machine,
            store,
            body,
        )
    }

    /// The same of the creation of a disk.
    fn put_disk<L: Keeper>(
        &mut self,
        store: &mut L,
        body: &[u8],
        entry: Entry,
        disk: Disk,
    ) -> Result<(), PutFault>
        requires whole { IsFalse (L.is_broken store.old) }
        requires follows { MayFollow self.old entry }
        requires makes { MakesDisk self.old entry disk }
        ensures ok { OnOk result (self.new ≡ self.old ++ entry ∷ []) }
        ensures refused { OnErr result (self.new ≡ self.old) }
        ensures store { Appends L.bodies L.faults L.is_broken result store.old body.now store.new }
        ensures count { NeverFalls (L.faults store.old) (L.faults store.new) }
    {
        keep_held(
            &mut self.effects,
            entry,
            &mut self.tables,
            disk,
            store,
            body,
        )
    }
}
