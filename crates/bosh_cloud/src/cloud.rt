ghost use Rattle.std.specs.Prelude.{◌≡◌, ◌≤◌, [], ◌∷◌, ◌++◌, IfErr, OnOk};
ghost use Rattle.std.specs.List.{filter_map};
ghost use Rattle.bosh_base.specs.Cloud.{disk_of, disks, disks_created, is_disk_there, is_vm_there, machine_of, machines, vms_created};
ghost use Rattle.bosh_cloud.specs.Loading.{IsKept};
ghost use Rattle.bosh_inventory.specs.Rows.{slots};
ghost use Rattle.bosh_ports.specs.Faults.{count_with};

use crate::CloudFault;
use bosh_base::{Disk, Entry, Machine, Method, Owner, Text};
use bosh_fates::{Doom, Fate};
use bosh_inventory::Inventory;
use bosh_ports::Keeper;
use std::alloc::Global;
use std::marker::Model;

/// A simulated cloud over the store of what was done to it.
#[derive(Drop)]
pub struct SimCloud<L: Keeper> {
    pub(crate) alloc: Global,
    pub(crate) store: L,
    pub(crate) inventory: Inventory,
    pub(crate) dooms: Vec<Doom>,
    pub(crate) fired: u64,
    pub(crate) is_stale: bool,
    /// The body that the store failed at last.
    pub(crate) pending: Option<Text>,
}

impl<L: Keeper> Model for SimCloud<L> {
    ghost use Rattle.std.specs.Prelude.{◌≡◌, false};
    ghost use Rattle.bosh_cloud.specs.CloudView.{CloudView};

    ghost Value = { CloudView L };

    ghost view = { λ cloud. record {
      store = cloud.store;
      effects = cloud.inventory;
      dooms = cloud.dooms.items;
      fired = cloud.fired;
      is_stale = cloud.is_stale;
      pending = cloud.pending;
    } };

    ghost invariant = { λ cloud. cloud.is_stale ≡ false → L.is_broken cloud.store ≡ false };
}

impl<L: Keeper> SimCloud<L> {
    /// Makes the k-th call from now on fail that is of this method, and of this owner if one is named. Of several fates
    /// that meet one call the first that was set decides, and all are spent.
    pub fn doom(
        &mut self,
        method: Method,
        owner: Option<Owner>,
        k: u64,
        fate: Fate,
    ) -> Result<(), CloudFault>
        requires { 1 ≤ k }
        ensures ok { OnOk result (self.new ≡ record self.old {
          dooms = self.old.dooms ++ record { method = method; owner = owner; calls = k; fate = fate } ∷ [];
        }) }
        ensures memory { IfErr result (λ fault. (fault ≡ CloudFault.Memory) × (self.new ≡ self.old)) }
        ensures kept { IsKept L.bodies self.old → IsKept L.bodies self.new }
    {
        self.dooms.push(Doom {
            method,
            owner,
            calls: k,
            fate,
        })?;
        Ok(())
    }

    /// How often the store has failed and how many fates have fired, up to the last number of 64 bits.
    pub fn faults(&self) -> u64
        ensures { result ≡ count_with (L.faults self.now.store) self.now.fired }
    {
        self.store.faults().saturating_add(self.fired)
    }

    /// What was done to it, in order: the effects of calls, the writes of jobs and the losses.
    pub fn effects(&self) -> &[Entry]
        ensures { result.now ≡ self.now.effects }
    {
        self.inventory.effects()
    }

    /// The machines by number: a slot for each that was made, which is empty where it is gone.
    pub fn machines(&self) -> &[Option<Machine>]
        ensures slots { result.now ≡ slots (machine_of self.now.effects) (vms_created self.now.effects) }
        ensures there { filter_map (λ slot. slot) result.now ≡ machines self.now.effects }
    {
        self.inventory.machines()
    }

    /// The disks by number, as `machines` has the machines.
    pub fn disks(&self) -> &[Option<Disk>]
        ensures slots { result.now ≡ slots (disk_of self.now.effects) (disks_created self.now.effects) }
        ensures there { filter_map (λ slot. slot) result.now ≡ disks self.now.effects }
    {
        self.inventory.disks()
    }

    /// Whether a machine is there.
    pub fn has_vm(&self, vm: u64) -> bool
        ensures { result ≡ is_vm_there self.now.effects vm }
    {
        self.inventory.has_vm(vm)
    }

    /// Whether a disk is there.
    pub fn has_disk(&self, disk: u64) -> bool
        ensures { result ≡ is_disk_there self.now.effects disk }
    {
        self.inventory.has_disk(disk)
    }

    /// Gives the store back.
    pub fn into_store(self) -> L
        ensures { result ≡ self.store }
    {
        let SimCloud { store, .. } = self;
        store
    }
}
