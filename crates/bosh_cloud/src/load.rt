ghost use Rattle.std.specs.Prelude.{◌≡◌, ◌⊎◌, [], ◌∷◌, ◌++◌, false, if◌then◌else◌, length, IfErr, IfOk, IfSome, IsFalse, None, OnOk, Some};
ghost use Rattle.bosh_cloud.specs.Loading.{done_with, IsKept, with_body};
ghost use Rattle.bosh_cloud.specs.Notes.{SameFates};
ghost use Rattle.bosh_cloud.specs.Reads.{is_stale_after, Mends, pending_after, Reads, ReadsOne, Says, with_effects};
ghost use Rattle.bosh_cloud.specs.declared.fault.CloudFault.TheVariants.{Memory};
ghost use Rattle.bosh_entry.specs.Body.{IsEntry};
ghost use Rattle.bosh_inventory.specs.Happens.{happens, MayFollow};

use crate::{CloudFault, SimCloud};
use bosh_base::Entry;
use bosh_entry::{EntryFault, read};
use bosh_inventory::Inventory;
use bosh_ports::Keeper;
use std::alloc::Global;

impl<L: Keeper> SimCloud<L> {
    /// The cloud that a store tells of, with no fate. The store is reloaded first. A refusal gives the store back.
    pub fn load(alloc: Global, store: L) -> Result<SimCloud<L>, (L, CloudFault)>
        ensures loaded { IfOk result (λ cloud. Reads L.bodies L.faults store (Ok cloud.effects) cloud.store) }
        ensures fresh { IfOk result (λ cloud.
            cloud ≡ record cloud { dooms = []; fired = 0; is_stale = false }) }
        ensures refused { IfErr result (λ refused. Reads L.bodies L.faults store (Err refused.1) refused.0) }
        ensures kept { IfOk result (λ cloud. IfSome (L.bodies store) (λ _. IsKept L.bodies cloud)) }
    {
        let mut store = store;
        match restored(alloc, &mut store) {
            Ok(inventory) => Ok(SimCloud {
                alloc,
                store,
                inventory,
                dooms: Vec::new(alloc),
                fired: 0,
                is_stale: false,
                pending: None,
            }),
            Err(fault) => Err((store, fault)),
        }
    }

    /// The cloud as its store tells of it now. The store is reloaded first, and the fates wait on. Where it is refused
    /// the cloud stays as it was, and, but for want of memory, has to be reloaded.
    // Dear to prove: the inventory that was there goes where the one that was read takes its place.
    pub fn reload(&mut self) -> Result<(), CloudFault>
        ensures reads { Reads L.bodies L.faults self.old.store (with_effects result self.new.effects) self.new.store }
        ensures refused { IfErr result (λ _. self.new.effects ≡ self.old.effects) }
        ensures stale { self.new.is_stale ≡ is_stale_after result self.old.is_stale }
        ensures pending { self.new.pending ≡ pending_after result self.old.pending }
        ensures fates { SameFates self.old self.new }
        ensures kept { IsKept L.bodies self.old → IsKept L.bodies self.new }
    {
        match restored(self.alloc, &mut self.store) {
            Ok(inventory) => {
                self.inventory = inventory;
                self.is_stale = false;
                self.pending = None;
                Ok(())
            }
            Err(fault) => {
                self.is_stale = self.is_stale || fault != CloudFault::Memory;
                Err(fault)
            }
        }
    }
}

/// What a store tells that was done, once it is reloaded.
// Dear to prove: the inventory is alive where a body may be refused.
fn restored<L: Keeper>(alloc: Global, store: &mut L) -> Result<Inventory, CloudFault>
    ensures reads { Reads L.bodies L.faults store.old result store.new }
    ensures mends { Mends result (L.is_broken store.old) (L.is_broken store.new) }
{
    store.reload()?;
    let mut inventory = Inventory::new(alloc);
    read_bodies(alloc, store, &mut inventory)?;
    Ok(inventory)
}

fn read_bodies<L: Keeper>(
    alloc: Global,
    store: &mut L,
    inventory: &mut Inventory,
) -> Result<(), CloudFault>
    requires whole { IsFalse (L.is_broken store.old) }
    requires new { inventory.old ≡ [] }
    ensures reads { Reads L.bodies L.faults store.old (with_effects result inventory.new) store.new }
    ensures mends { Mends result false (L.is_broken store.new) }
{
    for place in 0..store.len() {
        read_body(alloc, store, inventory, place)?;
    }
    Ok(())
}

/// Adds what the body at a place says that was done. A store that did not tell its bodies may have fewer by now.
fn read_body<L: Keeper>(
    alloc: Global,
    store: &mut L,
    inventory: &mut Inventory,
    place: u64,
) -> Result<(), CloudFault>
    requires { IsFalse (L.is_broken store.old) }
    ensures reads { ReadsOne L.bodies L.faults store.old place inventory.old
        (with_effects result inventory.new) store.new }
    ensures mends { Mends result false (L.is_broken store.new) }
{
    if store.len() <= place {
        return Ok(());
    }
    let body = store.read(alloc, place)?;
    take(alloc, inventory, &body)
}

/// Adds what a body says that was done.
fn take(alloc: Global, inventory: &mut Inventory, body: &[u8]) -> Result<(), CloudFault>
    ensures says { Says (with_effects result inventory.new) (with_body (Ok inventory.old) body.now) }
    ensures failed { IfErr result (λ fault.
        (fault ≡ Memory) ⊎ (fault ≡ CloudFault.Damaged (length inventory.old))) }
{
    match read(alloc, body) {
        Ok(entry) => take_entry(alloc, inventory, entry),
        Err(EntryFault::NotAnEntry) => Err(damage(inventory)),
        Err(EntryFault::Memory) => Err(CloudFault::Memory),
    }
}

/// That the next body says nothing.
fn damage(inventory: &Inventory) -> CloudFault
    ensures { result ≡ CloudFault.Damaged (length inventory.now) }
{
    CloudFault::Damaged {
        position: inventory.effects().len() as u64,
    }
}

fn take_entry(alloc: Global, inventory: &mut Inventory, entry: Entry) -> Result<(), CloudFault>
    requires { IsEntry entry }
    ensures says { Says (with_effects result inventory.new)
        (done_with inventory.old (if happens inventory.old entry then Some entry else None)) }
    ensures failed { IfErr result (λ fault.
        (fault ≡ Memory) ⊎ (fault ≡ CloudFault.Damaged (length inventory.old))) }
{
    match inventory.may_happen(alloc, &entry) {
        Ok(true) => add(alloc, inventory, entry),
        Ok(false) => {
            drop(entry);
            Err(damage(inventory))
        }
        Err(_) => {
            drop(entry);
            Err(CloudFault::Memory)
        }
    }
}

fn add(alloc: Global, inventory: &mut Inventory, entry: Entry) -> Result<(), CloudFault>
    requires { MayFollow inventory.old entry }
    ensures ok { OnOk result (inventory.new ≡ inventory.old ++ entry ∷ []) }
    ensures memory { IfErr result (λ fault. fault ≡ Memory) }
{
    match inventory.step(alloc, &entry) {
        Ok(step) => Ok(inventory.add(entry, step)?),
        Err(_) => {
            drop(entry);
            Err(CloudFault::Memory)
        }
    }
}
