ghost use Rattle.std.specs.Prelude.{◌≡◌, ◌⊎◌, false, is_some, true, IfSome, IsNone, None, Some, option_map};
ghost use Rattle.std.specs.Option.{option_copied};
ghost use Rattle.bosh_base.specs.Call.{method_of};
ghost use Rattle.bosh_base.specs.History.{Extends};
ghost use Rattle.bosh_base.specs.declared.moves.Cause.TheVariants as causes;
ghost use Rattle.bosh_book.specs.Current.{dep_of};
ghost use Rattle.bosh_cloud.specs.declared.fault.CloudFault.TheVariants as cloud;
ghost use Rattle.bosh_world.specs.Performing.{RefusesToPerform};
ghost use Rattle.bosh_world.specs.Stopping.{EachTakes, Takes, TakesEffect, TakesEffects, comes, effect_by, effect_of};
ghost use Rattle.bosh_traps.specs.Traps.{decision};
ghost use Rattle.bosh_world.specs.Silent.{IsSilent, moves_of};

use crate::fault::stop_fault;
use crate::{Site, SiteFault};
use bosh_base::{Begin, Cause, Name, Owner};
use bosh_book::{Book, Permit};
use bosh_calls::OpenCall;
use bosh_cloud::{CloudFault, SimCloud};
use bosh_ports::Keeper;
use bosh_records::Records;
use bosh_traps::{Firing, see};

impl<K: Keeper, L: Keeper> Site<K, L> {
    /// The director stops in the call of a permit, whose effect and those of other open calls come before. For want of
    /// memory before the first of them nothing happens.
    pub(crate) fn stop_in(&mut self, permit: &Permit, firing: Firing) -> SiteFault
        requires running { self.old.history.is_halted ≡ false }
        requires stopped { decision (method_of permit.now.call) permit.now.owner self.old.traps.items ≡ Some firing }
        ensures refused { RefusesToPerform L.bodies L.faults self.old permit.now result self.new }
        ensures grows { Extends (moves_of self.old) (moves_of self.new) }
        ensures silent { IsSilent self.old self.new }
    {
        let came = take_effects(
            &self.book,
            &mut self.cloud,
            self.calls.unsettled(),
            permit.n(),
            firing,
        );
        let cause = match came {
            Some(cause) => cause,
            None => return SiteFault::Memory,
        };
        see(&mut self.traps, permit.call().method(), permit.owner());
        self.history.follow(
            self.alloc,
            self.book.entries(),
            self.cloud.effects(),
            Some(cause),
        );
        stop_fault(cause)
    }
}

// Open calls that were not performed have their effects, in the order in which they began: the call in which the director
// stops, and with it the others, as the trap says; as far as there is memory. Why the director stops; nothing, where there
// was no memory for the first of them.
fn take_effects<K: Keeper, L: Keeper>(
    book: &Book<K>,
    cloud: &mut SimCloud<L>,
    calls: &[OpenCall],
    n: u64,
    firing: Firing,
) -> Option<Cause>
    requires { cloud.old.is_stale ≡ false }
    ensures takes { TakesEffects L.bodies L.faults cloud.old result cloud.new }
    ensures each { EachTakes L.bodies L.faults book.now.records firing n false calls.now cloud.old result cloud.new }
{
    let mut came = false;
    for call in calls {
        if !comes(firing, call.n == n, call.place) {
            continue;
        }
        match take_effect(book, cloud, call.n) {
            Ok(()) => came = true,
            Err(CloudFault::Memory) if came => return Some(Cause::Stop),
            Err(CloudFault::Memory) => return None,
            Err(_) => return Some(Cause::CloudStore),
        }
    }
    Some(Cause::Stop)
}

// Whether an open call has its effect in a stop.
fn comes(firing: Firing, is_stopped: bool, performed: Option<usize>) -> bool
    ensures { result ≡ comes firing is_stopped performed }
{
    if is_stopped {
        return !firing.before;
    }
    firing.all && performed.is_none()
}

// An open call has its effect in the cloud, unless a fate takes it away.
fn take_effect<K: Keeper, L: Keeper>(
    book: &Book<K>,
    cloud: &mut SimCloud<L>,
    n: u64,
) -> Result<(), CloudFault>
    requires { cloud.old.is_stale ≡ false }
    ensures takes { TakesEffect L.bodies L.faults cloud.old result cloud.new }
    ensures does { Takes L.bodies L.faults result cloud.old (effect_of book.now.records n) cloud.new }
{
    let records = book.records();
    match records.call(n) {
        Some(begin) => perform_begun(records, cloud, begin),
        None => Ok(()),
    }
}

fn perform_begun<L: Keeper>(
    records: &Records,
    cloud: &mut SimCloud<L>,
    begin: &Begin,
) -> Result<(), CloudFault>
    requires { cloud.old.is_stale ≡ false }
    ensures takes { TakesEffect L.bodies L.faults cloud.old result cloud.new }
    ensures does { Takes L.bodies L.faults result cloud.old
        (option_map (effect_by begin.now) (dep_of records.now begin.now.owner)) cloud.new }
{
    match dep_of(records, &begin.owner) {
        Some(dep) => perform_for(cloud, begin, dep),
        None => Ok(()),
    }
}

fn perform_for<L: Keeper>(
    cloud: &mut SimCloud<L>,
    begin: &Begin,
    dep: &Name,
) -> Result<(), CloudFault>
    requires { cloud.old.is_stale ≡ false }
    ensures takes { TakesEffect L.bodies L.faults cloud.old result cloud.new }
    ensures does { Takes L.bodies L.faults result cloud.old (Some (effect_by begin.now dep.now)) cloud.new }
{
    match cloud.perform(begin.n, &begin.owner, dep, &begin.call) {
        Ok(answer) => {
            drop(answer);
            Ok(())
        }
        Err(fault) => Err(fault),
    }
}

// The deployment that what is done for an owner is for: that of an instance, that of the task of a compile machine, or
// that of the instance that had an orphaned disk.
fn dep_of<'a>(records: &'a Records, owner: &'a Owner) -> Option<&'a Name>
    ensures { option_copied result ≡ dep_of records.now owner.now }
{
    match owner {
        Owner::Instance(inst) => Some(&inst.dep),
        Owner::Compile(task, _) => records.task(*task)?.dep.as_ref(),
        Owner::Disk(disk) => Some(&records.orphan(*disk)?.orphan.inst.dep),
    }
}
