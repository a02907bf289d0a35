ghost use Rattle.std.specs.Prelude.{◌≡◌, ◌≤◌, IfErr, OnErr, OnOk};
ghost use Rattle.bosh_base.specs.History.{Extends};
ghost use Rattle.bosh_world.specs.Arms.{Arms, count_of};
ghost use Rattle.bosh_world.specs.declared.fault.SiteFault.TheVariants.{Memory};
ghost use Rattle.bosh_world.specs.Silent.{IsSilent, moves_of};
ghost use Rattle.bosh_world.specs.Steps.{IsSame};

use crate::fault::{of_book, of_cloud};
use crate::{Armed, Site, SiteFault, Trap};
use bosh_base::{Method, Owner};
use bosh_fates::Fate;
use bosh_ports::{Keeper, Rig};

impl<K: Keeper, L: Keeper> Site<K, L> {
    /// Sets a trap. Those that have not fired wait on over a restart.
    pub fn arm(&mut self, trap: Trap) -> Result<(), SiteFault>
        requires { 1 ≤ count_of trap }
        ensures ok { OnOk result (Arms self.old trap self.new) }
        ensures refused { OnErr result (IsSame self.old self.new) }
        ensures memory { IfErr result (λ fault. fault ≡ Memory) }
        ensures grows { Extends (moves_of self.old) (moves_of self.new) }
        ensures silent { IsSilent self.old self.new }
    {
        match trap {
            Trap::Fail {
                method,
                owner,
                k,
                fate,
            } => self.doom(method, owner, k, fate),
            Trap::Store { k, how } => self.rig(k, how),
            Trap::Stop {
                before,
                method,
                owner,
                k,
                all,
            } => self.wait_with(before, method, owner, k, all),
        }
    }

    fn doom(
        &mut self,
        method: Method,
        owner: Option<Owner>,
        k: u64,
        fate: Fate,
    ) -> Result<(), SiteFault>
        requires { 1 ≤ k }
        ensures ok { OnOk result (Arms self.old (Trap.Fail method owner k fate) self.new) }
        ensures refused { OnErr result (IsSame self.old self.new) }
        ensures memory { IfErr result (λ fault. fault ≡ Memory) }
        ensures grows { Extends (moves_of self.old) (moves_of self.new) }
        ensures silent { IsSilent self.old self.new }
    {
        match self.cloud.doom(method, owner, k, fate) {
            Ok(()) => Ok(()),
            Err(fault) => Err(of_cloud(fault)),
        }
    }

    fn rig(&mut self, k: u64, how: Rig) -> Result<(), SiteFault>
        requires { 1 ≤ k }
        ensures ok { OnOk result (Arms self.old (Trap.Store k how) self.new) }
        ensures refused { OnErr result (IsSame self.old self.new) }
        ensures memory { IfErr result (λ fault. fault ≡ Memory) }
        ensures grows { Extends (moves_of self.old) (moves_of self.new) }
        ensures silent { IsSilent self.old self.new }
    {
        match self.book.rig(k, how) {
            Ok(()) => Ok(()),
            Err(fault) => Err(of_book(fault)),
        }
    }

    fn wait_with(
        &mut self,
        before: bool,
        method: Method,
        owner: Option<Owner>,
        k: u64,
        all: bool,
    ) -> Result<(), SiteFault>
        ensures ok { OnOk result (Arms self.old (Trap.Stop before method owner k all) self.new) }
        ensures refused { OnErr result (IsSame self.old self.new) }
        ensures memory { IfErr result (λ fault. fault ≡ Memory) }
        ensures grows { Extends (moves_of self.old) (moves_of self.new) }
        ensures silent { IsSilent self.old self.new }
    {
        let trap = Trap::Stop {
            before,
            method,
            owner,
            k,
            all,
        };
        match self.traps.push(Armed { trap, seen: 0 }) {
            Ok(()) => Ok(()),
            Err(_) => Err(SiteFault::Memory),
        }
    }
}
