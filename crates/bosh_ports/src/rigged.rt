// A keeper whose appends can be made to fail.
ghost use Rattle.std.specs.Prelude.{◌≡◌, ◌<◌, ◌≤◌, ◌++◌, [], ◌∷◌, None, Some, IfErr, IfSome, IsFalse, length, OnOk};
ghost use Rattle.std.specs.Option.{ForSome};
ghost use Rattle.bosh_ports.specs.Faults.{NeverFalls};
ghost use Rattle.bosh_ports.specs.Keeper.{FailsByCount, IsBodyAt, Leaves, TellsBroken, TellsMended};
ghost use Rattle.bosh_ports.specs.Rigged.{SameRigs, RigsAfter, FailedAppend, sprung_after, due, armed_after};
ghost use Rattle.bosh_ports.specs.Rigged.{broken_of, faults_of};
ghost use Rattle.bosh_ports.specs.declared.keeper.KeepFault.TheVariants.{Memory};

use crate::{Armed, Bodies, KeepFault, Keeper, Rig};
use std::alloc::Global;
use std::marker::Model;

/// A keeper over another one, some of whose appends can be made to fail.
#[derive(Drop)]
pub struct Rigged<K: Keeper> {
    inner: K,
    armed: Vec<Armed>,
    sprung: Option<Rig>,
    fired: u64,
}

impl<K: Keeper> Model for Rigged<K> {
    ghost use Rattle.bosh_ports.specs.Rigged.{RigState};

    ghost Value = { RigState K };

    ghost view = { λ s. record { inner = s.inner; armed = s.armed.items; sprung = s.sprung; fired = s.fired } };
}

impl<K: Keeper> Rigged<K> {
    /// The keeper with no rig and no fault of its own.
    pub fn new(alloc: Global, inner: K) -> Rigged<K>
        ensures { result ≡ record { inner = inner; armed = []; sprung = None; fired = 0 } }
    {
        Rigged {
            inner,
            armed: Vec::new(alloc),
            sprung: None,
            fired: 0,
        }
    }

    /// Makes the k-th append from now on fail, of those that find the keeper not broken. Several rigs may wait at once.
    /// Of those that are due at one append the first that was set decides, and all are spent.
    /// An append that ends for want of memory leaves the rigs as they were.
    pub fn rig(&mut self, k: u64, how: Rig) -> Result<(), KeepFault>
        requires { 1 ≤ k }
        ensures ok { OnOk result
            (self.new ≡ record self.old { armed = self.old.armed ++ record { appends = k; how = how } ∷ [] }) }
        ensures memory { IfErr result (λ fault. (fault ≡ KeepFault.Memory) × (self.new ≡ self.old)) }
    {
        self.armed.push(Armed { appends: k, how })?;
        Ok(())
    }

    /// The rig that broke the keeper, until it is reloaded.
    pub fn sprung(&self) -> Option<Rig>
        ensures { result ≡ self.now.sprung }
    {
        self.sprung
    }

    /// The keeper below.
    pub fn into_inner(self) -> K
        ensures { result ≡ self.inner }
    {
        let Rigged { inner, .. } = self;
        inner
    }
}

impl<K: Keeper> Keeper for Rigged<K> {
    ghost bodies = { λ s. K.bodies s.inner };

    ghost faults = { faults_of K.faults };

    ghost is_broken = { broken_of K.is_broken };

    fn faults(&self) -> u64 {
        self.inner.faults().saturating_add(self.fired)
    }

    fn broken(&self) -> bool {
        self.sprung.is_some() || self.inner.broken()
    }

    fn len(&self) -> u64 {
        self.inner.len()
    }

    fn read(&mut self, alloc: Global, k: u64) -> Result<Vec<u8>, KeepFault>
        requires { ForSome (K.bodies self.old.inner) (λ list. k < length list) }
        ensures rigs { SameRigs self.old self.new }
        ensures body { IfSome (K.bodies self.old.inner) (λ list. IsBodyAt result list k) }
        ensures list { IfSome (K.bodies self.old.inner) (λ list. K.bodies self.new.inner ≡ Some list) }
        ensures broken { TellsBroken result (broken_of K.is_broken self.old) (broken_of K.is_broken self.new) }
        ensures count { NeverFalls (faults_of K.faults self.old) (faults_of K.faults self.new) }
        ensures failed { FailsByCount result (faults_of K.faults self.old) (faults_of K.faults self.new) }
    {
        if self.sprung.is_some() {
            return Err(KeepFault::Broken);
        }
        self.inner.read(alloc, k)
    }

    fn append(&mut self, body: &[u8]) -> Result<(), KeepFault>
        ensures rigs { RigsAfter result self.old self.new }
        ensures below { FailedAppend K.bodies K.faults result self.old body.now self.new }
        ensures list { IfSome (K.bodies self.old.inner)
            (λ list. Leaves result list (list ++ body.now ∷ []) (K.bodies self.new.inner)) }
        ensures broken { TellsBroken result (broken_of K.is_broken self.old) (broken_of K.is_broken self.new) }
        ensures count { NeverFalls (faults_of K.faults self.old) (faults_of K.faults self.new) }
        ensures failed { FailsByCount result (faults_of K.faults self.old) (faults_of K.faults self.new) }
    {
        if self.broken() {
            return Err(KeepFault::Broken);
        }
        let Some(how) = firing(&self.armed) else {
            let kept = self.inner.append(body);
            if kept != Err(KeepFault::Memory) {
                come_nearer(&mut self.armed);
            }
            return kept;
        };
        let kept = match how {
            Rig::FailLost | Rig::StopBefore => Ok(()),
            Rig::FailKept | Rig::StopAfter => self.inner.append(body),
        };
        if kept == Err(KeepFault::Memory) {
            return kept;
        }
        come_nearer(&mut self.armed);
        self.sprung = Some(how);
        self.fired = self.fired.saturating_add(1);
        Err(KeepFault::Failed)
    }

    fn replace(&mut self, list: &Bodies) -> Result<(), KeepFault>
        ensures rigs { SameRigs self.old self.new }
        ensures list { IfSome (K.bodies self.old.inner)
            (λ before. Leaves result before list.now (K.bodies self.new.inner)) }
        ensures broken { TellsBroken result (broken_of K.is_broken self.old) (broken_of K.is_broken self.new) }
        ensures count { NeverFalls (faults_of K.faults self.old) (faults_of K.faults self.new) }
        ensures failed { FailsByCount result (faults_of K.faults self.old) (faults_of K.faults self.new) }
    {
        if self.sprung.is_some() {
            return Err(KeepFault::Broken);
        }
        self.inner.replace(list)
    }

    fn reload(&mut self) -> Result<(), KeepFault>
        ensures armed { self.new.armed ≡ self.old.armed }
        ensures fired { self.new.fired ≡ self.old.fired }
        ensures sprung { self.new.sprung ≡ sprung_after result self.old.sprung }
        ensures list { IfSome (K.bodies self.old.inner) (λ list. K.bodies self.new.inner ≡ Some list) }
        ensures mended { TellsMended result (broken_of K.is_broken self.old) (broken_of K.is_broken self.new) }
        ensures count { NeverFalls (faults_of K.faults self.old) (faults_of K.faults self.new) }
        ensures failed { FailsByCount result (faults_of K.faults self.old) (faults_of K.faults self.new) }
    {
        self.inner.reload()?;
        self.sprung = None;
        Ok(())
    }
}

// The rig that decides on the next append.
fn firing(armed: &[Armed]) -> Option<Rig>
    ensures { result ≡ due armed.now }
{
    armed.iter().find(|rig| rig.appends == 1).map(|rig| rig.how)
}

fn come_nearer(armed: &mut Vec<Armed>)
    ensures { armed.new.items ≡ armed_after armed.old.items }
{
    for rig in armed.iter_mut() {
        rig.appends = rig.appends.saturating_sub(1);
    }
}
