//! The cloud that a case works on.
use crate::rotting::Damage;
use crate::shown::there;
use crate::store::{Store, new_store, rig, rotting, spoiled};
use bosh_base::{Answer, Call, Name, Owner};
use bosh_cloud::{CloudFault, SimCloud};
use bosh_ports::Rig;
use cases_given::{CaseFault, Outcome, refused};
use cases_words::{Told, push_part};
use std::alloc::Global;
use std::{fmt, str};

/// A cloud over its store, with what it answered so far. There is none after a load that was refused.
#[derive(Drop)]
pub(crate) struct Stand {
    alloc: Global,
    cloud: Option<SimCloud<Store>>,
    told: String,
}

impl Stand {
    pub(crate) fn new(alloc: Global) -> Stand {
        Stand {
            alloc,
            cloud: SimCloud::load(alloc, new_store(alloc)).ok(),
            told: String::new(alloc),
        }
    }

    pub(crate) fn alloc(&self) -> Global {
        self.alloc
    }

    pub(crate) fn cloud(&mut self) -> Result<&mut SimCloud<Store>, CaseFault> {
        match &mut self.cloud {
            Some(cloud) => Ok(cloud),
            None => Err(CaseFault::Form),
        }
    }

    // Adds what was told to what was told before.
    fn tell<T: fmt::Display>(&mut self, answer: &T) -> Result<(), CaseFault> {
        Ok(push_part(self.alloc, &mut self.told, answer)?)
    }

    // As `StoreFault` or `Damaged 2`.
    fn tell_fault(&mut self, fault: CloudFault) -> Result<(), CaseFault> {
        let refusal = refused(self.alloc, &fault)?;
        self.tell(&str::from_utf8(refusal.text()).unwrap_or("?"))
    }

    /// Tells how a call came out that has no answer of its own.
    pub(crate) fn tell_done(&mut self, done: Result<(), CloudFault>) -> Result<(), CaseFault> {
        match done {
            Ok(()) => self.tell(&"done"),
            Err(fault) => self.tell_fault(fault),
        }
    }

    fn tell_answer(&mut self, answer: Result<Answer, CloudFault>) -> Result<(), CaseFault> {
        match answer {
            Ok(answer) => self.tell(&Told(&answer)),
            Err(fault) => self.tell_fault(fault),
        }
    }

    /// Makes a call, and tells its answer.
    pub(crate) fn call(
        &mut self,
        n: u64,
        owner: &Owner,
        dep: &Name,
        call: &Call,
    ) -> Result<(), CaseFault> {
        let answer = self.cloud()?.perform(n, owner, dep, call);
        self.tell_answer(answer)
    }

    /// Tells the count of faults.
    pub(crate) fn tell_faults(&mut self) -> Result<(), CaseFault> {
        let faults = self.cloud()?.faults();
        let text = format!(in self.alloc; "faults {faults}")?;
        self.tell(&text.as_str())
    }

    fn take_store(&mut self) -> Result<Store, CaseFault> {
        match self.cloud.take() {
            Some(cloud) => Ok(cloud.into_store()),
            None => Err(CaseFault::Form),
        }
    }

    fn load(&mut self, store: Store) -> Result<(), CaseFault> {
        match SimCloud::load(self.alloc, store) {
            Ok(cloud) => {
                self.cloud = Some(cloud);
                self.tell(&"loaded")
            }
            Err((store, fault)) => {
                drop(store);
                self.tell_fault(fault)
            }
        }
    }

    /// Loads the store anew.
    pub(crate) fn load_again(&mut self) -> Result<(), CaseFault> {
        let store = self.take_store()?;
        self.load(store)
    }

    /// Loads the store anew, whose k-th append from now on fails.
    pub(crate) fn load_rigged(&mut self, k: u64, how: Rig) -> Result<(), CaseFault> {
        let mut store = self.take_store()?;
        rig(&mut store, k, how)?;
        self.load(store)
    }

    /// Loads the store anew, with damage.
    pub(crate) fn load_spoiled(&mut self, damage: &Damage) -> Result<(), CaseFault> {
        let store = self.take_store()?;
        let store = spoiled(self.alloc, store, damage)?;
        self.load(store)
    }

    /// Loads the store anew, which is damaged as soon as a body is put at its end.
    pub(crate) fn load_rotting(&mut self, damage: Damage) -> Result<(), CaseFault> {
        let store = self.take_store()?;
        let store = rotting(self.alloc, store, damage);
        self.load(store)
    }

    /// What was told, and what is there.
    pub(crate) fn into_outcome(self) -> Result<Outcome, CaseFault> {
        let Stand { alloc, cloud, told } = self;
        let there = match &cloud {
            Some(cloud) => there(alloc, cloud)?,
            None => String::from_str(alloc, "no cloud")?,
        };
        let text = format!(in alloc; "{told} | {there}")?;
        Ok(Outcome::gives(text.into_bytes()))
    }
}
