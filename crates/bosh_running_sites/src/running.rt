//! A site, and the calls that it permitted and holds.
use crate::store::MemSite;
use bosh_book::{Claim, Permit};
use bosh_book_words::Places;
use bosh_cases::CaseFault;
use bosh_world::{HeldCall, SiteFault};

/// A site, with the permits and the performed calls that are not spent.
pub struct Running {
    pub site: MemSite,
    permits: Places<Permit>,
    held: Places<HeldCall>,
}

/// What a claim was answered; the permit is kept.
#[derive(Clone, Copy, Debug, PartialEq, Eq)]
pub enum Claimed {
    Work(u64),
    Wait,
    Over,
}

impl Running {
    /// A site with none of them.
    pub fn of(site: MemSite) -> Running {
        Running {
            site,
            permits: Places::none(),
            held: Places::none(),
        }
    }

    /// The permit of a call.
    pub fn permit(&self, n: u64) -> Option<&Permit> {
        self.permits.get(n)
    }

    /// A call that was performed.
    pub fn held(&self, n: u64) -> Option<&HeldCall> {
        self.held.get(n)
    }

    /// Whether a call is open and can be performed, or was performed and can be ended.
    pub fn is_open(&self, n: u64) -> bool {
        match (self.permit(n), self.held(n)) {
            (Some(permit), _) => self.site.is_current(permit),
            (None, Some(call)) => self.site.is_held(call),
            (None, None) => false,
        }
    }

    /// Claims work of a task, and keeps the permit.
    pub fn claim(&mut self, task: u64, worker: u8) -> Result<Claimed, SiteFault> {
        match self.site.claim(task, worker)? {
            Claim::Work(permit) => Ok(self.keep(permit)),
            Claim::Wait => Ok(Claimed::Wait),
            Claim::Over => Ok(Claimed::Over),
        }
    }

    // A permit for which there is no place is given up.
    fn keep(&mut self, permit: Permit) -> Claimed {
        let n = permit.n();
        match self.permits.keep(n, permit) {
            Ok(()) => Claimed::Work(n),
            Err(permit) => {
                self.site.abandon(permit);
                Claimed::Wait
            }
        }
    }

    /// Performs the call of a permit, and keeps it. Where that is refused the permit is kept.
    pub fn perform(&mut self, n: u64) -> Result<Result<(), SiteFault>, CaseFault> {
        let Some(permit) = self.permits.take(n) else {
            return Err(CaseFault::Form);
        };
        match self.site.perform(permit) {
            Ok(call) => Ok(Ok(self.hold(n, call))),
            Err((permit, fault)) => Ok(self.keep_permit(permit, fault)),
        }
    }

    fn hold(&mut self, n: u64, call: HeldCall) {
        match self.held.keep(n, call) {
            Ok(()) => {}
            Err(call) => self.site.abandon_held(call),
        }
    }

    // Generic, as is what follows, since a refusal that is let go is dear to prove.
    fn keep_permit<E>(&mut self, permit: Permit, fault: E) -> Result<(), E> {
        let _claimed = self.keep(permit);
        Err(fault)
    }

    fn hold_after<E>(&mut self, n: u64, call: HeldCall, fault: E) -> Result<(), E> {
        self.hold(n, call);
        Err(fault)
    }

    /// Ends a call that was performed. Where that is refused the call is kept.
    pub fn settle(&mut self, n: u64) -> Result<Result<(), SiteFault>, CaseFault> {
        let Some(call) = self.held.take(n) else {
            return Err(CaseFault::Form);
        };
        match self.site.settle(call) {
            Ok(()) => Ok(Ok(())),
            Err((call, fault)) => Ok(self.hold_after(n, call, fault)),
        }
    }

    /// Gives up a call, which was performed or was not.
    pub fn abandon(&mut self, n: u64) -> Result<(), CaseFault> {
        match self.permits.take(n) {
            Some(permit) => Ok(self.site.abandon(permit)),
            None => self.abandon_held(n),
        }
    }

    fn abandon_held(&mut self, n: u64) -> Result<(), CaseFault> {
        match self.held.take(n) {
            Some(call) => Ok(self.site.abandon_held(call)),
            None => Err(CaseFault::Form),
        }
    }

    /// The site, once each call is given up.
    pub fn into_site(self) -> MemSite {
        let Running {
            site,
            permits,
            held,
        } = self;
        give_up_held(give_up(site, permits), held)
    }

    /// Gives each call up, and lets the site go. It is taken apart, since to let one go as a whole is dear to prove.
    pub fn close(self) {
        let _stores = self.into_site().into_stores();
    }
}

fn give_up(site: MemSite, permits: Places<Permit>) -> MemSite {
    let mut site = site;
    let (first, second, third) = permits.into_all();
    give_one_up(&mut site, first);
    give_one_up(&mut site, second);
    give_one_up(&mut site, third);
    site
}

fn give_one_up(site: &mut MemSite, permit: Option<Permit>) {
    match permit {
        Some(permit) => site.abandon(permit),
        None => {}
    }
}

fn give_up_held(site: MemSite, held: Places<HeldCall>) -> MemSite {
    let mut site = site;
    let (first, second, third) = held.into_all();
    give_one_held_up(&mut site, first);
    give_one_held_up(&mut site, second);
    give_one_held_up(&mut site, third);
    site
}

fn give_one_held_up(site: &mut MemSite, call: Option<HeldCall>) {
    match call {
        Some(call) => site.abandon_held(call),
        None => {}
    }
}
