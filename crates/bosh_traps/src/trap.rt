ghost use Rattle.std.specs.Prelude.{◌≡◌, filter, map};
ghost use Rattle.bosh_fates.specs.Fates.{is_whose};
ghost use Rattle.bosh_traps.specs.Traps.{decision, firing_of, is_due, is_waiting, trap_after, traps_after, waits_for};

use bosh_base::{Method, Owner};
use bosh_fates::Fate;
use bosh_ports::Rig;

/// What is made to fail, or to stop, at its k-th time from now on, counted from 1.
#[derive(Drop)]
pub enum Trap {
    /// A call of this method, and of this owner if one is named, fails.
    Fail {
        method: Method,
        owner: Option<Owner>,
        k: u64,
        fate: Fate,
    },
    /// An append to the director's store fails.
    Store {
        k: u64,
        how: Rig,
    },
    /// The director stops in a call of this method, and of this owner if one is named: before its effect, or after it.
    /// The other calls that are open and were not performed have their effects too, or have none.
    Stop {
        before: bool,
        method: Method,
        owner: Option<Owner>,
        k: u64,
        all: bool,
    },
}

/// A trap that stops the director and waits for its call.
#[derive(Drop)]
pub struct Armed {
    pub trap: Trap,
    /// How many matching calls were performed since it was set.
    pub seen: u64,
}

/// What a trap does in its call.
#[derive(Clone, Copy, Debug, PartialEq, Eq)]
pub struct Firing {
    /// The call has no effect.
    pub before: bool,
    /// The other open calls have theirs.
    pub all: bool,
}

fn is_whose(whose: &Option<Owner>, owner: &Owner) -> bool
    ensures { result ≡ is_whose whose.now owner.now }
{
    match whose {
        Some(whose) => whose == owner,
        None => true,
    }
}

impl Armed {
    /// Whether a call is one that it waits for.
    fn waits_for(&self, call: Method, by: &Owner) -> bool
        ensures { result ≡ waits_for call by.now self.now.trap }
    {
        match &self.trap {
            Trap::Stop { method, owner, .. } => *method == call && is_whose(owner, by),
            _ => false,
        }
    }

    /// Whether the next such call is its call.
    fn is_due(&self, call: Method, by: &Owner) -> bool
        ensures { result ≡ is_due call by.now self.now }
    {
        match &self.trap {
            Trap::Stop { k, .. } => { k.saturating_sub(1) <= self.seen && self.waits_for(call, by) }
            _ => false,
        }
    }

    /// What happens there.
    fn firing(&self) -> Firing
        ensures { result ≡ firing_of self.now.trap }
    {
        match &self.trap {
            Trap::Stop { before, all, .. } => Firing {
                before: *before,
                all: *all,
            },
            _ => Firing {
                before: false,
                all: false,
            },
        }
    }

    /// Whether its call is still to come.
    fn is_waiting(&self) -> bool
        ensures { result ≡ is_waiting self.now }
    {
        match &self.trap {
            Trap::Stop { k, .. } => self.seen < *k,
            _ => false,
        }
    }

    fn see(&mut self, method: Method, owner: &Owner)
        ensures { self.new ≡ trap_after method owner.now self.old }
    {
        if self.waits_for(method, owner) {
            self.seen = self.seen.saturating_add(1);
        }
    }
}

/// What happens in a call: the first that was set decides of the traps whose call it is.
pub fn decided(traps: &[Armed], method: Method, owner: &Owner) -> Option<Firing>
    ensures { result ≡ decision method owner.now traps.now }
{
    traps
        .iter()
        .find(|trap| trap.is_due(method, owner))
        .map(|trap| trap.firing())
}

/// A call is seen by the traps that wait for it. Those whose call it is leave.
pub fn see(traps: &mut Vec<Armed>, method: Method, owner: &Owner)
    ensures { traps.new.items ≡ traps_after method owner.now traps.old.items }
{
    see_all(traps, method, owner);
    leave_spent(traps);
}

fn see_all(traps: &mut [Armed], method: Method, owner: &Owner)
    ensures { traps.new ≡ map (trap_after method owner.now) traps.old }
{
    for trap in traps {
        trap.see(method, owner);
    }
}

fn leave_spent(traps: &mut Vec<Armed>)
    ensures { traps.new.items ≡ filter is_waiting traps.old.items }
{
    traps.retain(|trap| trap.is_waiting());
}
