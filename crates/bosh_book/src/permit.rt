ghost use Rattle.std.specs.Prelude.{◌≡◌, ◌↔◌, IsTrue};
ghost use Rattle.bosh_book.specs.Current.{IsFor};

use crate::granted::Granted;
use bosh_base::{Begin, Call, Name, Owner};
use bosh_drops::let_go;
use std::marker::Model;

/// The leave to make one call. A claim alone makes it, and it has to be spent.
pub struct Permit {
    granted: Granted,
}

impl Model for Permit {
    ghost use Rattle.bosh_book.specs.declared.granted.Granted.{Granted};

    ghost Value = { Granted };

    ghost view = { λ permit. permit.granted };
}

impl Permit {
    pub(crate) fn of(granted: Granted) -> Permit
        ensures { result ≡ granted }
    {
        Permit { granted }
    }

    /// The number of the call.
    pub fn n(&self) -> u64
        ensures { result ≡ self.now.n }
    {
        self.granted.n
    }

    /// The number of the task that makes it.
    pub fn task(&self) -> u64
        ensures { result ≡ self.now.task }
    {
        self.granted.task
    }

    /// In whose name it is made.
    pub fn owner(&self) -> &Owner
        ensures { result.now ≡ self.now.owner }
    {
        &self.granted.owner
    }

    /// The deployment that it is for.
    pub fn dep(&self) -> &Name
        ensures { result.now ≡ self.now.dep }
    {
        &self.granted.dep
    }

    pub fn call(&self) -> &Call
        ensures { result.now ≡ self.now.call }
    {
        &self.granted.call
    }

    /// Whether it is the leave to make the call that begins so.
    pub(crate) fn is_begun(&self, begin: &Begin) -> bool
        ensures { IsTrue result ↔ IsFor begin.now self.now }
    {
        self.granted.is_begun(begin)
    }

    // Spends it.
    pub(crate) fn spend(self) {
        let Permit { granted } = self;
        let_go(granted);
    }
}
