ghost use Rattle.std.specs.Prelude.{◌≡◌, ◌≤◌, ◌++◌, [], ◌∷◌, IfErr, OnOk};
ghost use Rattle.bosh_asks.specs.declared.fault.BookFault.TheVariants as faults;

use crate::Book;
use bosh_asks::BookFault;
use bosh_ports::{Keeper, Rig, Rigged};

impl<K: Keeper> Book<Rigged<K>> {
    /// Makes the k-th append from now on fail in the store, of those that find it not broken.
    pub fn rig(&mut self, k: u64, how: Rig) -> Result<(), BookFault>
        requires { 1 ≤ k }
        ensures ok { OnOk result (self.new ≡ record self.old {
          journal = record self.old.journal {
            store = record self.old.journal.store {
              armed = self.old.journal.store.armed ++ record { appends = k; how = how } ∷ [];
            };
          };
        }) }
        ensures memory { IfErr result (λ fault. (fault ≡ faults.Memory) × (self.new ≡ self.old)) }
    {
        match self.journal.rig(k, how) {
            Ok(()) => Ok(()),
            Err(_) => Err(BookFault::Memory),
        }
    }

    /// The rig that broke the store, until the book is reloaded.
    pub fn sprung(&self) -> Option<Rig>
        ensures { result ≡ self.now.journal.store.sprung }
    {
        self.journal.sprung()
    }
}
