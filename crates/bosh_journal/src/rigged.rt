ghost use Rattle.std.specs.Prelude.{◌≡◌, ◌≤◌, ◌++◌, [], ◌∷◌, IfErr, OnOk};
ghost use Rattle.bosh_journal.specs.declared.fault.JournalFault.TheVariants.{Memory};

use crate::{Journal, JournalFault};
use bosh_ports::{Keeper, Rig, Rigged};

impl<K: Keeper> Journal<Rigged<K>> {
    /// Makes the k-th append from now on fail in the store, of those that find it not broken.
    pub fn rig(&mut self, k: u64, how: Rig) -> Result<(), JournalFault>
        requires { 1 ≤ k }
        ensures ok { OnOk result (self.new ≡ record self.old {
          store = record self.old.store {
            armed = self.old.store.armed ++ record { appends = k; how = how } ∷ [];
          };
        }) }
        ensures memory { IfErr result (λ fault. (fault ≡ Memory) × (self.new ≡ self.old)) }
    {
        match self.store.rig(k, how) {
            Ok(()) => Ok(()),
            Err(_) => Err(JournalFault::Memory),
        }
    }

    /// The rig that broke the store, until the journal is reloaded.
    pub fn sprung(&self) -> Option<Rig>
        ensures { result ≡ self.now.store.sprung }
    {
        self.store.sprung()
    }
}
