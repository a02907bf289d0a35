ghost use Rattle.std.specs.Prelude.{◌≡◌, IsFalse};
ghost use Rattle.bosh_registers.specs.Store.{Appends};
ghost use Rattle.bosh_ports.specs.Faults.{NeverFalls};

use crate::PutFault;
use bosh_ports::{KeepFault, Keeper};

/// Puts a body at the end of a store that is not broken.
pub(crate) fn append<L: Keeper>(store: &mut L, body: &[u8]) -> Result<(), PutFault>
    requires { IsFalse (L.is_broken store.old) }
    ensures appends { Appends L.bodies L.faults L.is_broken result store.old body.now store.new }
    ensures count { NeverFalls (L.faults store.old) (L.faults store.new) }
{
    match store.append(body) {
        Ok(()) => Ok(()),
        Err(KeepFault::Failed) => Err(PutFault::StoreFailed),
        Err(KeepFault::Memory) => Err(PutFault::Memory),
        Err(KeepFault::Broken) => unreachable!(),
    }
}
