ghost use Rattle.std.specs.Prelude.{◌≡◌, ◌++◌, [], ◌∷◌, map, Some, IfErr, IfOk, IsFalse, OnOk};
ghost use Rattle.bosh_entry.specs.Body.{entry_of, spelling};
ghost use Rattle.bosh_journal.specs.Appends.{Puts};
ghost use Rattle.bosh_journal.specs.declared.fault.JournalFault.TheVariants.{Memory};

use crate::JournalFault;
use crate::spelled::spelled;
use bosh_base::Entry;
use bosh_ports::{Bodies, Keeper};
use std::alloc::Global;

/// Puts entries in the place of the whole list of a store, in the present format.
pub(crate) fn write_all<K: Keeper>(
    alloc: Global,
    store: &mut K,
    entries: &[Entry],
) -> Result<(), JournalFault>
    requires { IsFalse (K.is_broken store.old) }
    ensures replaces { Puts K.bodies K.faults K.is_broken result store.old (λ _. map spelling entries.now) store.new }
    ensures read_again { OnOk result (map entry_of (map spelling entries.now) ≡ map Some entries.now) }
{
    let bodies = bodies_of(alloc, entries)?;
    Ok(store.replace(&bodies)?)
}

/// The bodies of entries.
fn bodies_of(alloc: Global, entries: &[Entry]) -> Result<Bodies, JournalFault>
    ensures spelled { IfOk result (λ bodies. bodies ≡ map spelling entries.now) }
    ensures read_again { OnOk result (map entry_of (map spelling entries.now) ≡ map Some entries.now) }
    ensures memory { IfErr result (λ fault. fault ≡ Memory) }
{
    let mut bodies = Bodies::new(alloc);
    for entry in entries {
        push_spelled(alloc, &mut bodies, entry)?;
    }
    Ok(bodies)
}

/// Adds the body of an entry at the end of a list.
pub(crate) fn push_spelled(
    alloc: Global,
    bodies: &mut Bodies,
    entry: &Entry,
) -> Result<(), JournalFault>
    ensures pushed { OnOk result (bodies.new ≡ bodies.old ++ spelling entry.now ∷ []) }
    ensures read_again { OnOk result (entry_of (spelling entry.now) ≡ Some entry.now) }
    ensures memory { IfErr result (λ fault. fault ≡ Memory) }
{
    let body = spelled(alloc, entry)?;
    match bodies.push(body) {
        Ok(()) => Ok(()),
        Err(_) => Err(JournalFault::Memory),
    }
}
