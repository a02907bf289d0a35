ghost use Rattle.std.specs.Prelude.{◌≡◌, ◌∷◌, [], false, IfErr, IfOk, IsFalse, IsTrue, OnErr, OnOk, Some};
ghost use Rattle.bosh_entry.specs.Body.{entry_of, spelling};
ghost use Rattle.bosh_journal.specs.Appends.{Changes, Pends, Puts, alone};
ghost use Rattle.bosh_journal.specs.Director.{is_snapshot};
ghost use Rattle.bosh_journal.specs.declared.fault.JournalFault.TheVariants.{Memory};

use crate::fault::is_store_fault;
use crate::translate::push_spelled;
use crate::{Journal, JournalFault};
use bosh_base::{Copyable, Entry};
use bosh_drops::put;
use bosh_ports::{Bodies, Keeper};
use std::alloc::Global;

impl<K: Keeper> Journal<K> {
    /// Puts a snapshot in the place of all entries, once it stands in the store in their place. A store that fails is
    /// told as `StoreFault`, and then `append` answers `Broken` until the journal is reloaded. For want of memory
    /// nothing changes.
    pub fn compact(&mut self, snapshot: &Entry) -> Result<(), JournalFault>
        requires whole { self.old.is_broken ≡ false }
        requires snapshot { IsTrue (is_snapshot snapshot.now) }
        ensures { Changes K.bodies K.faults K.is_broken result self.old (alone snapshot.now)
            (λ _. spelling snapshot.now ∷ []) self.new }
    {
        let bodies = single(self.alloc, snapshot)?;
        let kept = replace(
            self.alloc,
            &mut self.entries,
            snapshot,
            &mut self.store,
            &bodies,
            &mut self.pending,
        );
        self.is_broken = is_store_fault(&kept);
        self.is_alone = true;
        kept
    }
}

/// The list of the body of one entry.
fn single(alloc: Global, entry: &Entry) -> Result<Bodies, JournalFault>
    ensures spelled { IfOk result (λ bodies. bodies ≡ spelling entry.now ∷ []) }
    ensures read_again { OnOk result (entry_of (spelling entry.now) ≡ Some entry.now) }
    ensures memory { IfErr result (λ fault. fault ≡ Memory) }
{
    let mut bodies = Bodies::new(alloc);
    push_spelled(alloc, &mut bodies, entry)?;
    Ok(bodies)
}

/// Puts a copy of an item in the place of a list, once its bodies are in the store in the place of the list there. Where
/// the store fails, it is pending.
// It is generic, since an entry that is dropped where the store fails is dear to prove.
fn replace<T: Copyable, K: Keeper>(
    alloc: Global,
    items: &mut Vec<T>,
    item: &T,
    store: &mut K,
    bodies: &Bodies,
    pending: &mut Option<T>,
) -> Result<(), JournalFault>
    requires { IsFalse (K.is_broken store.old) }
    ensures ok { OnOk result (items.new.items ≡ item.now ∷ []) }
    ensures refused { OnErr result (items.new.items ≡ items.old.items) }
    ensures store { Puts K.bodies K.faults K.is_broken result store.old (λ _. bodies.now) store.new }
    ensures pends { Pends result item.now pending.new }
{
    items.reserve(1)?;
    let copy = item.copy(alloc)?;
    match store.replace(bodies) {
        Ok(()) => {
            items.clear();
            items.push_reserved(copy);
            Ok(())
        }
        Err(fault) => {
            put(pending, Some(copy));
            Err(JournalFault::from(fault))
        }
    }
}
