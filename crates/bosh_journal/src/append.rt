ghost use Rattle.std.specs.Prelude.{◌≡◌, ◌++◌, [], ◌∷◌, IsFalse, IsTrue, OnErr, OnOk};
ghost use Rattle.bosh_entry.specs.Body.{spelling};
ghost use Rattle.bosh_journal.specs.Appends.{Changes, Pends, Puts, added};
ghost use Rattle.bosh_journal.specs.Director.{is_directors};

use crate::fault::is_store_fault;
use crate::spelled::spelled;
use crate::{Journal, JournalFault};
use bosh_base::{Copyable, Entry};
use bosh_drops::put;
use bosh_ports::Keeper;
use std::alloc::Global;

impl<K: Keeper> Journal<K> {
    /// Adds an entry of the director at the end, once it is in the store. A store that fails is told as `StoreFault`,
    /// and then `Broken` is answered until the journal is reloaded. For want of memory nothing changes.
    pub fn append(&mut self, entry: &Entry) -> Result<(), JournalFault>
        requires { IsTrue (is_directors entry.now) }
        ensures { Changes K.bodies K.faults K.is_broken result self.old (added entry.now)
            (λ list. list ++ spelling entry.now ∷ []) self.new }
    {
        if self.is_broken {
            return Err(JournalFault::Broken);
        }
        let body = spelled(self.alloc, entry)?;
        let kept = keep(
            self.alloc,
            &mut self.entries,
            entry,
            &mut self.store,
            &body,
            &mut self.pending,
        );
        self.is_broken = is_store_fault(&kept);
        self.is_alone = false;
        kept
    }
}

/// Adds a copy of an item at the end of a list, once its body is in the store. Where the store fails, it is pending.
// It is generic, since an entry that is dropped where the store fails is dear to prove.
fn keep<T: Copyable, K: Keeper>(
    alloc: Global,
    items: &mut Vec<T>,
    item: &T,
    store: &mut K,
    body: &[u8],
    pending: &mut Option<T>,
) -> Result<(), JournalFault>
    requires { IsFalse (K.is_broken store.old) }
    ensures ok { OnOk result (items.new.items ≡ items.old.items ++ item.now ∷ []) }
    ensures refused { OnErr result (items.new.items ≡ items.old.items) }
    ensures store { Puts K.bodies K.faults K.is_broken result store.old (λ list. list ++ body.now ∷ []) store.new }
    ensures pends { Pends result item.now pending.new }
{
    items.reserve(1)?;
    let copy = item.copy(alloc)?;
    match store.append(body) {
        Ok(()) => {
            items.push_reserved(copy);
            Ok(())
        }
        Err(fault) => {
            put(pending, Some(copy));
            Err(JournalFault::from(fault))
        }
    }
}
