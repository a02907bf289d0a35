ghost use Rattle.std.specs.Prelude.{◌≡◌, ◌⊎◌, [], false, IfErr, IfOk};
ghost use Rattle.bosh_book.specs.Running.{is_stopped};
ghost use Rattle.bosh_world.specs.Loads.{IsJoined, IsNoBook, IsNotSite, IsUntold, Joins, Loads};
ghost use Rattle.bosh_world.specs.Restarts.{read_count};
ghost use Rattle.bosh_world.specs.Steps.{Comes, IsAllTold, KeepsBooks};
ghost use Rattle.bosh_world.specs.declared.fault.SiteFault.TheVariants.{Memory};

use crate::fault::{of_book, of_cloud};
use crate::{Site, Unloaded};
use bosh_book::Book;
use bosh_calls::Calls;
use bosh_cloud::SimCloud;
use bosh_moves::History;
use bosh_ports::{Keeper, Rigged};
use std::alloc::Global;

impl<K: Keeper, L: Keeper> Site<K, L> {
    /// The site of two keepers, which are reloaded first: the cloud, and then the book. Tasks that were open end as
    /// interrupted, and their ends are its first moves. A refusal gives the keepers back.
    pub fn load(alloc: Global, store: K, cloud: L) -> Result<Site<K, L>, Unloaded<K, L>>
        ensures loaded { IfOk result (Loads K.bodies K.faults K.is_broken L.bodies L.faults store cloud) }
        ensures refused { IfErr result (λ back. IsNotSite K.bodies K.faults K.is_broken L.bodies L.faults store cloud
            back.store back.cloud back.fault) }
    {
        match SimCloud::load(alloc, cloud) {
            Ok(cloud) => load_book(alloc, store, cloud),
            Err((cloud, fault)) => Err(Unloaded {
                store,
                cloud,
                fault: of_cloud(fault),
            }),
        }
    }

    // Tells the moves of the load.
    fn begin(self) -> Result<Site<K, L>, Unloaded<K, L>>
        ensures begun { IfOk result (λ site. Comes self [] site × KeepsBooks self site × IsAllTold site) }
        ensures refused { IfErr result (λ back. (back.store ≡ self.book.journal.store.inner)
            × (back.cloud ≡ self.cloud.store) × (back.fault ≡ Memory)) }
    {
        let mut site = self;
        match site.tell() {
            Ok(()) => Ok(site),
            Err(fault) => {
                let (store, cloud) = site.into_stores();
                Err(Unloaded {
                    store,
                    cloud,
                    fault,
                })
            }
        }
    }
}

fn load_book<K: Keeper, L: Keeper>(
    alloc: Global,
    store: K,
    cloud: SimCloud<L>,
) -> Result<Site<K, L>, Unloaded<K, L>>
    requires fresh { cloud.is_stale ≡ false }
    ensures loaded { IfOk result (Joins K.bodies K.faults K.is_broken store cloud) }
    ensures refused { IfErr result (λ back. (back.cloud ≡ cloud.store)
        × (IsNoBook K.bodies K.faults K.is_broken store back.store back.fault
        ⊎ IsUntold K.bodies K.faults K.is_broken store back.store back.fault)) }
{
    match Book::load(alloc, Rigged::new(alloc, store)) {
        Ok(book) => joined(alloc, book, cloud).begin(),
        Err((store, fault)) => Err(Unloaded {
            store: store.into_inner(),
            cloud: cloud.into_store(),
            fault: of_book(fault),
        }),
    }
}

// The entries that the book noted in its load are moves, and those before are not.
fn joined<K: Keeper, L: Keeper>(
    alloc: Global,
    book: Book<Rigged<K>>,
    cloud: SimCloud<L>,
) -> Site<K, L>
    requires running { is_stopped book ≡ false }
    requires fresh { cloud.is_stale ≡ false }
    ensures joined { IsJoined book cloud result }
{
    let entries = read(&book);
    let effects = cloud.effects().len();
    Site {
        alloc,
        book,
        cloud,
        history: History::new(alloc, entries, effects),
        calls: Calls::none(alloc),
        traps: Vec::new(alloc),
        opening: (entries as u64, effects as u64),
    }
}

/// How many entries a book had before it ended tasks as interrupted.
pub(crate) fn read<K: Keeper>(book: &Book<K>) -> usize
    ensures { result ≡ read_count book.now }
{
    let entries = book.entries().len();
    match book.mended() {
        Some(ended) => entries.saturating_sub(ended as usize),
        None => entries,
    }
}
