//! What is found in the two stores of a site.
ghost use Rattle.std.specs.Prelude.{List, Some, ◌≡◌, ℕ};
ghost use Rattle.bosh_base.specs.declared.entry.Entry.{Entry};
ghost use Rattle.bosh_history.specs.Fit.{IsFit};
ghost use Rattle.bosh_history.specs.Moments.{Opening};
ghost use Rattle.bosh_history.specs.Notes.{Outside};
ghost use Rattle.bosh_journal.specs.Spelled.{Spell};
ghost use Rattle.bosh_world.specs.Loads.{Loads};
ghost use Rattle.laws_sites.specs.Good.{IsGood, SayDone};

use bosh_ports::Keeper;
use bosh_world::Site;

/// The entries that the bodies of its director's store spell, and the effects that those of its cloud's store say were done,
/// are a fit pair, whether it has halted or goes on.
pub fn what_a_good_site_leaves_is_fit<K: Keeper, L: Keeper>(site: &Site<K, L>)
    ensures { (outside : Outside) (o : Opening) (list cloud_list : List (List ℕ)) (entries effects : List Entry)
        → IsFit outside o → IsGood outside K.bodies L.bodies o site.now
        → K.bodies site.now.book.journal.store.inner ≡ Some list → L.bodies site.now.cloud.store ≡ Some cloud_list
        → Spell list entries → SayDone cloud_list effects
        → IsFit outside (record { entries = entries; effects = effects }) }
{}

/// So a site that is loaded on its two stores is good as well, and begins on a fit pair.
pub fn a_load_of_what_a_good_site_left_is_good<K: Keeper, L: Keeper>(
    was: &Site<K, L>,
    now: &Site<K, L>,
)
    ensures { (outside : Outside) (before : Opening) → IsFit outside before
        → IsGood outside K.bodies L.bodies before was.now
        → Loads K.bodies K.faults K.is_broken L.bodies L.faults was.now.book.journal.store.inner was.now.cloud.store
        now.now → (o : Opening) × IsFit outside o × IsGood outside K.bodies L.bodies o now.now }
{}
