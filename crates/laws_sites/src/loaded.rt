//! Sites that were loaded.
ghost use Rattle.std.specs.Prelude.{◌≡◌, is_some, true};
ghost use Rattle.bosh_history.specs.Fit.{IsFit};
ghost use Rattle.bosh_history.specs.Moments.{Opening};
ghost use Rattle.bosh_history.specs.Notes.{Outside};
ghost use Rattle.bosh_world.specs.Loads.{Loads};
ghost use Rattle.laws_sites.specs.Good.{IsGood};

use bosh_ports::Keeper;
use bosh_world::Site;

/// A site that was loaded is good, and began on a fit pair, where the entries and effects that were read of its two stores are
/// a fit pair, and both keepers tell their bodies: with the entries that were read, or with a snapshot in their place.
pub fn a_site_that_was_loaded_is_good<K: Keeper, L: Keeper>(store: &K, cloud: &L, site: &Site<K, L>)
    ensures { (outside : Outside) → is_some (K.bodies store.now) ≡ true → is_some (L.bodies cloud.now) ≡ true
        → (loads : Loads K.bodies K.faults K.is_broken L.bodies L.faults store.now cloud.now site.now)
        → IsFit outside (record { entries = loads.book.first.journal.entries; effects = site.now.cloud.effects })
        → (o : Opening) × IsFit outside o × IsGood outside K.bodies L.bodies o site.now }
{}
