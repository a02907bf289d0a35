//! Releases, stemcells and cloud configs.
ghost use Rattle.std.specs.Prelude.{List, None, [], is_some, true, ◌∷◌, ◌≡◌, ℕ};
ghost use Rattle.bosh_asks.specs.Goals.{config_in};
ghost use Rattle.bosh_base.specs.declared.entry.Entry.TheVariants as entries;
ghost use Rattle.bosh_base.specs.declared.release.Release.{Release};
ghost use Rattle.bosh_book.specs.Uploads.{IsAdded, IsUpload};
ghost use Rattle.bosh_book.specs.declared.uploads.Added.TheVariants.{New};
ghost use Rattle.bosh_book.specs.declared.uploads.Added.{Added};
ghost use Rattle.bosh_history.specs.Fit.{IsFit};
ghost use Rattle.bosh_history.specs.Moments.{Opening};
ghost use Rattle.bosh_history.specs.Notes.{Outside};
ghost use Rattle.bosh_world.specs.Pending.{IsAllowed, Pends};
ghost use Rattle.bosh_world.specs.Refuses.{Refuses};
ghost use Rattle.bosh_world.specs.Steps.{Notes, entries_for};
ghost use Rattle.bosh_world.specs.declared.fault.SiteFault.{SiteFault};
ghost use Rattle.laws_sites.specs.Found.{IsFoundOut};
ghost use Rattle.laws_sites.specs.Good.{IsGood};

use bosh_ports::Keeper;
use bosh_world::Site;

/// A good site that records a release, or finds that it is there, is good, and so is one that refuses it.
pub fn a_good_site_takes_a_release<K: Keeper, L: Keeper>(was: &Site<K, L>, now: &Site<K, L>)
    ensures taken { (outside : Outside) (o : Opening) (release : Release) (added : Added) → IsFit outside o
        → IsFoundOut outside → IsGood outside K.bodies L.bodies o was.now
        → IsUpload was.now.book.records.releases.items release added
        → Notes K.bodies K.faults was.now (entries_for added (entries.Release release)) None now.now
        → now.now.calls ≡ was.now.calls → IsGood outside K.bodies L.bodies o now.now }
    ensures refused { (outside : Outside) (o : Opening) (release : Release) (fault : SiteFault) → IsFit outside o
        → IsFoundOut outside → IsGood outside K.bodies L.bodies o was.now
        → Refuses K.bodies K.faults was.now [] fault now.now
        → Pends was.now (IsAllowed (IsUpload was.now.book.records.releases.items release New) (entries.Release release))
        now.now → now.now.calls ≡ was.now.calls → IsGood outside K.bodies L.bodies o now.now }
{}

/// .. a stemcell.
pub fn a_good_site_takes_a_stemcell<K: Keeper, L: Keeper>(was: &Site<K, L>, now: &Site<K, L>)
    ensures taken { (outside : Outside) (o : Opening) (os version : List ℕ) (added : Added) → IsFit outside o
        → IsFoundOut outside → IsGood outside K.bodies L.bodies o was.now
        → IsAdded was.now.book.records.stemcells.items os version added
        → Notes K.bodies K.faults was.now
        (entries_for added (entries.Stemcell (record { os = os; version = version }))) None now.now
        → now.now.calls ≡ was.now.calls → IsGood outside K.bodies L.bodies o now.now }
    ensures refused { (outside : Outside) (o : Opening) (os version : List ℕ) (fault : SiteFault) → IsFit outside o
        → IsFoundOut outside → IsGood outside K.bodies L.bodies o was.now
        → Refuses K.bodies K.faults was.now [] fault now.now
        → Pends was.now (IsAllowed (IsAdded was.now.book.records.stemcells.items os version New)
        (entries.Stemcell (record { os = os; version = version }))) now.now
        → now.now.calls ≡ was.now.calls → IsGood outside K.bodies L.bodies o now.now }
{}

/// .. a cloud config.
pub fn a_good_site_takes_a_config<K: Keeper, L: Keeper>(was: &Site<K, L>, now: &Site<K, L>)
    ensures taken { (outside : Outside) (o : Opening) (file : List ℕ) → IsFit outside o
        → IsFoundOut outside → IsGood outside K.bodies L.bodies o was.now → is_some (config_in file) ≡ true
        → Notes K.bodies K.faults was.now (entries.Config file ∷ []) None now.now
        → now.now.calls ≡ was.now.calls → IsGood outside K.bodies L.bodies o now.now }
    ensures refused { (outside : Outside) (o : Opening) (file : List ℕ) (fault : SiteFault) → IsFit outside o
        → IsFoundOut outside → IsGood outside K.bodies L.bodies o was.now
        → Refuses K.bodies K.faults was.now [] fault now.now
        → Pends was.now (IsAllowed (is_some (config_in file) ≡ true) (entries.Config file)) now.now
        → now.now.calls ≡ was.now.calls → IsGood outside K.bodies L.bodies o now.now }
{}
