//! Tasks that open.
ghost use Rattle.std.specs.Prelude.{[], ◌≡◌, ℕ};
ghost use Rattle.bosh_asks.specs.declared.ask.Ask.{Ask};
ghost use Rattle.bosh_history.specs.Fit.{IsFit};
ghost use Rattle.bosh_history.specs.Moments.{Opening};
ghost use Rattle.bosh_history.specs.Notes.{Outside};
ghost use Rattle.bosh_world.specs.Pending.{IsOpening, Pends};
ghost use Rattle.bosh_world.specs.Refuses.{Refuses};
ghost use Rattle.bosh_world.specs.Steps.{OpensTask};
ghost use Rattle.bosh_world.specs.declared.fault.SiteFault.{SiteFault};
ghost use Rattle.laws_sites.specs.Good.{IsGood};
ghost use Rattle.laws_views.specs.Planned.{IsChecked};

use bosh_ports::Keeper;
use bosh_world::Site;

/// A good site on which a task opens for what is asked is good. The manifest of a deploy is a checked one.
pub fn a_good_site_opens_a_task<K: Keeper, L: Keeper>(was: &Site<K, L>, now: &Site<K, L>)
    ensures { (outside : Outside) (o : Opening) (ask : Ask) (task : ℕ) → IsFit outside o
        → IsGood outside K.bodies L.bodies o was.now → IsChecked ask
        → OpensTask K.bodies K.faults was.now ask task now.now
        → now.now.calls ≡ was.now.calls → IsGood outside K.bodies L.bodies o now.now }
{}

/// .. and one that refuses that is good.
pub fn a_good_site_that_opens_no_task_stays_good<K: Keeper, L: Keeper>(
    was: &Site<K, L>,
    now: &Site<K, L>,
)
    ensures { (outside : Outside) (o : Opening) (ask : Ask) (fault : SiteFault) → IsFit outside o
        → IsGood outside K.bodies L.bodies o was.now → IsChecked ask → Refuses K.bodies K.faults was.now [] fault now.now
        → now.now.calls ≡ was.now.calls → Pends was.now (IsOpening was.now.book ask) now.now
        → IsGood outside K.bodies L.bodies o now.now }
{}
