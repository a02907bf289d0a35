//! Calls on the cloud.
ghost use Rattle.std.specs.Prelude.{◌≡◌};
ghost use Rattle.bosh_agent.specs.Compiled.{compiled_digest};
ghost use Rattle.bosh_base.specs.declared.answer.Answer.{Answer};
ghost use Rattle.bosh_book.specs.declared.granted.Granted.{Granted};
ghost use Rattle.bosh_history.specs.Fit.{IsFit};
ghost use Rattle.bosh_history.specs.Moments.{Opening};
ghost use Rattle.bosh_history.specs.Notes.{Outside};
ghost use Rattle.bosh_world.specs.Performing.{Performs};
ghost use Rattle.bosh_world.specs.Told.{IsPerformable};
ghost use Rattle.laws_sites.specs.Good.{IsGood};

use bosh_ports::Keeper;
use bosh_world::Site;

/// A good site that performed a call that it might perform is good.
pub fn a_good_site_performs_what_it_may<K: Keeper, L: Keeper>(was: &Site<K, L>, now: &Site<K, L>)
    ensures { (outside : Outside) (o : Opening) (permit : Granted) (answer : Answer) → IsFit outside o
        → outside.built ≡ compiled_digest → IsGood outside K.bodies L.bodies o was.now → IsPerformable was.now permit
        → Performs L.bodies L.faults was.now permit answer now.now → IsGood outside K.bodies L.bodies o now.now }
{}
