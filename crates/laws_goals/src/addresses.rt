//! The addresses of a goal.
ghost use Rattle.std.specs.Prelude.{Bool, List, Ok, Some};
ghost use Rattle.bosh_bands.specs.Apart.{AreApart};
ghost use Rattle.bosh_base.specs.declared.goal.Goal.{Goal};
ghost use Rattle.bosh_base.specs.declared.release.Release.{Release};
ghost use Rattle.bosh_base.specs.declared.stemcell.Stemcell.{Stemcell};
ghost use Rattle.bosh_base.specs.declared.view.View.{View};
ghost use Rattle.bosh_cloudcfg.specs.declared.config.Config.{Config};
ghost use Rattle.bosh_goal.specs.Goal.{IsGoal};
ghost use Rattle.laws_goals.specs.Free.{HasFreeAddresses, HoldOnce};
ghost use Rattle.bosh_manifest.specs.Sound.{IsSound};
ghost use Rattle.bosh_manifest.specs.declared.manifest.Contents.{Contents};

/// The addresses of a goal are different, and free: no other deployment has one, no row has that of another
/// recorded row that stays, and no compile machine has one that anybody has. The manifest is a checked one,
/// the config's subnets have no address in common, and no two recorded rows hold one address.
pub fn goals_have_free_addresses()
    ensures { (manifest : Contents) (config : Config) (releases : List Release) (stemcells : List Stemcell)
        (view : View) (recreate : Bool) (it : Goal)
        → IsSound manifest → AreApart config.plan.subnets → HoldOnce view.rows
        → IsGoal manifest (Some config) releases stemcells view recreate (Ok it) → HasFreeAddresses view it }
{}
