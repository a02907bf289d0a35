//! The instances of a goal.
ghost use Rattle.std.specs.Prelude.{Bool, Contains, List, Ok, Some};
ghost use Rattle.bosh_base.specs.declared.goal.Goal.{Goal};
ghost use Rattle.bosh_base.specs.declared.goal.GoalRow.{GoalRow};
ghost use Rattle.bosh_base.specs.declared.release.Release.{Release};
ghost use Rattle.bosh_base.specs.declared.stemcell.Stemcell.{Stemcell};
ghost use Rattle.bosh_base.specs.declared.view.View.{View};
ghost use Rattle.bosh_cloudcfg.specs.declared.config.Config.{Config};
ghost use Rattle.bosh_goal.specs.Goal.{IsGoal};
ghost use Rattle.laws_goals.specs.Kept.{AreRecordedOnce, KeepsPlace};
ghost use Rattle.laws_goals.specs.Rows.{HasSoundRows};
ghost use Rattle.bosh_manifest.specs.Sound.{IsSound};
ghost use Rattle.bosh_manifest.specs.declared.manifest.Contents.{Contents};

/// No instance of a goal stands twice; each is of the deployment, and of a group that has one plan with room for an
/// update; none is wanted younger than the last call. The manifest is a checked one.
pub fn rows_are_planned()
    ensures { (manifest : Contents) (config : Config) (releases : List Release) (stemcells : List Stemcell)
        (view : View) (recreate : Bool) (it : Goal) → IsSound manifest
        → IsGoal manifest (Some config) releases stemcells view recreate (Ok it) → HasSoundRows view.last_call it }
{}

/// A recorded instance keeps the zone that its last machine was made for, while its group lists that; and on each
/// network for which the manifest gives no addresses the first address of its last machine that is dynamic there
/// and that no other deployment has. The manifest is a checked one, and no instance is recorded twice.
pub fn rows_keep_their_places()
    ensures { (manifest : Contents) (config : Config) (releases : List Release) (stemcells : List Stemcell)
        (view : View) (recreate : Bool) (it : Goal) (want : GoalRow) → IsSound manifest → AreRecordedOnce view.rows
        → IsGoal manifest (Some config) releases stemcells view recreate (Ok it)
        → Contains it.rows want → KeepsPlace config.plan view manifest.groups want }
{}
