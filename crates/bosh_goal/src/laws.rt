//! Laws of goals, on public functions that do nothing.
ghost use Rattle.std.specs.Prelude.{◌≡◌, ◌⊎◌, All, Bool, Err, List, Ok, Option};
ghost use Rattle.bosh_alike.specs.Alike.{AreAlike};
ghost use Rattle.bosh_base.specs.declared.goal.Goal.{Goal};
ghost use Rattle.bosh_base.specs.declared.release.Release.{Release};
ghost use Rattle.bosh_base.specs.declared.stemcell.Stemcell.{Stemcell};
ghost use Rattle.bosh_base.specs.declared.view.View.{View};
ghost use Rattle.bosh_cloudcfg.specs.declared.config.Config.{Config};
ghost use Rattle.bosh_goal.specs.Goal.{IsGoal};
ghost use Rattle.bosh_goal.specs.Instances.{HasInstances};
ghost use Rattle.bosh_manifest.specs.declared.manifest.Contents.{Contents};
ghost use Rattle.bosh_release.specs.Sound.{IsSound};
ghost use Rattle.bosh_manifest_names.specs.declared.fault.GoalFault.{GoalFault};
ghost use Rattle.bosh_manifest_names.specs.declared.fault.GoalFault.TheVariants.{Memory};

/// An equal manifest, config, releases, stemcells and view give an equal goal; what has a goal is refused for want of memory
/// alone; and of two refusals one is want of memory, or they are equal.
pub fn goals_are_determined()
    ensures goal { (manifest : Contents) (config : Option Config) (releases : List Release) (stemcells : List Stemcell)
        (view : View) (recreate : Bool) (one other : Goal) → All IsSound releases → AreAlike releases
        → IsGoal manifest config releases stemcells view recreate (Ok one)
        → IsGoal manifest config releases stemcells view recreate (Ok other) → one ≡ other }
    ensures given { (manifest : Contents) (config : Option Config) (releases : List Release) (stemcells : List Stemcell)
        (view : View) (recreate : Bool) (one : Goal) (fault : GoalFault) → All IsSound releases → AreAlike releases
        → IsGoal manifest config releases stemcells view recreate (Ok one)
        → IsGoal manifest config releases stemcells view recreate (Err fault) → fault ≡ Memory }
    ensures refused { (manifest : Contents) (config : Option Config) (releases : List Release) (stemcells : List Stemcell)
        (view : View) (recreate : Bool) (one other : GoalFault) → All IsSound releases → AreAlike releases
        → IsGoal manifest config releases stemcells view recreate (Err one)
        → IsGoal manifest config releases stemcells view recreate (Err other)
        → (one ≡ Memory) ⊎ ((other ≡ Memory) ⊎ (one ≡ other)) }
{}

/// A goal has a row for each instance of the manifest, by group and by index, and no other.
pub fn rows_are_of_the_instances()
    ensures { (manifest : Contents) (config : Option Config) (releases : List Release) (stemcells : List Stemcell)
        (view : View) (recreate : Bool) (it : Goal)
        → IsGoal manifest config releases stemcells view recreate (Ok it) → HasInstances manifest it }
{}
