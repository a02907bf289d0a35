//! Goals over what is recorded.
ghost use Rattle.std.specs.Prelude.{◌≡◌, Bool, List, Ok, Some, true};
ghost use Rattle.bosh_bands.specs.Apart.{AreApart};
ghost use Rattle.bosh_base.specs.declared.goal.Goal.{Goal};
ghost use Rattle.bosh_base.specs.declared.inst.Inst.{Inst};
ghost use Rattle.bosh_base.specs.declared.release.Release.{Release};
ghost use Rattle.bosh_base.specs.declared.stemcell.Stemcell.{Stemcell};
ghost use Rattle.bosh_base.specs.declared.task.TaskKind.TheVariants.{Deploy, Fix};
ghost use Rattle.bosh_base.specs.declared.task.TaskKind.{TaskKind};
ghost use Rattle.bosh_cloudcfg.specs.declared.config.Config.{Config};
ghost use Rattle.bosh_goal.specs.Anew.{anew};
ghost use Rattle.bosh_goal.specs.Goal.{IsGoal};
ghost use Rattle.bosh_goal.specs.declared.change.Change.{Change};
ghost use Rattle.laws_goals.specs.Records.{AreRecordsInOrder, IsCurrent};
ghost use Rattle.bosh_history.specs.Goals.{is_in, named_instance};
ghost use Rattle.bosh_history.specs.Held.{view};
ghost use Rattle.bosh_history.specs.Known.{Known};
ghost use Rattle.bosh_history.specs.Sound.{is_sound_goal};
ghost use Rattle.bosh_manifest.specs.Sound.{IsSound};
ghost use Rattle.bosh_manifest.specs.declared.manifest.Contents.{Contents};

/// A deploy, and one that puts machines right, may open with the goal that a manifest has over the view of what is
/// recorded, where the records are orderly, the manifest is a checked one and the config's subnets have no address in
/// common.
pub fn goals_are_sound()
    ensures { (manifest : Contents) (config : Config) (releases : List Release) (stemcells : List Stemcell)
        (k : Known) (recreate : Bool) (it : Goal)
        → IsSound manifest → AreApart config.plan.subnets → AreRecordsInOrder k manifest.name
        → IsGoal manifest (Some config) releases stemcells (view k manifest.name) recreate (Ok it)
        → (is_sound_goal k Deploy it ≡ true) × (is_sound_goal k Fix it ≡ true) }
{}

/// A task of one instance may open with the goal that is made anew of the current one, where the instance is one of
/// that goal.
pub fn renewed_goals_are_sound()
    ensures { (k : Known) (kind : TaskKind) (inst : Inst) (change : Change) (config : Config) (goal it : Goal)
        → named_instance kind ≡ Some inst → IsCurrent k goal → is_in (Some goal) inst ≡ true
        → anew inst change (Some config) (view k goal.dep) goal ≡ Ok it → is_sound_goal k kind it ≡ true }
{}
