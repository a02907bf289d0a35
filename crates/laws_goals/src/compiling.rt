//! What a goal has compiled.
ghost use Rattle.std.specs.Prelude.{◌≡◌, Bool, List, Ok, Some, true};
ghost use Rattle.bosh_base.specs.declared.goal.Goal.{Goal};
ghost use Rattle.bosh_base.specs.declared.key.Key.{Key};
ghost use Rattle.bosh_base.specs.declared.key.KeyWork.{KeyWork};
ghost use Rattle.bosh_base.specs.declared.release.Release.{Release};
ghost use Rattle.bosh_base.specs.declared.stemcell.Stemcell.{Stemcell};
ghost use Rattle.bosh_base.specs.declared.view.View.{View};
ghost use Rattle.bosh_cloudcfg.specs.declared.config.Config.{Config};
ghost use Rattle.bosh_compile.specs.Readiness.{is_among};
ghost use Rattle.bosh_goal.specs.Goal.{IsGoal};
ghost use Rattle.laws_goals.specs.Keys.{CanBeCompiled, HasSoundKeys};
ghost use Rattle.bosh_history.specs.Keys.{are_in_order};
ghost use Rattle.bosh_keys.specs.Works.{AreKeys};
ghost use Rattle.bosh_manifest.specs.declared.manifest.Contents.{Contents};
ghost use Rattle.bosh_manifest_names.specs.Used.{UsedGroup};
ghost use Rattle.bosh_manifest_names.specs.Uses.{uses};

/// The keys of a goal are what its jobs need, directly or for another package, and what is not compiled. They stand
/// in the order of compilation, each once and after those that it needs. Where there are keys, there is a machine
/// that compiles.
pub fn keys_are_in_order()
    ensures sound { (manifest : Contents) (config : Config) (releases : List Release) (stemcells : List Stemcell)
        (view : View) (recreate : Bool) (it : Goal)
        → IsGoal manifest (Some config) releases stemcells view recreate (Ok it) → HasSoundKeys view.compiled it }
    ensures needed { (manifest : Contents) (config : Config) (releases : List Release) (stemcells : List Stemcell)
        (view : View) (recreate : Bool) (it : Goal)
        → IsGoal manifest (Some config) releases stemcells view recreate (Ok it)
        → (used : List UsedGroup) × (uses manifest config releases stemcells ≡ Ok used)
        × AreKeys used view.compiled it.keys }
{}

/// Keys in the order of compilation can be compiled one after another.
pub fn keys_in_order_can_be_compiled()
    ensures { (compiled : List Key) (works : List KeyWork)
        → are_in_order (λ key. is_among key compiled) works ≡ true → CanBeCompiled compiled works }
{}
