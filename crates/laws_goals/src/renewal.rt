//! Goals that are made anew of the current one.
ghost use Rattle.std.specs.Prelude.{◌≡◌, Ok, Some, map, true};
ghost use Rattle.bosh_base.specs.declared.goal.Goal.{Goal};
ghost use Rattle.bosh_base.specs.declared.inst.Inst.{Inst};
ghost use Rattle.bosh_base.specs.declared.view.View.{View};
ghost use Rattle.bosh_cloudcfg.specs.declared.config.Config.{Config};
ghost use Rattle.bosh_goal.specs.Anew.{anew};
ghost use Rattle.bosh_goal.specs.declared.change.Change.{Change};
ghost use Rattle.laws_goals.specs.Free.{HasFreeAddresses};
ghost use Rattle.laws_goals.specs.Keys.{CanBeCompiled};
ghost use Rattle.laws_goals.specs.Renewed.{HasFreeRows, HasKeysLeft, IsRenewed, is_cleared_for};
ghost use Rattle.bosh_history.specs.Goals.{inst_of};
ghost use Rattle.bosh_rows.specs.SoundSnapshot.{are_distinct};
ghost use Rattle.bosh_rows.specs.Same.{same_inst};

/// A goal that is made anew has the rows of the current one, but for the state and the age of the named one, and
/// its plans, ties and offers; of its keys those that are not compiled.
pub fn renewed_goals_keep_the_current_one()
    ensures { (inst : Inst) (change : Change) (config : Config) (view : View) (goal it : Goal)
        → anew inst change (Some config) view goal ≡ Ok it → IsRenewed inst view goal it }
{}

/// The addresses of a goal that is made anew are different and free, where those of the rows of the current goal
/// are. The named row is to be detached, or no recorded instance that is not in the goal has one of its addresses,
/// where no instance stands twice in the current goal.
pub fn renewed_goals_have_free_addresses()
    ensures free { (inst : Inst) (change : Change) (config : Config) (view : View) (goal it : Goal)
        → view.goal ≡ Some goal → HasFreeRows view goal
        → anew inst change (Some config) view goal ≡ Ok it → HasFreeAddresses view it }
    ensures cleared { (inst : Inst) (change : Change) (config : Config) (view : View) (goal it : Goal)
        → are_distinct same_inst (map inst_of goal.rows) ≡ true
        → anew inst change (Some config) view goal ≡ Ok it → is_cleared_for view.rows it inst ≡ true }
{}

/// The keys of a goal that is made anew are not compiled, and can be compiled one after another, where those of the
/// current goal can. Where there are keys, there is a compile machine.
pub fn renewed_goals_can_be_compiled()
    ensures { (inst : Inst) (change : Change) (config : Config) (view : View) (goal it : Goal)
        → CanBeCompiled view.compiled goal.keys
        → anew inst change (Some config) view goal ≡ Ok it → HasKeysLeft view.compiled it }
{}
