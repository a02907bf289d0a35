//! Rolling updates of groups.
ghost use Rattle.std.specs.Prelude.{◌≡◌, ◌≢◌, All, Bool, List, true, ℕ};
ghost use Rattle.bosh_base.specs.declared.inst.Inst.{Inst};
ghost use Rattle.bosh_history.specs.Known.{Task};
ghost use Rattle.bosh_progress.specs.declared.rolling.Rolling.{Rolling};
ghost use Rattle.bosh_roll.specs.GroupRoll.{MayBegin};
ghost use Rattle.bosh_roll.specs.declared.group_roll.GroupRoll.{GroupRoll};
ghost use Rattle.bosh_roll.specs.declared.upd.Upd.TheVariants.{Failed};
ghost use Rattle.bosh_work.specs.declared.groups.GroupWork.{GroupWork};
ghost use Rattle.laws_rolls.specs.Running.{IsRunning, is_next, roll_of};
ghost use Rattle.laws_stands.specs.GroupsStand.{GroupStands};

/// Where no update of a group failed, one may begin by the marks that are kept just where it may by the rule that is shown
/// (bosh.io, "Deployment manifest", "update").
pub fn the_rule_that_runs_is_the_one_that_is_shown()
    ensures shown { (roll : GroupRoll) (it : Rolling) → IsRunning roll it → All (λ state. state ≢ Failed) roll.states
        → (k : ℕ) → MayBegin roll k → is_next it k ≡ true }
    ensures runs { (roll : GroupRoll) (it : Rolling) → IsRunning roll it → All (λ state. state ≢ Failed) roll.states
        → (k : ℕ) → is_next it k ≡ true → MayBegin roll k }
{}

/// What is recorded of a group of a task runs as that group is shown, with how far its changed instances have come.
pub fn groups_run_as_they_stand()
    ensures { (t : Task) (idle : Inst → Bool) (group : List ℕ) (it : GroupWork) → GroupStands t idle group it
        → IsRunning (roll_of t group) it.roll }
{}
