//! The update of groups.
ghost use Rattle.std.specs.Prelude.{◌≡◌, ℕ, Bool, List, find, slice_get};
ghost use Rattle.std.specs.Option.{option_and_then};
ghost use Rattle.bosh_base.specs.declared.inst.Inst.{Inst};
ghost use Rattle.bosh_claim.specs.Updated.{first_place};
ghost use Rattle.bosh_history.specs.Known.{Task};
ghost use Rattle.bosh_work.specs.declared.groups.GroupWork.{GroupWork};
ghost use Rattle.laws_stands.specs.GroupsStand.{CanUpdate, GroupsStand, is_ready};

/// The place that is found among the groups of a stage is that of the first changed instance whose turn it is.
pub fn groups_have_the_first_instance()
    ensures { (t : Task) (idle : Inst → Bool) (groups : List GroupWork) (stage : ℕ) → CanUpdate t idle
        → GroupsStand t idle groups
        → option_and_then (λ e. slice_get t.changed e.0) (first_place groups stage)
        ≡ find (is_ready t idle stage) t.changed }
{}
