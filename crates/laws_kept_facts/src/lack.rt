ghost use Rattle.std.specs.Prelude.{◌≡◌, ℕ, false, true, None, Some, List};
ghost use Rattle.bosh_base.specs.CallStep.{answer_of};
ghost use Rattle.bosh_base.specs.declared.answer.Answer.TheVariants.{Yes};
ghost use Rattle.bosh_base.specs.declared.call.Call.TheVariants.{HasVm};
ghost use Rattle.bosh_base.specs.declared.digest.Digest.{Digest};
ghost use Rattle.bosh_base.specs.declared.key.KeyWork.{KeyWork};
ghost use Rattle.laws_row_facts.specs.Rows.{are_disks_in_order, has_machine_as_needed, holds_its_disks, is_created_as_recorded, is_deleted_bare, is_lost_rightly};
ghost use Rattle.laws_rows.specs.Answered.{has_room_for_disks};
ghost use Rattle.laws_rows.specs.Rightful.{IsRightful};
ghost use Rattle.laws_rows.specs.SoundDisks.{are_sound};
ghost use Rattle.bosh_rows.specs.After.{after, begun_row};
ghost use Rattle.bosh_rows.specs.CallOf.{next_call};
ghost use Rattle.bosh_rows.specs.Tied.{IsTiedRow};
ghost use Rattle.laws_kept_facts.specs.SilentExample.{deleting, silenced};

/// Why a row in doubt of a deletion has to be bare: a silent machine in doubt of its deletion, with a disk that is
/// recorded as attached and is not, meets all other facts of a row, and loses one when it is found there.
pub fn a_silent_machine_loses_its_disks()
    ensures rightful { IsRightful silenced deleting }
    ensures needed { has_machine_as_needed deleting ≡ true }
    ensures sound { are_sound deleting.disks ≡ true }
    ensures room { has_room_for_disks deleting ≡ true }
    ensures order { are_disks_in_order silenced deleting ≡ true }
    ensures created { is_created_as_recorded silenced deleting ≡ true }
    ensures tied { IsTiedRow silenced deleting }
    ensures holds { holds_its_disks silenced deleting ≡ true }
    ensures silent { is_lost_rightly silenced deleting ≡ true }
    ensures not_bare { is_deleted_bare deleting ≡ false }
    ensures next { next_call None deleting ≡ Some (HasVm 1) }
    ensures answer { (built : KeyWork → List Digest → Digest) → answer_of built silenced (HasVm 1) ≡ Yes }
    ensures broken { holds_its_disks silenced (after 4 (HasVm 1) Yes (begun_row 4 (HasVm 1) deleting)) ≡ false }
{}
