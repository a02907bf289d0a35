ghost use Rattle.std.specs.Prelude.{◌≡◌, ℕ, Bool, false, true, Option, Some, List};
ghost use Rattle.std.specs.List.{list_all};
ghost use Rattle.bosh_base.specs.CallStep.{CallStep};
ghost use Rattle.bosh_base.specs.declared.answer.Answer.{Answer};
ghost use Rattle.bosh_base.specs.declared.call.Call.{Call};
ghost use Rattle.bosh_base.specs.declared.digest.Digest.{Digest};
ghost use Rattle.bosh_base.specs.declared.entry.Entry.{Entry};
ghost use Rattle.bosh_base.specs.declared.goal.GoalRow.{GoalRow};
ghost use Rattle.bosh_base.specs.declared.key.KeyWork.{KeyWork};
ghost use Rattle.bosh_base.specs.declared.owner.Owner.TheVariants.{Instance};
ghost use Rattle.bosh_base.specs.declared.row.Row.{Row};
ghost use Rattle.laws_effects.specs.Orderly.{is_taken};
ghost use Rattle.laws_row_facts.specs.Rows.{are_disks_in_order, has_machine_as_needed, holds_its_disks, is_lost_rightly};
ghost use Rattle.laws_rows.specs.Answered.{has_room_for_disks};
ghost use Rattle.laws_rows.specs.Rightful.{done_with};
ghost use Rattle.laws_rows.specs.SoundDisks.{are_sound};
ghost use Rattle.bosh_rows.specs.After.{after, begun_row};
ghost use Rattle.bosh_rows.specs.CallOf.{next_call};
ghost use Rattle.bosh_rows.specs.Tied.{is_disk_kept};
ghost use Rattle.laws_row_facts.specs.Rows.{is_deleted_bare};

/// A lost row has a machine, and a row without one has no disk attached or mounted.
#[tactic(auto, using(crate::proofs::NeededLemmas::needed_kept))]
pub fn a_call_keeps_the_machine_that_is_needed()
    ensures { (want : Option GoalRow) (row : Row) (n : ℕ) (call : Call) (answer : Answer) →
        next_call want row ≡ Some call → has_machine_as_needed row ≡ true →
        has_machine_as_needed (after n call answer (begun_row n call row)) ≡ true }
{}

/// At most two disks are attached, counting one that is being attached, where the machine holds what is recorded.
#[tactic(auto, using(crate::proofs::RoomCases::room_kept))]
pub fn a_call_keeps_room_for_disks()
    ensures { (built : KeyWork → List Digest → Digest) (want : Option GoalRow) (effects : List Entry) (row : Row)
        (n : ℕ) (call : Call) (has_effect : Bool) (answer : Answer) → are_sound row.disks ≡ true →
        has_room_for_disks row ≡ true → holds_its_disks effects row ≡ true → next_call want row ≡ Some call →
        CallStep built effects call has_effect answer →
        has_room_for_disks (after n call answer (begun_row n call row)) ≡ true }
{}

/// The disks stand by number, and the one that a call in doubt made is above them.
#[tactic(auto, using(crate::proofs::OrderCases::order_kept))]
pub fn a_call_keeps_the_disks_in_order()
    ensures { (built : KeyWork → List Digest → Digest) (want : Option GoalRow) (effects : List Entry) (row : Row)
        (n : ℕ) (dep : List ℕ) (call : Call) (has_effect : Bool) (answer : Answer) →
        list_all (is_disk_kept effects row) row.disks ≡ true → are_disks_in_order effects row ≡ true →
        next_call want row ≡ Some call → is_taken effects n ≡ false →
        CallStep built effects call has_effect answer →
        are_disks_in_order
        (done_with has_effect effects (record { n = n; owner = Instance row.inst; dep = dep; call = call }))
        (after n call answer (begun_row n call row)) ≡ true }
{}

/// The machine of a lost row does not answer.
#[tactic(auto, using(crate::proofs::SilentCases::silent_kept))]
pub fn a_call_keeps_a_lost_machine_silent()
    ensures { (built : KeyWork → List Digest → Digest) (want : Option GoalRow) (effects : List Entry) (row : Row)
        (n : ℕ) (dep : List ℕ) (call : Call) (has_effect : Bool) (answer : Answer) →
        is_lost_rightly effects row ≡ true → next_call want row ≡ Some call →
        CallStep built effects call has_effect answer →
        is_lost_rightly
        (done_with has_effect effects (record { n = n; owner = Instance row.inst; dep = dep; call = call }))
        (after n call answer (begun_row n call row)) ≡ true }
{}

/// A row that is in doubt of the deletion of its machine, and not lost, has no disk attached.
#[tactic(auto, using(crate::proofs::BareCases::bare_kept))]
pub fn a_call_keeps_a_deleted_row_bare()
    ensures { (want : Option GoalRow) (row : Row) (n : ℕ) (call : Call) (answer : Answer) →
        is_deleted_bare row ≡ true → next_call want row ≡ Some call →
        is_deleted_bare (after n call answer (begun_row n call row)) ≡ true }
{}
