//! The steps of a row end.
ghost use Rattle.std.specs.Prelude.{◌≡◌, ℕ, ◌+◌, ◌≤◌, ◌<◌, false, length, List, None, Option, Some, true};
ghost use Rattle.bosh_base.specs.declared.answer.Answer.{Answer};
ghost use Rattle.bosh_base.specs.declared.call.Call.TheVariants.{Ping};
ghost use Rattle.bosh_base.specs.declared.digest.Digest.{Digest};
ghost use Rattle.bosh_base.specs.declared.entry.Entry.{Entry};
ghost use Rattle.bosh_base.specs.declared.goal.GoalRow.{GoalRow};
ghost use Rattle.bosh_base.specs.declared.key.KeyWork.{KeyWork};
ghost use Rattle.bosh_base.specs.declared.row.Row.{Row};
ghost use Rattle.bosh_rows.specs.After.{after, updated_row};
ghost use Rattle.bosh_rows.specs.NextStep.{next_step};
ghost use Rattle.bosh_rows.specs.Standing.{IsStanding};
ghost use Rattle.laws_rows.specs.Answered.{Answered, AreAnswered, IsAnswered, has_room_for_disks, row_after};
ghost use Rattle.laws_rows.specs.Left.{calls_left};
ghost use Rattle.laws_rows.specs.SoundDisks.{are_sound, has_one_active};

/// Each call of a next step that is answered as it is asked leaves fewer calls to be made, whatever is done to the
/// cloud
/// until the next one; and no disk stands twice then, nor are two active. The row is what the cloud has, and no loss
/// named its machine, unless that is known.
#[tactic(auto, using(crate::proofs::EndLemmas::less_left, crate::proofs::EndLemmas::still_sound))]
pub fn a_call_leaves_less()
    ensures less { (built : KeyWork → List Digest → Digest) (want : Option GoalRow) (row : Row) (it : Answered)
        (later : List Entry) → are_sound row.disks ≡ true → IsAnswered built want row it →
        calls_left built want later (row_after it row) < calls_left built want it.effects row }
    ensures sound { (built : KeyWork → List Digest → Digest) (want : Option GoalRow) (row : Row) (it : Answered) →
        are_sound row.disks ≡ true → IsAnswered built want row it → are_sound (row_after it row).disks ≡ true }
{}

/// A row has at most 32 calls that are answered as they are asked, one after another, until nothing is to be done for
/// it.
#[tactic(auto, using(crate::proofs::RoomLemmas::few_calls))]
pub fn the_steps_end()
    ensures asked { (built : KeyWork → List Digest → Digest) (want : Option GoalRow) (row : Row)
        (calls : List Answered) → are_sound row.disks ≡ true → has_room_for_disks row ≡ true →
        AreAnswered built want row calls → length calls ≤ 32 }
    ensures pinged { (built : KeyWork → List Digest → Digest) (want : Option GoalRow) (row : Row) (n vm : ℕ)
        (answer : Answer) (calls : List Answered) → are_sound row.disks ≡ true → has_room_for_disks row ≡ true →
        AreAnswered built want (after n (Ping vm) answer row) calls → 1 + length calls ≤ 36 }
{}

/// Where nothing is to be done for a row it stands as it is wanted, once its update is done. Without a want it has no
/// machine and no call in doubt, and so nothing but disks, which are orphaned when it is dropped.
#[tactic(auto, using(crate::proofs::StandLemmas::stands_done, crate::proofs::StandLemmas::nothing_asked, crate::proofs::StandLemmas::nothing_there))]
pub fn a_row_without_a_step_stands()
    ensures done { (want : GoalRow) (row : Row) → has_one_active row.disks ≡ true → next_step (Some want) row ≡ None →
        IsStanding (Some want) (updated_row want row) }
    ensures no_doubt { (row : Row) → next_step None row ≡ None → row.doubt ≡ None }
    ensures no_machine { (row : Row) → next_step None row ≡ None → row.vm ≡ None }
{}
