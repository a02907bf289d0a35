//! One call keeps a tie.
ghost use Rattle.std.specs.Prelude.{◌≡◌, ℕ, Bool, false, true, List, [], ◌∷◌, ◌++◌, Option, Some};
ghost use Rattle.bosh_base.specs.CallStep.{answer_of, CallStep, is_gone, takes_effect};
ghost use Rattle.bosh_base.specs.declared.answer.Answer.{Answer};
ghost use Rattle.bosh_base.specs.declared.call.Call.{Call};
ghost use Rattle.bosh_base.specs.declared.digest.Digest.{Digest};
ghost use Rattle.bosh_base.specs.declared.entry.Entry.{Entry};
ghost use Rattle.bosh_base.specs.declared.goal.GoalRow.{GoalRow};
ghost use Rattle.bosh_base.specs.declared.inst.Inst.{Inst};
ghost use Rattle.bosh_base.specs.declared.key.KeyWork.{KeyWork};
ghost use Rattle.bosh_base.specs.declared.owner.Owner.TheVariants.{Instance};
ghost use Rattle.bosh_base.specs.declared.entry.Entry.TheVariants.{Effect};
ghost use Rattle.bosh_base.specs.declared.row.Doubt as doubt;
ghost use Rattle.bosh_base.specs.declared.row.Row.{Row};
ghost use Rattle.laws_effects.specs.Orderly.{AreOrderly, is_taken};
ghost use Rattle.bosh_rows.specs.After.{after, bare, begun_row, leaves_doubt};
ghost use Rattle.bosh_rows.specs.CallOf.{next_call};
ghost use Rattle.bosh_rows.specs.Tied.{as_done, IsTiedRow, is_spoiled, is_tied_to, without_doubt};
ghost use Rattle.laws_rows.specs.Rightful.{IsRightful, done_with, fits};
ghost use Rattle.laws_rows.specs.SoundDisks.{are_distinct, are_sound};
ghost use Rattle.laws_rows.specs.RowExample.{attaching, one_attaching};
ghost use Rattle.laws_rows.specs.Answered.{has_room_for_disks};

/// The call of a next step, however it is answered, failures and what is gone included, leaves a row that is what the
/// cloud has after its effect, or without it where it had none. The call has a new number, and the row is a rightful
/// one.
#[tactic(auto, using(crate::proofs::OneCallLemmas::one_call))]
pub fn one_call_keeps_a_tie()
    ensures { (built : KeyWork → List Digest → Digest) (want : Option GoalRow) (effects : List Entry) (row : Row)
        (n : ℕ) (dep : List ℕ) (call : Call) (has_effect : Bool) (answer : Answer) →
        IsTiedRow effects row → IsRightful effects row → next_call want row ≡ Some call →
        is_taken effects n ≡ false → CallStep built effects call has_effect answer →
        IsTiedRow (done_with has_effect effects (record { n = n; owner = Instance row.inst; dep = dep; call = call }))
        (after n call answer (begun_row n call row)) }
{}

/// .. and it leaves a row that is rightful, in which no disk stands twice and at most one is active, where that was so
/// before: so these laws hold of the next call, too, while nobody else does anything to the cloud.
pub fn one_call_keeps_a_row_rightful()
    ensures rightful { (built : KeyWork → List Digest → Digest) (want : Option GoalRow) (effects : List Entry)
        (row : Row) (n : ℕ) (dep : List ℕ) (call : Call) (has_effect : Bool) (answer : Answer) →
        IsTiedRow effects row → IsRightful effects row → are_sound row.disks ≡ true →
        next_call want row ≡ Some call → is_taken effects n ≡ false →
        CallStep built effects call has_effect answer →
        IsRightful
        (done_with has_effect effects (record { n = n; owner = Instance row.inst; dep = dep; call = call }))
        (after n call answer (begun_row n call row)) }
    ensures sound { (built : KeyWork → List Digest → Digest) (want : Option GoalRow) (effects : List Entry)
        (row : Row) (n : ℕ) (call : Call) (has_effect : Bool) (answer : Answer) →
        IsTiedRow effects row → IsRightful effects row → are_sound row.disks ≡ true →
        next_call want row ≡ Some call → is_taken effects n ≡ false →
        CallStep built effects call has_effect answer →
        are_sound (after n call answer (begun_row n call row)).disks ≡ true }
{}

/// The call of a next step of a row that is neither lost nor spoiled is never answered that something is gone.
#[tactic(auto, using(crate::proofs::OneCallLemmas::never_gone))]
pub fn what_a_call_names_is_there()
    ensures { (built : KeyWork → List Digest → Digest) (want : Option GoalRow) (effects : List Entry) (row : Row)
        (call : Call) → IsTiedRow effects row → IsRightful effects row → row.lost ≡ false →
        is_spoiled effects row ≡ false → next_call want row ≡ Some call →
        is_gone (answer_of built effects call) ≡ false }
{}

/// Where the call of a next step leaves a doubt, that doubt fits the row. No disk stands twice in it.
#[tactic(auto, using(crate::proofs::FitLemmas::next_fits))]
pub fn a_call_leaves_a_doubt_that_fits()
    ensures { (want : Option GoalRow) (row : Row) (n : ℕ) (call : Call) → are_distinct row.disks ≡ true →
        next_call want row ≡ Some call → leaves_doubt call ≡ true → fits (begun_row n call row) call ≡ true }
{}

/// A row that is tied without its doubt is tied as the call in doubt leaves it, once that call took effect.
#[tactic(auto, using(crate::proofs::DidLemmas::effect_settles))]
pub fn an_effect_settles_a_doubt()
    ensures { (built : KeyWork → List Digest → Digest) (effects : List Entry) (row : Row) (d : doubt.Doubt)
        (dep : List ℕ) → AreOrderly effects → row.doubt ≡ Some d → fits row d.call ≡ true →
        is_taken effects d.n ≡ false → takes_effect built effects d.call ≡ true →
        is_tied_to effects (without_doubt row) ≡ true →
        is_tied_to
        (effects ++ Effect (record { n = d.n; owner = Instance row.inst; dep = dep; call = d.call }) ∷ [])
        (as_done
        (effects ++ Effect (record { n = d.n; owner = Instance row.inst; dep = dep; call = d.call }) ∷ []) row)
        ≡ true }
{}

/// A row of which nothing is recorded is rightful and what the cloud has, where nothing was done.
#[tactic(auto, using(crate::proofs::FitLemmas::bare_rightful, crate::proofs::FitLemmas::bare_tied))]
pub fn a_bare_row_is_rightful()
    ensures rightful { (i : Inst) → IsRightful [] (bare i) }
    ensures tied { (i : Inst) → IsTiedRow [] (bare i) }
{}

/// So is a row whose disk is being attached, where that was done.
#[tactic(auto, using(crate::proofs::ExampleLemmas::example_rightful, crate::proofs::ExampleLemmas::example_tied))]
pub fn a_row_in_doubt_is_rightful()
    ensures rightful { IsRightful one_attaching attaching }
    ensures tied { IsTiedRow one_attaching attaching }
    ensures sound { are_sound attaching.disks ≡ true }
    ensures room { has_room_for_disks attaching ≡ true }
{}
