ghost use Rattle.std.specs.Prelude.{◌≡◌, ℕ, Bool, false, Option, Some, List};
ghost use Rattle.bosh_base.specs.CallStep.{CallStep};
ghost use Rattle.bosh_base.specs.declared.answer.Answer.{Answer};
ghost use Rattle.bosh_base.specs.declared.call.Call.{Call};
ghost use Rattle.bosh_base.specs.declared.digest.Digest.{Digest};
ghost use Rattle.bosh_base.specs.declared.entry.Entry.{Entry};
ghost use Rattle.bosh_base.specs.declared.goal.GoalRow.{GoalRow};
ghost use Rattle.bosh_base.specs.declared.key.KeyWork.{KeyWork};
ghost use Rattle.bosh_base.specs.declared.owner.Owner.TheVariants.{Instance};
ghost use Rattle.bosh_base.specs.declared.row.Row.{Row};
ghost use Rattle.laws_effects.specs.Holders.{AreHeldByTheirOwn};
ghost use Rattle.laws_effects.specs.Orderly.{AreOrderly, is_taken};
ghost use Rattle.laws_row_facts.specs.Calls.{row_before};
ghost use Rattle.laws_row_facts.specs.Numbers.{IsDoubtItsOwn};
ghost use Rattle.laws_row_facts.specs.Rows.{RowFacts};
ghost use Rattle.laws_rows.specs.Rightful.{IsRightful, done_with};
ghost use Rattle.bosh_rows.specs.After.{after, begun_row};
ghost use Rattle.bosh_rows.specs.CallOf.{next_call};

/// The next call of a row, lost and spoiled ones too, keeps all facts on the row and the cloud, however it is answered,
/// failures and what is gone included. The call has a new number; what was done is in its order, and what has the
/// number of the call in doubt is that call.
pub fn one_call_keeps_the_facts_of_a_row()
    ensures { (built : KeyWork → List Digest → Digest) (want : Option GoalRow) (effects : List Entry) (row : Row)
        (n : ℕ) (call : Call) (has_effect : Bool) (answer : Answer) → RowFacts effects row → AreOrderly effects →
        AreHeldByTheirOwn effects → IsDoubtItsOwn effects row → next_call want row ≡ Some call →
        is_taken effects n ≡ false → CallStep built effects call has_effect answer →
        RowFacts
        (done_with has_effect effects
        (record { n = n; owner = Instance row.inst; dep = row.inst.dep; call = call }))
        (after n call answer (begun_row n call row)) }
{}

/// A row that has its facts, and whose call in doubt is its own, is a rightful one.
pub fn a_row_with_its_facts_is_rightful()
    ensures { (effects : List Entry) (row : Row) → AreOrderly effects → AreHeldByTheirOwn effects →
        RowFacts effects row → IsDoubtItsOwn effects row → IsRightful effects row }
{}

/// What a row was before its open call, as far as its next step can tell, has the facts of the row, and the same next
/// call: the make of a machine that is created, and the doubt of a lost row, are not looked at. So what one call keeps
/// can be said of a recorded row and its open call.
pub fn a_row_before_its_call_has_its_facts()
    ensures before { (effects : List Entry) (want : Option GoalRow) (n : ℕ) (row : Row) (call : Call) →
        RowFacts effects row → next_call want row ≡ Some call →
        RowFacts effects (row_before call (begun_row n call row))
        × (next_call want (row_before call (begun_row n call row)) ≡ Some call) }
    ensures begun { (n : ℕ) (row : Row) (call : Call) →
        begun_row n call (row_before call (begun_row n call row)) ≡ begun_row n call row }
{}
