ghost use Rattle.std.specs.Prelude.{◌≡◌, ◌<◌, ◌&&◌, not, false, Option, Some, List, [], ◌∷◌, ◌++◌};
ghost use Rattle.bosh_base.specs.CallStep.{answer_of};
ghost use Rattle.bosh_base.specs.declared.digest.Digest.{Digest};
ghost use Rattle.bosh_base.specs.declared.goal.GoalRow.{GoalRow};
ghost use Rattle.bosh_base.specs.declared.key.KeyWork.{KeyWork};
ghost use Rattle.bosh_base.specs.declared.row.Row.{Row};
ghost use Rattle.laws_effects.specs.Holders.{AreHeldByTheirOwn};
ghost use Rattle.laws_effects.specs.Orderly.{AreOrderly};
ghost use Rattle.laws_row_facts.specs.Numbers.{IsDoubtItsOwn};
ghost use Rattle.laws_row_facts.specs.Rows.{RowFacts};
ghost use Rattle.laws_rows.specs.Answered.{Answered, AreAnswered, IsAnswered, row_after};
ghost use Rattle.bosh_rows.specs.CallOf.{next_call};
ghost use Rattle.bosh_rows.specs.Tied.{is_spoiled};
ghost use Rattle.laws_answered_rows.specs.LaterCalls.{row_after_all};

/// Calls that were answered as they were asked, and one more for the row that they leave, are calls that were answered
/// as they were asked: so a list of them grows at its end, and is as short as the steps of a row are few.
pub fn one_more_call_is_answered()
    ensures answered { (built : KeyWork → List Digest → Digest) (want : Option GoalRow) (row : Row)
        (calls : List Answered) (it : Answered) → AreAnswered built want row calls →
        IsAnswered built want (row_after_all calls row) it → AreAnswered built want row (calls ++ it ∷ []) }
    ensures row { (row : Row) (calls : List Answered) (it : Answered) →
        row_after_all (calls ++ it ∷ []) row ≡ row_after it (row_after_all calls row) }
{}

/// The next call of a row that has its facts and whose machine no loss named, unless that is known, is answered as it
/// is asked where the cloud answers it.
pub fn a_row_with_its_facts_is_asked()
    ensures { (built : KeyWork → List Digest → Digest) (want : Option GoalRow) (row : Row) (it : Answered) →
        RowFacts it.effects row → AreOrderly it.effects → AreHeldByTheirOwn it.effects →
        IsDoubtItsOwn it.effects row → (not row.lost && is_spoiled it.effects row) ≡ false →
        next_call want row ≡ Some it.call →
        ((wanted : GoalRow) → want ≡ Some wanted → wanted.fresh_after < it.n) →
        it.answer ≡ answer_of built it.effects it.call → IsAnswered built want row it }
{}
