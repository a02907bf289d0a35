ghost use Rattle.std.specs.Prelude.{◌≡◌, ◌++◌, ◌∷◌, [], List, ℕ, false};
ghost use Rattle.bosh_base.specs.declared.entry.Entry.{Entry};
ghost use Rattle.bosh_base.specs.declared.inst.Inst.{Inst};
ghost use Rattle.bosh_base.specs.declared.moves.Move.{Move};
ghost use Rattle.bosh_history.specs.Frame.{names_row, names_task};
ghost use Rattle.bosh_history.specs.Known.{Known};
ghost use Rattle.bosh_history.specs.Learn.{known_of, learn};
ghost use Rattle.bosh_history.specs.Moments.{Opening, durable, later, moment};
ghost use Rattle.bosh_history.specs.Notes.{Outside};
ghost use Rattle.bosh_history.specs.Permitted.{IsRun, IsRunFrom};

/// What is known after one more entry is what that entry tells, and the moment after one more move is what that move
/// makes of the moment before it.
#[tactic(auto, using(crate::proofs::LearnLemmas::known_of_last, crate::proofs::RunLemmas::moment_of_last))]
pub fn one_more()
    ensures entry { (entries : List Entry) (entry : Entry) →
        known_of (entries ++ entry ∷ []) ≡ learn (known_of entries) entry }
    ensures move_ { (o : Opening) (moves : List Move) (move : Move) →
        moment o (moves ++ move ∷ []) ≡ later (moment o moves) move }
{}

/// What is known at a moment is what the durable entries tell, those of the opening and those that moves made durable.
#[tactic(auto, using(crate::proofs::KnownLemmas::known_by_entries))]
pub fn the_durable_entries_tell()
    ensures { (o : Opening) (moves : List Move) → (moment o moves).known ≡ known_of (durable o moves) }
{}

/// A permitted history stays one when it is cut short, and what was cut off goes on from there; and where it is gone on
/// with, the two are one.
#[tactic(auto, using(crate::proofs::RunLemmas::front_of_run, crate::proofs::RunLemmas::rest_of_run, crate::proofs::RunLemmas::run_goes_on))]
pub fn runs_go_on()
    ensures front { (outside : Outside) (o : Opening) (moves more : List Move) →
        IsRun outside o (moves ++ more) → IsRun outside o moves }
    ensures rest { (outside : Outside) (o : Opening) (moves more : List Move) →
        IsRun outside o (moves ++ more) → IsRunFrom outside (moment o moves) more }
    ensures both { (outside : Outside) (o : Opening) (moves more : List Move) →
        IsRun outside o moves → IsRunFrom outside (moment o moves) more → IsRun outside o (moves ++ more) }
{}

/// An entry leaves the rows and the tasks that it does not name.
#[tactic(auto, using(crate::proofs::FrameLemmas::row_stays, crate::proofs::FrameLemmas::task_stays))]
pub fn an_entry_leaves_the_others()
    ensures row { (k : Known) (entry : Entry) (i : Inst) →
        names_row k entry i ≡ false → (learn k entry).row i ≡ k.row i }
    ensures task { (k : Known) (entry : Entry) (t : ℕ) →
        names_task k entry t ≡ false → (learn k entry).task t ≡ k.task t }
{}
