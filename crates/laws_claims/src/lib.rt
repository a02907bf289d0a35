//! What a worker of a task claims, at a moment at which the facts on what is known hold: an entry is given or the task is
//! over unless an open call is waited for, what is claimed is permitted, and a task that is over may end.
#![tactic(auto)]

ghost use Rattle.std.specs.Prelude.{◌≡◌, ◌≢◌, ℕ, List, false, true};
ghost use Rattle.bosh_base.specs.declared.moves.Move.{Move};
ghost use Rattle.bosh_history.specs.Claim.{Waits, claim_at};
ghost use Rattle.bosh_history.specs.Moments.{Opening, moment};
ghost use Rattle.bosh_history.specs.Notes.{Outside};
ghost use Rattle.laws_claims.specs.Progress.{GoesOn, IsLawful};
ghost use Rattle.laws_claims.specs.Quiet.{Awaits, is_quiet};
ghost use Rattle.laws_claims.specs.Told.{IsToldWell};
ghost use Rattle.laws_facts.specs.KnownFacts.{KnownFacts};
ghost use Rattle.laws_facts.specs.Owners.{works};

/// What a worker of a task that works claims is permitted, the task may end once it is over, and a worker waits beside an
/// open call alone.
pub fn what_is_claimed_is_lawful()
    ensures { (outside : Outside) (o : Opening) (moves : List Move) (t worker : ℕ) → KnownFacts (moment o moves)
        → works (moment o moves) t ≡ true → (moment o moves).halted ≡ false
        → IsLawful outside (moment o moves) t (claim_at (moment o moves) t worker) }
{}

/// A worker that waits does so for an open call, of its task or one that compiles the key of one of its machines. While
/// there is none, it has an entry to note, or the end of the task, and may note it.
pub fn a_claim_never_waits_in_vain()
    ensures awaits { (o : Opening) (moves : List Move) (t worker : ℕ) → KnownFacts (moment o moves)
        → works (moment o moves) t ≡ true → claim_at (moment o moves) t worker ≡ Waits → Awaits (moment o moves) t }
    ensures quiet { (o : Opening) (moves : List Move) (t worker : ℕ) → KnownFacts (moment o moves)
        → works (moment o moves) t ≡ true → is_quiet (moment o moves) t ≡ true
        → claim_at (moment o moves) t worker ≢ Waits }
    ensures goes_on { (outside : Outside) (o : Opening) (moves : List Move) (t worker : ℕ) → KnownFacts (moment o moves)
        → works (moment o moves) t ≡ true → (moment o moves).halted ≡ false → is_quiet (moment o moves) t ≡ true
        → GoesOn outside (moment o moves) t worker }
{}

/// At each moment of any history no update of a task is told to have failed, and no call of it failed as a stop.
pub fn each_task_is_told_well()
    ensures { (o : Opening) (moves : List Move) (t : ℕ) → IsToldWell ((moment o moves).known.task t) }
{}
