//! What a worker of a task chooses by the records is what it is to claim, at each moment of a history.
#![tactic(auto)]

ghost use Rattle.std.specs.Prelude.{◌≡◌, ◌<◌, ◌≤◌, ℕ};
ghost use Rattle.bosh_claim.specs.Choice.{choice_of};
ghost use Rattle.bosh_history.specs.Claim.{claim_at};
ghost use Rattle.bosh_history.specs.Moments.{Moment};
ghost use Rattle.bosh_records.specs.declared.records.Records.{Records};
ghost use Rattle.laws_facts.specs.KnownFacts.{KnownFacts};
ghost use Rattle.laws_stands.specs.Agrees.{Agrees, claimed_of};
ghost use Rattle.laws_stands.specs.Stands.{Stands};
ghost use Rattle.laws_stands.specs.Told.{Told};

/// Where the records stand for what is told, and that agrees with a moment at which the facts on what is known hold, what is
/// chosen for a task that was opened after the last stop is what is to be claimed, as long as calls have numbers.
pub fn the_choice_is_the_claim()
    ensures { (m : Moment) (told : Told) (records : Records) (t worker : ℕ) → Stands told records → Agrees m told
        → KnownFacts m
        → m.stopped < t → t ≤ m.known.tasks → m.known.last_call < 18446744073709551615
        → claimed_of (choice_of records t worker) ≡ claim_at m t worker }
{}
