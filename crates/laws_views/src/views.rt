//! What a goal depends on beside its manifest.
ghost use Rattle.std.specs.Prelude.{◌≡◌, List, ℕ};
ghost use Rattle.bosh_base.specs.declared.moves.Move.{Move};
ghost use Rattle.bosh_history.specs.Fit.{IsFit};
ghost use Rattle.bosh_history.specs.Held.{view};
ghost use Rattle.bosh_history.specs.Moments.{Moment, Opening, moment};
ghost use Rattle.bosh_history.specs.Notes.{Outside};
ghost use Rattle.bosh_history.specs.Permitted.{IsRun};
ghost use Rattle.bosh_records.specs.declared.records.Records.{Records};
ghost use Rattle.bosh_views.specs.View.{view_of};
ghost use Rattle.laws_facts.specs.KnownFacts.{KnownFacts};
ghost use Rattle.laws_stands.specs.Agrees.{Agrees};
ghost use Rattle.laws_stands.specs.Stands.{Stands};
ghost use Rattle.laws_stands.specs.Told.{Told};
ghost use Rattle.laws_views.specs.Viewed.{CanBeViewed};

/// Where the records stand for what is told at a moment, the view of them is that of what is known: the goal, the rows and
/// the compiled keys in order, the addresses that others hold or that are left over, and the links that are offered.
pub fn views_are_of_what_is_known()
    ensures { (m : Moment) (told : Told) (records : Records) (dep : List ℕ) → Stands told records → Agrees m told
        → KnownFacts m → CanBeViewed m.known → view_of records dep ≡ view m.known dep }
{}

/// What is known at each moment of a permitted history that began on a fit pair can be viewed.
pub fn what_is_known_can_be_viewed()
    ensures { (outside : Outside) (o : Opening) (moves : List Move) → IsFit outside o → IsRun outside o moves
        → CanBeViewed (moment o moves).known }
{}
