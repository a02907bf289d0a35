//! Moves of a history.
ghost use Rattle.bosh_base.specs.declared.moves.Move.{Move};
ghost use Rattle.bosh_history.specs.Moments.{Moment, later};
ghost use Rattle.bosh_history.specs.Notes.{Outside};
ghost use Rattle.bosh_history.specs.Permitted.{IsPermitted};
ghost use Rattle.laws_facts.specs.KnownFacts.{KnownFacts};
ghost use Rattle.laws_stands.specs.Agrees.{Agrees};
ghost use Rattle.laws_stands.specs.Told.{TellsWell, Told};
ghost use Rattle.laws_stands_noted.specs.Later.{told_later};

/// What is told goes on to agree with the moment after each permitted move: an entry that is noted, or that a stop kept, is
/// told, and the other moves tell nothing.
pub fn what_is_told_agrees_after_each_permitted_move()
    ensures { (outside : Outside) (m : Moment) (told : Told) (move : Move) → Agrees m told → KnownFacts m
        → TellsWell told → IsPermitted outside m move → Agrees (later m move) (told_later told move) }
{}
