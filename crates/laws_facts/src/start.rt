ghost use Rattle.laws_facts.specs.Facts.{Holds};
ghost use Rattle.bosh_history.specs.Moments.{beginning, nothing};

/// Each fact holds where nothing was there.
#[tactic(auto, using(crate::proofs::StartLemmas::nothing_holds))]
pub fn nothing_keeps_the_facts()
    ensures { Holds (beginning nothing) }
{}
