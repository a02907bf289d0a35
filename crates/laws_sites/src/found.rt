//! What is settled outside of histories.
ghost use Rattle.laws_outside.specs.Shipped.{shipped};
ghost use Rattle.laws_sites.specs.Found.{IsFoundOut};

/// The outside of the program is as the director finds it out: what spells a cloud config is one, and releases go with one
/// another where they are sound, alone and together.
#[tactic(auto, using(crate::proofs::FoundLemmas::shipped_is_found_out))]
pub fn what_is_outside_is_as_it_is_found_out()
    ensures { IsFoundOut shipped }
{}
