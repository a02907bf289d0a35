ghost use Rattle.std.specs.Prelude.{◌≡◌, ℕ, List, All};
ghost use Rattle.bosh_base.specs.declared.key.KeyWork.{KeyWork};
ghost use Rattle.bosh_compile.specs.Level.{Falls, IsAcyclic, IsLevel};

/// Without a cycle the levels are determined: some are right, and any that are right are the same.
pub fn levels_are_determined()
    ensures exist { (works : List KeyWork) → IsAcyclic works → (level : KeyWork → ℕ) × IsLevel works level }
    ensures agree { (works : List KeyWork) → IsAcyclic works → (one other : KeyWork → ℕ) → IsLevel works one → IsLevel works other → All (λ work. one work ≡ other work) works }
{}

/// A rank that falls from each work to those that it needs shows that there is no cycle.
pub fn rank_shows_no_cycle()
    ensures { (works : List KeyWork) (rank : KeyWork → ℕ) → Falls rank works → IsAcyclic works }
{}
