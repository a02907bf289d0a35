//! What a worker waits for.
ghost use Rattle.std.specs.Prelude.{[], ◌≡◌, ◌≢◌, ℕ};
ghost use Rattle.bosh_book.specs.declared.claim.Claim.TheVariants.{Wait};
ghost use Rattle.bosh_crew.specs.Carried.{HasClaimed};
ghost use Rattle.bosh_history.specs.Fit.{IsFit};
ghost use Rattle.bosh_history.specs.Moments.{Opening};
ghost use Rattle.bosh_history.specs.Notes.{Outside};
ghost use Rattle.bosh_world.specs.Steps.{Claims};
ghost use Rattle.laws_claims.specs.Quiet.{Awaits};
ghost use Rattle.laws_sites.specs.Good.{IsGood, moment_of};

use bosh_ports::Keeper;
use bosh_world::Site;

/// A worker that has to wait waits for an open call, of its task or one that compiles the key of one of its machines. It is so
/// where the site was good before the claim, and where it is good after it; so calls were open on it, and are.
pub fn a_worker_waits_only_for_open_calls<K: Keeper, L: Keeper>(was: &Site<K, L>, now: &Site<K, L>)
    ensures awaits { (outside : Outside) (o : Opening) (task worker : ℕ) → IsFit outside o
        → IsGood outside K.bodies L.bodies o was.now → Claims K.bodies K.faults was.now task worker Wait now.now
        → Awaits (moment_of o now.now) task }
    ensures were_open { (outside : Outside) (o : Opening) (task worker : ℕ) → IsFit outside o
        → IsGood outside K.bodies L.bodies o was.now → Claims K.bodies K.faults was.now task worker Wait now.now
        → was.now.calls.unsettled ≢ [] }
    ensures are_open { (outside : Outside) (o : Opening) (task worker : ℕ) → IsFit outside o
        → IsGood outside K.bodies L.bodies o was.now → HasClaimed K.bodies K.faults task worker was.now Wait now.now
        → now.now.calls.unsettled ≢ [] }
    ensures awaits_there { (outside : Outside) (o : Opening) (task worker : ℕ) → IsFit outside o
        → IsGood outside K.bodies L.bodies o now.now → Claims K.bodies K.faults was.now task worker Wait now.now
        → Awaits (moment_of o now.now) task }
    ensures are_open_there { (outside : Outside) (o : Opening) (task worker : ℕ) → IsFit outside o
        → IsGood outside K.bodies L.bodies o now.now → Claims K.bodies K.faults was.now task worker Wait now.now
        → now.now.calls.unsettled ≢ [] }
{}
