//! Steps of a worker, and all that it does for tasks.
ghost use Rattle.std.specs.Prelude.{List, None, Ok, Result, [], ◌∷◌, ◌≡◌, ℕ};
ghost use Rattle.bosh_agent.specs.Compiled.{compiled_digest};
ghost use Rattle.bosh_base.specs.declared.entry.Entry.TheVariants as entries;
ghost use Rattle.bosh_base.specs.declared.task.TaskEnd.{TaskEnd};
ghost use Rattle.bosh_book.specs.declared.claim.Claim.{Claim};
ghost use Rattle.bosh_calls.specs.Calls.{without};
ghost use Rattle.bosh_crew.specs.Carried.{Carries, Reaches, Steps, Stops};
ghost use Rattle.bosh_crew.specs.declared.place.Place.{Place};
ghost use Rattle.bosh_history.specs.Fit.{IsFit};
ghost use Rattle.bosh_history.specs.Moments.{Opening};
ghost use Rattle.bosh_history.specs.Notes.{Outside};
ghost use Rattle.bosh_world.specs.Holds.{IsHeld};
ghost use Rattle.bosh_world.specs.Refuses.{RefusesClaim};
ghost use Rattle.bosh_world.specs.Steps.{Claims, EndsTask, Notes, calls_claimed};
ghost use Rattle.bosh_world.specs.declared.fault.SiteFault.{SiteFault};
ghost use Rattle.bosh_world.specs.declared.held.HeldCall.{HeldCall};
ghost use Rattle.laws_sites.specs.Good.{IsGood};

use bosh_ports::Keeper;
use bosh_world::Site;

/// A good site on which work of a task is claimed is good, whatever the claim answers.
pub fn a_good_site_gives_work<K: Keeper, L: Keeper>(was: &Site<K, L>, now: &Site<K, L>)
    ensures given { (outside : Outside) (o : Opening) (task worker : ℕ) (claim : Claim) → IsFit outside o
        → IsGood outside K.bodies L.bodies o was.now → Claims K.bodies K.faults was.now task worker claim now.now
        → now.now.calls.unsettled ≡ calls_claimed {F = SiteFault} (Ok claim) was.now.calls.unsettled
        → IsGood outside K.bodies L.bodies o now.now }
    ensures refused { (outside : Outside) (o : Opening) (task worker : ℕ) (fault : SiteFault) → IsFit outside o
        → IsGood outside K.bodies L.bodies o was.now
        → RefusesClaim K.bodies K.faults task worker was.now fault now.now
        → now.now.calls.unsettled ≡ was.now.calls.unsettled → IsGood outside K.bodies L.bodies o now.now }
{}

/// .. on which a call that it holds is settled.
pub fn a_good_site_settles_a_call<K: Keeper, L: Keeper>(was: &Site<K, L>, now: &Site<K, L>)
    ensures { (outside : Outside) (o : Opening) (call : HeldCall) → IsFit outside o
        → IsGood outside K.bodies L.bodies o was.now → IsHeld was.now call
        → Notes K.bodies K.faults was.now (entries.End (record { n = call.permit.n; answer = call.answer }) ∷ []) None
        now.now → now.now.calls.unsettled ≡ without call.permit.n was.now.calls.unsettled
        → IsGood outside K.bodies L.bodies o now.now }
{}

/// .. on which a task ends.
pub fn a_good_site_ends_a_task<K: Keeper, L: Keeper>(was: &Site<K, L>, now: &Site<K, L>)
    ensures { (outside : Outside) (o : Opening) (task : ℕ) (end : TaskEnd) → IsFit outside o
        → IsGood outside K.bodies L.bodies o was.now → EndsTask K.bodies K.faults was.now task end now.now
        → now.now.calls ≡ was.now.calls → IsGood outside K.bodies L.bodies o now.now }
{}

/// A good site is good after each step of a worker, after several, and after the one in which the worker is stopped.
pub fn a_good_site_is_good_after_each_step<K: Keeper, L: Keeper>(was: &Site<K, L>, now: &Site<K, L>)
    ensures step { (outside : Outside) (o : Opening) (tasks : List ℕ) (worker : ℕ) (place next : Place)
        → IsFit outside o → outside.built ≡ compiled_digest → IsGood outside K.bodies L.bodies o was.now
        → Steps K.bodies K.faults L.bodies L.faults tasks worker was.now place now.now next
        → IsGood outside K.bodies L.bodies o now.now }
    ensures steps { (outside : Outside) (o : Opening) (tasks : List ℕ) (worker : ℕ) (place next : Place)
        → IsFit outside o → outside.built ≡ compiled_digest → IsGood outside K.bodies L.bodies o was.now
        → Reaches K.bodies K.faults L.bodies L.faults tasks worker was.now place now.now next
        → IsGood outside K.bodies L.bodies o now.now }
    ensures stopped { (outside : Outside) (o : Opening) (tasks : List ℕ) (worker : ℕ) (place : Place)
        (fault : SiteFault) → IsFit outside o → outside.built ≡ compiled_digest
        → IsGood outside K.bodies L.bodies o was.now
        → Stops K.bodies K.faults L.bodies L.faults tasks worker was.now place fault now.now
        → IsGood outside K.bodies L.bodies o now.now }
{}

/// A good site is good after tasks were carried to their ends, or as far as they could be: whatever `drive` answers.
pub fn a_good_site_is_good_after_a_drive<K: Keeper, L: Keeper>(was: &Site<K, L>, now: &Site<K, L>)
    ensures { (outside : Outside) (o : Opening) (tasks : List ℕ) (worker : ℕ) (result : Result (Unit {0}) SiteFault)
        → IsFit outside o → outside.built ≡ compiled_digest → IsGood outside K.bodies L.bodies o was.now
        → Carries K.bodies K.faults L.bodies L.faults tasks worker was.now result now.now
        → IsGood outside K.bodies L.bodies o now.now }
{}
