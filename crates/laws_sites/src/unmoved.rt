//! Tasks that are not opened or not ended, and answers of calls that are not settled.
ghost use Rattle.std.specs.Prelude.{None, [], ◌≡◌, ℕ};
ghost use Rattle.bosh_base.specs.declared.entry.Entry.TheVariants as entries;
ghost use Rattle.bosh_book.specs.Faults.{MayEnd};
ghost use Rattle.bosh_history.specs.Fit.{IsFit};
ghost use Rattle.bosh_history.specs.Moments.{Opening};
ghost use Rattle.bosh_history.specs.Notes.{Outside};
ghost use Rattle.bosh_world.specs.Abandons.{Abandons};
ghost use Rattle.bosh_world.specs.Holds.{IsHeld};
ghost use Rattle.bosh_world.specs.Pending.{IsAllowed, IsClosing, Pends};
ghost use Rattle.bosh_world.specs.Refuses.{Refuses};
ghost use Rattle.bosh_world.specs.Steps.{Notes};
ghost use Rattle.bosh_world.specs.declared.fault.SiteFault.{SiteFault};
ghost use Rattle.bosh_world.specs.declared.held.HeldCall.{HeldCall};
ghost use Rattle.laws_sites.specs.Good.{IsGood};

use bosh_ports::Keeper;
use bosh_world::Site;

/// A good site that notes nothing is good: it tells of a task that had ended, or that a release is there.
pub fn a_good_site_that_notes_nothing_stays_good<K: Keeper, L: Keeper>(
    was: &Site<K, L>,
    now: &Site<K, L>,
)
    ensures { (outside : Outside) (o : Opening) → IsGood outside K.bodies L.bodies o was.now
        → Notes K.bodies K.faults was.now [] None now.now → now.now.calls.unsettled ≡ was.now.calls.unsettled
        → IsGood outside K.bodies L.bodies o now.now }
{}

/// A good site that refuses to end a task is good: something is left of it, the director's store failed, or memory was
/// short.
pub fn a_good_site_that_ends_no_task_stays_good<K: Keeper, L: Keeper>(
    was: &Site<K, L>,
    now: &Site<K, L>,
)
    ensures { (outside : Outside) (o : Opening) (task : ℕ) (fault : SiteFault) → IsFit outside o
        → IsGood outside K.bodies L.bodies o was.now → Refuses K.bodies K.faults was.now [] fault now.now
        → now.now.calls ≡ was.now.calls → Pends was.now (IsClosing was.now.book.records task) now.now
        → IsGood outside K.bodies L.bodies o now.now }
{}

/// A good site that does not note the answer of a call that it holds is good.
pub fn a_good_site_that_refuses_an_answer_stays_good<K: Keeper, L: Keeper>(
    was: &Site<K, L>,
    now: &Site<K, L>,
)
    ensures { (outside : Outside) (o : Opening) (call : HeldCall) (fault : SiteFault) → IsFit outside o
        → IsGood outside K.bodies L.bodies o was.now → IsHeld was.now call
        → Refuses K.bodies K.faults was.now [] fault now.now → now.now.calls.unsettled ≡ was.now.calls.unsettled
        → Pends was.now (IsAllowed (MayEnd was.now.book call.permit call.answer)
        (entries.End (record { n = call.permit.n; answer = call.answer }))) now.now
        → IsGood outside K.bodies L.bodies o now.now }
{}

/// .. and so it is once that call is given up.
pub fn a_good_site_that_settles_no_call_stays_good<K: Keeper, L: Keeper>(
    was: &Site<K, L>,
    mid: &Site<K, L>,
    now: &Site<K, L>,
)
    ensures { (outside : Outside) (o : Opening) (call : HeldCall) (fault : SiteFault) → IsFit outside o
        → IsGood outside K.bodies L.bodies o was.now → IsHeld was.now call
        → Refuses K.bodies K.faults was.now [] fault mid.now → mid.now.calls.unsettled ≡ was.now.calls.unsettled
        → Pends was.now (IsAllowed (MayEnd was.now.book call.permit call.answer)
        (entries.End (record { n = call.permit.n; answer = call.answer }))) mid.now
        → Abandons mid.now call.permit now.now → IsGood outside K.bodies L.bodies o now.now }
{}
