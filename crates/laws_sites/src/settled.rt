//! Calls that were performed, and are to be settled.
ghost use Rattle.std.specs.Prelude.{false, ◌≡◌};
ghost use Rattle.bosh_base.specs.declared.entry.Entry.TheVariants as entries;
ghost use Rattle.bosh_base.specs.declared.moves.Move.TheVariants as moves;
ghost use Rattle.bosh_history.specs.Moments.{Opening};
ghost use Rattle.bosh_history.specs.Notes.{Outside};
ghost use Rattle.bosh_history.specs.Permitted.{IsPermitted};
ghost use Rattle.bosh_world.specs.Holds.{IsHeld};
ghost use Rattle.bosh_world.specs.declared.held.HeldCall.{HeldCall};
ghost use Rattle.laws_sites.specs.Good.{IsGood, moment_of};

use bosh_ports::Keeper;
use bosh_world::Site;

/// A good site that runs may note the end of a call that it holds.
pub fn a_call_that_is_held_may_end<K: Keeper, L: Keeper>(site: &Site<K, L>)
    ensures { (outside : Outside) (o : Opening) (call : HeldCall) → IsGood outside K.bodies L.bodies o site.now
        → site.now.history.is_halted ≡ false → IsHeld site.now call → IsPermitted outside (moment_of o site.now)
        (moves.Note (entries.End (record { n = call.permit.n; answer = call.answer }))) }
{}
