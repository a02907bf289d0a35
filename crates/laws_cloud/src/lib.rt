//! What was done to the cloud: each effect is that of its call, and all of it stays in its order.
#![tactic(auto)]

ghost use Rattle.std.specs.Prelude.{◌≡◌, ℕ, Some, true};
ghost use Rattle.bosh_history.specs.Moments.{Moment, OpenCall, dep_of};
ghost use Rattle.laws_cloud.specs.Cloud.{HasCloudFacts};
ghost use Rattle.laws_effects.specs.Holders.{JoinsBy};
ghost use Rattle.laws_facts.specs.Facts.{Holds};
ghost use Rattle.laws_facts.specs.Numbers.{EffectFacts};
ghost use Rattle.laws_moves.specs.Parts.{IsKeptByParts};
ghost use Rattle.laws_row_frames.specs.Others.{names_own_machines};

/// Each part of a move keeps the facts on the numbers of effects: an open call has had its effect where the cloud told so,
/// and whatever has the number of an open call, or of a call in doubt, is that call.
pub fn effects_are_those_of_their_calls()
    ensures { IsKeptByParts EffectFacts }
{}

/// Each part of a move keeps the facts on what was done: it is in its order, losses are of machines of instances, and
/// disks are held by machines of their own owners.
pub fn what_was_done_stays_in_its_order()
    ensures { IsKeptByParts HasCloudFacts }
{}

/// An open call names machines that were made for its own owner alone, and attaches disks of its owner alone.
pub fn open_calls_name_their_own()
    ensures machines { (m : Moment) (n : ℕ) (call : OpenCall) → Holds m → m.calls n ≡ Some call →
        names_own_machines m.effects
        (record {
          n = call.begin.n;
          owner = call.begin.owner;
          dep = dep_of m.known call.begin.owner;
          call = call.begin.call;
        }) ≡ true }
    ensures disks { (m : Moment) (n : ℕ) (call : OpenCall) → Holds m → m.calls n ≡ Some call →
        JoinsBy m.effects call.begin.call }
{}
