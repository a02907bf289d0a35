ghost use Rattle.std.specs.Prelude.{true, false};
ghost use Rattle.bosh_history.specs.Claim.{Waits, Over};
ghost use Rattle.examples_histories.specs.Scenes.{prepared};
ghost use Rattle.examples_histories.specs.Verdicts.{good, HasVerdict, IsExactAt, IsPermittedFrom};
ghost use Rattle.examples_rows.specs.Claims.{EachClaimed};
ghost use Rattle.examples_rows.specs.Orders.{Gives};
ghost use Rattle.examples_rows.specs.Permitted.{AreClaimsPermitted};
ghost use Rattle.examples_rows.specs.TwoSlots.{two_slots};

/// Three keys on two compile slots.
pub fn two_slots_examples()
    ensures right { IsPermittedFrom prepared two_slots }
    ensures lawful { HasVerdict prepared two_slots good }
    ensures exact { IsExactAt prepared 40 1 two_slots true }
    ensures claimed { EachClaimed prepared two_slots }
    ensures claims_permitted { AreClaimsPermitted prepared two_slots }
    ensures no_third_slot { Gives prepared 3 two_slots 1 2 Waits }
    ensures dependency_not_compiled { Gives prepared 9 two_slots 1 2 Waits }
    ensures key_taken { Gives prepared 20 two_slots 1 1 Waits }
    ensures done { Gives prepared 39 two_slots 1 1 Over }
{}
