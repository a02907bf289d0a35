ghost use Rattle.std.specs.Prelude.{Some, true};
ghost use Rattle.examples_histories.specs.Scenes.{with_release};
ghost use Rattle.examples_histories.specs.Swept.{swept, compiled_before_sweep, own_slot_goes_on};
ghost use Rattle.examples_histories.specs.Verdicts.{good, IsPermittedFrom, IsRefusedAt, HasVerdict, IsExactAt, AreCallsWithin};

/// A compile machine in doubt of its creation.
pub fn swept_examples()
    ensures right { IsPermittedFrom with_release swept }
    ensures lawful { HasVerdict with_release swept good }
    ensures exact_25 { IsExactAt with_release 25 2 swept true }
    ensures calls_25 { AreCallsWithin with_release 9 25 2 5 16 swept }
    ensures compiled_before_sweep { IsRefusedAt with_release 10 compiled_before_sweep }
    ensures compiled_before_sweep_breaks { HasVerdict with_release compiled_before_sweep
        (record good { phases = Some 10 }) }
    ensures own_slot_goes_on { IsRefusedAt with_release 7 own_slot_goes_on }
    ensures own_slot_goes_on_breaks { HasVerdict with_release own_slot_goes_on (record good { recovered = Some 7 }) }
{}
