ghost use Rattle.std.specs.Prelude.{Some, true};
ghost use Rattle.examples_histories.specs.Scenes.{prepared};
ghost use Rattle.examples_histories.specs.Silent.{silent, work_after_gone, made_beside_silent, gone_called_failed, effect_on_silent, took_on_silent};
ghost use Rattle.examples_histories.specs.Verdicts.{good, IsPermittedFrom, IsRefusedAt, HasVerdict, IsExactAt, AreCallsWithin};

/// A silent agent.
pub fn silent_examples()
    ensures right { IsPermittedFrom prepared silent }
    ensures lawful { HasVerdict prepared silent good }
    ensures exact_24 { IsExactAt prepared 24 1 silent true }
    ensures calls_24 { AreCallsWithin prepared 1 24 1 6 72 silent }
    ensures exact_57 { IsExactAt prepared 57 3 silent true }
    ensures calls_57 { AreCallsWithin prepared 35 57 3 6 72 silent }
    ensures work_after_gone { IsRefusedAt prepared 33 work_after_gone }
    ensures work_after_gone_breaks { HasVerdict prepared work_after_gone good }
    ensures made_beside_silent { IsRefusedAt prepared 43 made_beside_silent }
    ensures made_beside_silent_breaks { HasVerdict prepared made_beside_silent (record good { addresses = Some 43 }) }
    ensures gone_called_failed { IsRefusedAt prepared 33 gone_called_failed }
    ensures gone_called_failed_breaks { HasVerdict prepared gone_called_failed good }
    ensures effect_on_silent { IsRefusedAt prepared 31 effect_on_silent }
    ensures effect_on_silent_breaks { HasVerdict prepared effect_on_silent good }
    ensures took_on_silent { IsRefusedAt prepared 32 took_on_silent }
    ensures took_on_silent_breaks { HasVerdict prepared took_on_silent good }
{}
