ghost use Rattle.std.specs.Prelude.{Some, true};
ghost use Rattle.examples_histories.specs.Scenes.{prepared};
ghost use Rattle.examples_histories.specs.Canaries.{canaries, begins_beside_canaries, limit_exceeded, limit_per_worker, two_calls_of_a_worker};
ghost use Rattle.examples_histories.specs.Verdicts.{good, IsPermittedFrom, IsRefusedAt, HasVerdict, IsExactAt, AreCallsWithin};

/// One canary, a limit of two, three workers.
pub fn canaries_examples()
    ensures right { IsPermittedFrom prepared canaries }
    ensures lawful { HasVerdict prepared canaries good }
    ensures exact_46 { IsExactAt prepared 46 1 canaries true }
    ensures calls_46 { AreCallsWithin prepared 1 46 1 12 144 canaries }
    ensures begins_beside_canaries { IsRefusedAt prepared 4 begins_beside_canaries }
    ensures begins_beside_canaries_breaks { HasVerdict prepared begins_beside_canaries
        (record good { rolling = Some 4 }) }
    ensures limit_exceeded { IsRefusedAt prepared 17 limit_exceeded }
    ensures limit_exceeded_breaks { HasVerdict prepared limit_exceeded (record good { rolling = Some 17 }) }
    ensures limit_per_worker { IsRefusedAt prepared 17 limit_per_worker }
    ensures limit_per_worker_breaks { HasVerdict prepared limit_per_worker (record good { rolling = Some 17 }) }
    ensures two_calls_of_a_worker { IsPermittedFrom prepared two_calls_of_a_worker }
    ensures two_calls_of_a_worker_breaks { HasVerdict prepared two_calls_of_a_worker good }
    ensures two_calls_of_a_worker_exact { IsExactAt prepared 46 1 two_calls_of_a_worker true }
{}
