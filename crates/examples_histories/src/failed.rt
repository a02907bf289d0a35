ghost use Rattle.std.specs.Prelude.{Some, true, false};
ghost use Rattle.examples_histories.specs.Scenes.{prepared};
ghost use Rattle.examples_histories.specs.Failed.{failed, work_after_failure, done_after_failure, other_call_blamed, failure_hidden, doubt_forgotten};
ghost use Rattle.examples_histories.specs.Verdicts.{good, IsPermittedFrom, IsRefusedAt, HasVerdict, IsExactAt, AreCallsWithin};

/// A failed call.
pub fn failed_examples()
    ensures right { IsPermittedFrom prepared failed }
    ensures lawful { HasVerdict prepared failed good }
    ensures exact_35 { IsExactAt prepared 35 2 failed true }
    ensures calls_35 { AreCallsWithin prepared 26 35 2 2 72 failed }
    ensures work_after_failure { IsRefusedAt prepared 24 work_after_failure }
    ensures work_after_failure_breaks { HasVerdict prepared work_after_failure good }
    ensures done_after_failure { IsRefusedAt prepared 24 done_after_failure }
    ensures done_after_failure_breaks { HasVerdict prepared done_after_failure good }
    ensures done_after_failure_exact { IsExactAt prepared 24 1 done_after_failure false }
    ensures other_call_blamed { IsRefusedAt prepared 24 other_call_blamed }
    ensures other_call_blamed_breaks { HasVerdict prepared other_call_blamed good }
    ensures failure_hidden { IsRefusedAt prepared 23 failure_hidden }
    ensures failure_hidden_breaks { HasVerdict prepared failure_hidden (record good { tied = Some 23 }) }
    ensures doubt_forgotten { IsRefusedAt prepared 28 doubt_forgotten }
    ensures doubt_forgotten_breaks { HasVerdict prepared doubt_forgotten good }
{}
