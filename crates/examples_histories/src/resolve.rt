ghost use Rattle.std.specs.Prelude.{Some, true, false};
ghost use Rattle.examples_histories.specs.Scenes.{prepared};
ghost use Rattle.examples_histories.specs.Resolve.{resolve, resolve_pings_nobody};
ghost use Rattle.examples_histories.specs.Verdicts.{good, IsPermittedFrom, IsRefusedAt, HasVerdict, IsExactAt, AreCallsWithin};

/// Cloud-check resolves a lost machine.
pub fn resolve_examples()
    ensures right { IsPermittedFrom prepared resolve }
    ensures lawful { HasVerdict prepared resolve good }
    ensures exact_24 { IsExactAt prepared 24 1 resolve true }
    ensures calls_24 { AreCallsWithin prepared 1 24 1 6 72 resolve }
    ensures exact_47 { IsExactAt prepared 47 2 resolve true }
    ensures resolve_pings_nobody { IsRefusedAt prepared 30 resolve_pings_nobody }
    ensures resolve_pings_nobody_breaks { HasVerdict prepared resolve_pings_nobody (record good { phases = Some 30 }) }
    ensures resolve_pings_nobody_exact { IsExactAt prepared 31 2 resolve_pings_nobody false }
{}
