ghost use Rattle.std.specs.Prelude.{Some, true, false};
ghost use Rattle.examples_histories.specs.Scenes.{prepared};
ghost use Rattle.examples_histories.specs.Lost.{lost, lost_twice, fix_pings_nobody, done_before_canary, lost_after_ping, deletion_called_gone};
ghost use Rattle.examples_histories.specs.Verdicts.{good, IsPermittedFrom, IsRefusedAt, HasVerdict, IsExactAt, AreCallsWithin};

/// A lost machine.
pub fn lost_examples()
    ensures right { IsPermittedFrom prepared lost }
    ensures lawful { HasVerdict prepared lost good }
    ensures exact_24 { IsExactAt prepared 24 1 lost true }
    ensures calls_24 { AreCallsWithin prepared 1 24 1 6 72 lost }
    ensures exact_29 { IsExactAt prepared 29 2 lost true }
    ensures calls_29 { AreCallsWithin prepared 28 29 2 0 72 lost }
    ensures exact_53 { IsExactAt prepared 53 3 lost true }
    ensures calls_53 { AreCallsWithin prepared 31 53 3 6 72 lost }
    ensures lost_twice { IsRefusedAt prepared 27 lost_twice }
    ensures lost_twice_breaks { HasVerdict prepared lost_twice good }
    ensures fix_pings_nobody { IsRefusedAt prepared 32 fix_pings_nobody }
    ensures fix_pings_nobody_breaks { HasVerdict prepared fix_pings_nobody (record good { phases = Some 32 }) }
    ensures fix_pings_nobody_exact { IsExactAt prepared 34 3 fix_pings_nobody false }
    ensures done_before_canary { IsRefusedAt prepared 38 done_before_canary }
    ensures done_before_canary_breaks { HasVerdict prepared done_before_canary (record good { rolling = Some 38 }) }
    ensures lost_after_ping { IsPermittedFrom prepared lost_after_ping }
    ensures lost_after_ping_breaks { HasVerdict prepared lost_after_ping good }
    ensures lost_after_ping_exact { IsExactAt prepared 54 3 lost_after_ping true }
    ensures deletion_called_gone { IsRefusedAt prepared 42 deletion_called_gone }
    ensures deletion_called_gone_breaks { HasVerdict prepared deletion_called_gone good }
{}
