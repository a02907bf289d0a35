ghost use Rattle.std.specs.Prelude.{true};
ghost use Rattle.examples_histories.specs.Scenes.{prepared};
ghost use Rattle.examples_histories.specs.KeptDone.{kept_done, ended_twice, kept_too_early};
ghost use Rattle.examples_histories.specs.Verdicts.{good, IsPermittedFrom, IsRefusedAt, HasVerdict, IsExactAt, AreCallsWithin};

/// A TaskDone that was kept.
pub fn kept_done_examples()
    ensures right { IsPermittedFrom prepared kept_done }
    ensures lawful { HasVerdict prepared kept_done good }
    ensures exact_16 { IsExactAt prepared 16 1 kept_done true }
    ensures calls_16 { AreCallsWithin prepared 2 16 1 3 36 kept_done }
    ensures ended_twice { IsRefusedAt prepared 17 ended_twice }
    ensures ended_twice_breaks { HasVerdict prepared ended_twice good }
    ensures kept_too_early { IsRefusedAt prepared 15 kept_too_early }
    ensures kept_too_early_breaks { HasVerdict prepared kept_too_early good }
{}
