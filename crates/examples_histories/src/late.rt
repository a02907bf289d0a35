ghost use Rattle.std.specs.Prelude.{true};
ghost use Rattle.examples_histories.specs.Scenes.{prepared};
ghost use Rattle.examples_histories.specs.Late.{late, took_probe};
ghost use Rattle.examples_histories.specs.Verdicts.{good, IsPermittedFrom, IsRefusedAt, HasVerdict, IsExactAt, AreCallsWithin};

/// A failed call that had its effect.
pub fn late_examples()
    ensures right { IsPermittedFrom prepared late }
    ensures lawful { HasVerdict prepared late good }
    ensures exact_21 { IsExactAt prepared 21 2 late true }
    ensures calls_21 { AreCallsWithin prepared 9 21 2 3 36 late }
    ensures took_probe { IsRefusedAt prepared 13 took_probe }
    ensures took_probe_breaks { HasVerdict prepared took_probe good }
{}
