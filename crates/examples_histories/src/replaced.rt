ghost use Rattle.std.specs.Prelude.{Some, true};
ghost use Rattle.examples_histories.specs.Scenes.{prepared};
ghost use Rattle.examples_histories.specs.Replaced.{replaced, begun_before_gone, machine_before_gone};
ghost use Rattle.examples_histories.specs.Verdicts.{good, IsPermittedFrom, IsRefusedAt, HasVerdict, IsExactAt, AreCallsWithin};

/// One group in the place of another.
pub fn replaced_examples()
    ensures right { IsPermittedFrom prepared replaced }
    ensures lawful { HasVerdict prepared replaced good }
    ensures exact_13 { IsExactAt prepared 13 1 replaced true }
    ensures calls_13 { AreCallsWithin prepared 1 13 1 3 36 replaced }
    ensures exact_37 { IsExactAt prepared 37 2 replaced true }
    ensures calls_37 { AreCallsWithin prepared 15 37 2 6 72 replaced }
    ensures begun_before_gone { IsRefusedAt prepared 16 begun_before_gone }
    ensures begun_before_gone_breaks { HasVerdict prepared begun_before_gone (record good { phases = Some 16 }) }
    ensures machine_before_gone { IsRefusedAt prepared 16 machine_before_gone }
    ensures machine_before_gone_breaks { HasVerdict prepared machine_before_gone
        (record good { addresses = Some 17; phases = Some 16 }) }
{}
