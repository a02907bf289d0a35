ghost use Rattle.std.specs.Prelude.{true};
ghost use Rattle.examples_histories.specs.Scenes.{prepared};
ghost use Rattle.examples_histories.specs.Wrote.{wrote, wrote_not_permitted};
ghost use Rattle.examples_histories.specs.Verdicts.{good, IsPermittedFrom, IsRefusedAt, HasVerdict, IsExactAt, AreCallsWithin};

/// A write to a disk that was kept.
pub fn wrote_examples()
    ensures right { IsPermittedFrom prepared wrote }
    ensures lawful { HasVerdict prepared wrote good }
    ensures exact_22 { IsExactAt prepared 22 1 wrote true }
    ensures calls_22 { AreCallsWithin prepared 1 22 1 6 36 wrote }
    ensures wrote_not_permitted { IsRefusedAt prepared 19 wrote_not_permitted }
    ensures wrote_not_permitted_breaks { HasVerdict prepared wrote_not_permitted good }
{}
