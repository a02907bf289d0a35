ghost use Rattle.std.specs.Prelude.{true};
ghost use Rattle.examples_histories.specs.Scenes.{prepared};
ghost use Rattle.examples_histories.specs.Drained.{drained};
ghost use Rattle.examples_histories.specs.Verdicts.{good, IsPermittedFrom, HasVerdict, IsExactAt, AreCallsWithin};

/// A machine left drained.
pub fn drained_examples()
    ensures right { IsPermittedFrom prepared drained }
    ensures lawful { HasVerdict prepared drained good }
    ensures exact_13 { IsExactAt prepared 13 1 drained true }
    ensures calls_13 { AreCallsWithin prepared 1 13 1 3 36 drained }
    ensures exact_30 { IsExactAt prepared 30 3 drained true }
    ensures calls_30 { AreCallsWithin prepared 24 30 3 1 36 drained }
{}
