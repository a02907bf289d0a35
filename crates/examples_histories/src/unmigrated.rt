ghost use Rattle.std.specs.Prelude.{true};
ghost use Rattle.examples_histories.specs.Scenes.{prepared};
ghost use Rattle.examples_histories.specs.Unmigrated.{unmigrated};
ghost use Rattle.examples_histories.specs.Verdicts.{good, IsPermittedFrom, HasVerdict, IsExactAt, AreCallsWithin};

/// The same with the stop before the migration.
pub fn unmigrated_examples()
    ensures right { IsPermittedFrom prepared unmigrated }
    ensures lawful { HasVerdict prepared unmigrated good }
    ensures exact_22 { IsExactAt prepared 22 1 unmigrated true }
    ensures calls_22 { AreCallsWithin prepared 1 22 1 6 36 unmigrated }
    ensures exact_80 { IsExactAt prepared 80 3 unmigrated true }
    ensures calls_80 { AreCallsWithin prepared 50 80 3 9 36 unmigrated }
{}
