ghost use Rattle.std.specs.Prelude.{Some, true};
ghost use Rattle.examples_histories.specs.Scenes.{prepared};
ghost use Rattle.examples_histories.specs.Recreate.{recreate, created_before_deleted, not_renewed};
ghost use Rattle.examples_histories.specs.Verdicts.{good, IsPermittedFrom, IsRefusedAt, HasVerdict, IsExactAt, AreCallsWithin};

/// A deploy that changes nothing, and a recreate.
pub fn recreate_examples()
    ensures right { IsPermittedFrom prepared recreate }
    ensures lawful { HasVerdict prepared recreate good }
    ensures exact_13 { IsExactAt prepared 13 1 recreate true }
    ensures calls_13 { AreCallsWithin prepared 1 13 1 3 36 recreate }
    ensures exact_16 { IsExactAt prepared 16 2 recreate true }
    ensures calls_16 { AreCallsWithin prepared 15 16 2 0 36 recreate }
    ensures exact_39 { IsExactAt prepared 39 3 recreate true }
    ensures created_before_deleted { IsRefusedAt prepared 26 created_before_deleted }
    ensures created_before_deleted_breaks { HasVerdict prepared created_before_deleted
        (record good { addresses = Some 26 }) }
    ensures not_renewed { IsPermittedFrom prepared not_renewed }
    ensures not_renewed_breaks { HasVerdict prepared not_renewed good }
    ensures not_renewed_exact { IsExactAt prepared 20 3 not_renewed true }
{}
