ghost use Rattle.std.specs.Prelude.{Some, true};
ghost use Rattle.examples_histories.specs.Scenes.{prepared};
ghost use Rattle.examples_histories.specs.Hard.{hard, disk_of_a_row_deleted, machine_of_detached};
ghost use Rattle.examples_histories.specs.Verdicts.{good, IsPermittedFrom, IsRefusedAt, HasVerdict, IsExactAt, AreCallsWithin};

/// A hard stop keeps the disk.
pub fn hard_examples()
    ensures right { IsPermittedFrom prepared hard }
    ensures lawful { HasVerdict prepared hard good }
    ensures exact_22 { IsExactAt prepared 22 1 hard true }
    ensures calls_22 { AreCallsWithin prepared 1 22 1 6 36 hard }
    ensures exact_42 { IsExactAt prepared 42 2 hard true }
    ensures exact_45 { IsExactAt prepared 45 3 hard true }
    ensures calls_45 { AreCallsWithin prepared 44 45 3 0 36 hard }
    ensures exact_65 { IsExactAt prepared 65 4 hard true }
    ensures disk_of_a_row_deleted { IsRefusedAt prepared 44 disk_of_a_row_deleted }
    ensures disk_of_a_row_deleted_breaks { HasVerdict prepared disk_of_a_row_deleted
        (record good { deletions = Some 46; tied = Some 46 }) }
    ensures machine_of_detached { IsRefusedAt prepared 45 machine_of_detached }
    ensures machine_of_detached_breaks { HasVerdict prepared machine_of_detached good }
{}
