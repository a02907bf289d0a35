ghost use Rattle.std.specs.Prelude.{Some, true};
ghost use Rattle.examples_histories.specs.Scenes.{prepared};
ghost use Rattle.examples_histories.specs.Migrated.{migrated, deletes_old_disk, active_without_migration, active_without_migration_empty, migration_left_out, migrated_backwards, disk_too_many, wrote_while_stopped, wrote_unasked};
ghost use Rattle.examples_histories.specs.Verdicts.{good, IsPermittedFrom, IsRefusedAt, HasVerdict, IsExactAt, AreCallsWithin};

/// A disk that grows, and a stop after the migration.
pub fn migrated_examples()
    ensures right { IsPermittedFrom prepared migrated }
    ensures lawful { HasVerdict prepared migrated good }
    ensures exact_22 { IsExactAt prepared 22 1 migrated true }
    ensures calls_22 { AreCallsWithin prepared 1 22 1 6 36 migrated }
    ensures exact_80 { IsExactAt prepared 80 3 migrated true }
    ensures calls_80 { AreCallsWithin prepared 50 80 3 9 36 migrated }
    ensures deletes_old_disk { IsRefusedAt prepared 76 deletes_old_disk }
    ensures deletes_old_disk_breaks { HasVerdict prepared deletes_old_disk
        (record good { deletions = Some 77; tied = Some 77 }) }
    ensures active_without_migration { IsRefusedAt prepared 68 active_without_migration }
    ensures active_without_migration_breaks { HasVerdict prepared active_without_migration
        (record good { disk_contents = Some 68 }) }
    ensures active_without_migration_empty { IsRefusedAt prepared 66 active_without_migration_empty }
    ensures active_without_migration_empty_breaks { HasVerdict prepared active_without_migration_empty good }
    ensures migration_left_out { IsRefusedAt prepared 67 migration_left_out }
    ensures migration_left_out_breaks { HasVerdict prepared migration_left_out (record good { tied = Some 67 }) }
    ensures migrated_backwards { IsRefusedAt prepared 67 migrated_backwards }
    ensures migrated_backwards_breaks { HasVerdict prepared migrated_backwards
        (record good { disk_contents = Some 67 }) }
    ensures disk_too_many { IsRefusedAt prepared 15 disk_too_many }
    ensures disk_too_many_breaks { HasVerdict prepared disk_too_many (record good { disk_contents = Some 15 }) }
    ensures wrote_while_stopped { IsRefusedAt prepared 35 wrote_while_stopped }
    ensures wrote_while_stopped_breaks { HasVerdict prepared wrote_while_stopped good }
    ensures wrote_unasked { IsPermittedFrom prepared wrote_unasked }
    ensures wrote_unasked_breaks { HasVerdict prepared wrote_unasked good }
    ensures wrote_unasked_exact { IsExactAt prepared 22 1 wrote_unasked true }
{}
