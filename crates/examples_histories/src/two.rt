ghost use Rattle.std.specs.Prelude.{Some, true, false};
ghost use Rattle.examples_histories.specs.Scenes.{prepared};
ghost use Rattle.examples_histories.specs.Two.{two, answers_without_asking, did_otherwise, did_without_effect, did_twice, did_twice_unseen, not_the_next_step, owner_busy, number_skipped, not_begun, begun_twice, done_too_early, task_done_too_early, lock_taken, number_of_task, no_source, changed_left_out, interrupted_without_stop, one_address, goal_of_nobody, failed_for_nothing, halt_for_nothing};
ghost use Rattle.examples_histories.specs.Verdicts.{good, IsPermittedFrom, IsRefusedAt, HasVerdict, IsExactAt, AreCallsWithin, IsUntoldAt};

/// Two bare instances.
pub fn two_examples()
    ensures right { IsPermittedFrom prepared two }
    ensures lawful { HasVerdict prepared two good }
    ensures exact_24 { IsExactAt prepared 24 1 two true }
    ensures calls_24 { AreCallsWithin prepared 1 24 1 6 72 two }
    ensures answers_without_asking { IsRefusedAt prepared 4 answers_without_asking }
    ensures answers_without_asking_breaks { HasVerdict prepared answers_without_asking (record good { tied = Some 4 }) }
    ensures did_otherwise { IsRefusedAt prepared 4 did_otherwise }
    ensures did_otherwise_breaks { HasVerdict prepared did_otherwise (record good { tied = Some 5 }) }
    ensures did_without_effect { IsRefusedAt prepared 4 did_without_effect }
    ensures did_without_effect_breaks { HasVerdict prepared did_without_effect (record good { tied = Some 5 }) }
    ensures did_twice { IsRefusedAt prepared 5 did_twice }
    ensures did_twice_breaks { HasVerdict prepared did_twice (record good { addresses = Some 5; tied = Some 5 }) }
    ensures did_twice_unseen { IsRefusedAt prepared 8 did_twice_unseen }
    ensures did_twice_unseen_breaks { HasVerdict prepared did_twice_unseen good }
    ensures not_the_next_step { IsRefusedAt prepared 6 not_the_next_step }
    ensures not_the_next_step_breaks { HasVerdict prepared not_the_next_step good }
    ensures owner_busy { IsRefusedAt prepared 4 owner_busy }
    ensures owner_busy_breaks { HasVerdict prepared owner_busy (record good { addresses = Some 4 }) }
    ensures number_skipped { IsRefusedAt prepared 6 number_skipped }
    ensures number_skipped_breaks { HasVerdict prepared number_skipped good }
    ensures not_begun { IsRefusedAt prepared 2 not_begun }
    ensures not_begun_breaks { HasVerdict prepared not_begun good }
    ensures begun_twice { IsRefusedAt prepared 3 begun_twice }
    ensures begun_twice_breaks { HasVerdict prepared begun_twice good }
    ensures done_too_early { IsRefusedAt prepared 9 done_too_early }
    ensures done_too_early_breaks { HasVerdict prepared done_too_early good }
    ensures done_too_early_exact { IsExactAt prepared 21 1 done_too_early false }
    ensures task_done_too_early { IsRefusedAt prepared 13 task_done_too_early }
    ensures task_done_too_early_breaks { HasVerdict prepared task_done_too_early good }
    ensures task_done_too_early_exact { IsExactAt prepared 13 1 task_done_too_early false }
    ensures lock_taken { IsRefusedAt prepared 6 lock_taken }
    ensures lock_taken_breaks { HasVerdict prepared lock_taken good }
    ensures number_of_task { IsRefusedAt prepared 1 number_of_task }
    ensures number_of_task_breaks { HasVerdict prepared number_of_task good }
    ensures no_source { IsUntoldAt 1 no_source }
    ensures no_source_breaks { HasVerdict prepared no_source good }
    ensures changed_left_out { IsRefusedAt prepared 1 changed_left_out }
    ensures changed_left_out_breaks { HasVerdict prepared changed_left_out good }
    ensures changed_left_out_exact { IsExactAt prepared 13 1 changed_left_out false }
    ensures interrupted_without_stop { IsRefusedAt prepared 13 interrupted_without_stop }
    ensures interrupted_without_stop_breaks { HasVerdict prepared interrupted_without_stop good }
    ensures one_address { IsRefusedAt prepared 1 one_address }
    ensures one_address_breaks { HasVerdict prepared one_address (record good { addresses = Some 14 }) }
    ensures goal_of_nobody { IsPermittedFrom prepared goal_of_nobody }
    ensures goal_of_nobody_breaks { HasVerdict prepared goal_of_nobody good }
    ensures goal_of_nobody_exact { IsExactAt prepared 13 1 goal_of_nobody true }
    ensures failed_for_nothing { IsPermittedFrom prepared failed_for_nothing }
    ensures failed_for_nothing_breaks { HasVerdict prepared failed_for_nothing good }
    ensures halt_for_nothing { IsPermittedFrom prepared halt_for_nothing }
    ensures halt_for_nothing_breaks { HasVerdict prepared halt_for_nothing good }
{}
