ghost use Rattle.std.specs.Prelude.{Some, true, false};
ghost use Rattle.examples_histories.specs.Scenes.{prepared};
ghost use Rattle.examples_histories.specs.Stopped.{stopped, second_machine_after_restart, second_machine_in_luck, lock_kept_after_restart, opened_before_end, config_before_end, interrupted_with_open_call, kept_before_end, took_with_did, took_unknown, kept_end, kept_task_done, did_after_halt, note_after_halt, halt_twice, stop_without_halt, did_after_stop, end_after_stop};
ghost use Rattle.examples_histories.specs.Verdicts.{good, IsPermittedFrom, IsRefusedAt, HasVerdict, IsExactAt, AreCallsWithin};

/// A stop after create_vm, then another machine is wanted.
pub fn stopped_examples()
    ensures right { IsPermittedFrom prepared stopped }
    ensures lawful { HasVerdict prepared stopped good }
    ensures exact_28 { IsExactAt prepared 28 2 stopped true }
    ensures calls_28 { AreCallsWithin prepared 10 28 2 5 36 stopped }
    ensures second_machine_after_restart { IsRefusedAt prepared 12 second_machine_after_restart }
    ensures second_machine_after_restart_breaks { HasVerdict prepared second_machine_after_restart
        (record good { addresses = Some 12; tied = Some 12 }) }
    ensures second_machine_in_luck { IsRefusedAt prepared 12 second_machine_in_luck }
    ensures second_machine_in_luck_breaks { HasVerdict prepared second_machine_in_luck good }
    ensures lock_kept_after_restart { IsRefusedAt prepared 8 lock_kept_after_restart }
    ensures lock_kept_after_restart_breaks { HasVerdict prepared lock_kept_after_restart
        (record good { recovered = Some 8 }) }
    ensures opened_before_end { IsRefusedAt prepared 8 opened_before_end }
    ensures opened_before_end_breaks { HasVerdict prepared opened_before_end (record good { recovered = Some 8 }) }
    ensures config_before_end { IsRefusedAt prepared 8 config_before_end }
    ensures config_before_end_breaks { HasVerdict prepared config_before_end (record good { recovered = Some 8 }) }
    ensures interrupted_with_open_call { IsRefusedAt prepared 8 interrupted_with_open_call }
    ensures interrupted_with_open_call_breaks { HasVerdict prepared interrupted_with_open_call
        (record good { recovered = Some 8 }) }
    ensures kept_before_end { IsRefusedAt prepared 9 kept_before_end }
    ensures kept_before_end_breaks { HasVerdict prepared kept_before_end (record good { recovered = Some 9 }) }
    ensures took_with_did { IsRefusedAt prepared 8 took_with_did }
    ensures took_with_did_breaks { HasVerdict prepared took_with_did
        (record good { addresses = Some 8; tied = Some 8 }) }
    ensures took_unknown { IsRefusedAt prepared 7 took_unknown }
    ensures took_unknown_breaks { HasVerdict prepared took_unknown good }
    ensures kept_end { IsRefusedAt prepared 7 kept_end }
    ensures kept_end_breaks { HasVerdict prepared kept_end good }
    ensures kept_task_done { IsRefusedAt prepared 7 kept_task_done }
    ensures kept_task_done_breaks { HasVerdict prepared kept_task_done good }
    ensures kept_task_done_exact { IsExactAt prepared 7 1 kept_task_done false }
    ensures did_after_halt { IsRefusedAt prepared 6 did_after_halt }
    ensures did_after_halt_breaks { HasVerdict prepared did_after_halt good }
    ensures note_after_halt { IsRefusedAt prepared 6 note_after_halt }
    ensures note_after_halt_breaks { HasVerdict prepared note_after_halt good }
    ensures halt_twice { IsRefusedAt prepared 6 halt_twice }
    ensures halt_twice_breaks { HasVerdict prepared halt_twice good }
    ensures stop_without_halt { IsRefusedAt prepared 5 stop_without_halt }
    ensures stop_without_halt_breaks { HasVerdict prepared stop_without_halt good }
    ensures did_after_stop { IsRefusedAt prepared 8 did_after_stop }
    ensures did_after_stop_breaks { HasVerdict prepared did_after_stop good }
    ensures end_after_stop { IsRefusedAt prepared 10 end_after_stop }
    ensures end_after_stop_breaks { HasVerdict prepared end_after_stop good }
{}
