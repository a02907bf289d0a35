ghost use Rattle.std.specs.Prelude.{Some, true, false};
ghost use Rattle.examples_histories.specs.Scenes.{with_release};
ghost use Rattle.examples_histories.specs.Leftover.{leftover, done_with_leftover_machines, compile_machine_lost, keys_never_compiled};
ghost use Rattle.examples_histories.specs.Verdicts.{good, IsPermittedFrom, IsRefusedAt, HasVerdict, IsExactAt, AreCallsWithin};

/// A leftover compile machine is swept.
pub fn leftover_examples()
    ensures right { IsPermittedFrom with_release leftover }
    ensures lawful { HasVerdict with_release leftover good }
    ensures exact_21 { IsExactAt with_release 21 2 leftover true }
    ensures calls_21 { AreCallsWithin with_release 14 21 2 2 8 leftover }
    ensures done_with_leftover_machines { IsRefusedAt with_release 15 done_with_leftover_machines }
    ensures done_with_leftover_machines_breaks { HasVerdict with_release done_with_leftover_machines good }
    ensures done_with_leftover_machines_exact { IsExactAt with_release 15 2 done_with_leftover_machines false }
    ensures compile_machine_lost { IsRefusedAt with_release 6 compile_machine_lost }
    ensures compile_machine_lost_breaks { HasVerdict with_release compile_machine_lost (record good { tied = Some 6 }) }
    ensures keys_never_compiled { IsRefusedAt with_release 3 keys_never_compiled }
    ensures keys_never_compiled_breaks { HasVerdict with_release keys_never_compiled good }
    ensures keys_never_compiled_exact { IsExactAt with_release 3 1 keys_never_compiled true }
{}
