ghost use Rattle.std.specs.Prelude.{Some, true};
ghost use Rattle.examples_histories.specs.Scenes.{with_release};
ghost use Rattle.examples_histories.specs.Together.{together, compiles_twice, compiles_at_once, update_before_keys, machine_before_keys, work_of_another};
ghost use Rattle.examples_histories.specs.Verdicts.{good, IsPermittedFrom, IsRefusedAt, HasVerdict, IsExactAt, AreCallsWithin};

/// Two deployments, one package, two tasks at once.
pub fn together_examples()
    ensures right { IsPermittedFrom with_release together }
    ensures lawful { HasVerdict with_release together good }
    ensures exact_40 { IsExactAt with_release 40 2 together true }
    ensures calls_40 { AreCallsWithin with_release 3 40 2 5 44 together }
    ensures exact_43 { IsExactAt with_release 43 1 together true }
    ensures calls_43 { AreCallsWithin with_release 2 43 1 6 44 together }
    ensures compiles_twice { IsRefusedAt with_release 13 compiles_twice }
    ensures compiles_twice_breaks { HasVerdict with_release compiles_twice (record good { compile_keys = Some 13 }) }
    ensures compiles_at_once { IsRefusedAt with_release 11 compiles_at_once }
    ensures compiles_at_once_breaks { HasVerdict with_release compiles_at_once
        (record good { compile_keys = Some 11 }) }
    ensures update_before_keys { IsRefusedAt with_release 4 update_before_keys }
    ensures update_before_keys_breaks { HasVerdict with_release update_before_keys
        (record good { compile_keys = Some 4; phases = Some 4 }) }
    ensures machine_before_keys { IsRefusedAt with_release 4 machine_before_keys }
    ensures machine_before_keys_breaks { HasVerdict with_release machine_before_keys
        (record good { compile_keys = Some 4; phases = Some 4 }) }
    ensures work_of_another { IsRefusedAt with_release 20 work_of_another }
    ensures work_of_another_breaks { HasVerdict with_release work_of_another good }
{}
