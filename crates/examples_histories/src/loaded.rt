ghost use Rattle.std.specs.Prelude.{Some, true};
ghost use Rattle.examples_histories.specs.Loaded.{loaded_on};
ghost use Rattle.examples_histories.specs.Loaded.{loaded, loaded_lock_kept, loaded_lock_ignored};
ghost use Rattle.examples_histories.specs.Verdicts.{good, IsPermittedFrom, IsRefusedAt, HasVerdict, IsExactAt, AreCallsWithin};

/// A process that was killed, and the next one.
pub fn loaded_examples()
    ensures right { IsPermittedFrom loaded_on loaded }
    ensures lawful { HasVerdict loaded_on loaded good }
    ensures exact_14 { IsExactAt loaded_on 14 2 loaded true }
    ensures calls_14 { AreCallsWithin loaded_on 2 14 2 3 36 loaded }
    ensures loaded_lock_kept { IsRefusedAt loaded_on 1 loaded_lock_kept }
    ensures loaded_lock_kept_breaks { HasVerdict loaded_on loaded_lock_kept (record good { recovered = Some 1 }) }
    ensures loaded_lock_ignored { IsRefusedAt loaded_on 1 loaded_lock_ignored }
    ensures loaded_lock_ignored_breaks { HasVerdict loaded_on loaded_lock_ignored (record good { recovered = Some 1 }) }
{}
