ghost use Rattle.std.specs.Prelude.{◌∷◌, [], Some, None, true, false, codes};
ghost use Rattle.bosh_base.specs.declared.answer.Answer.TheVariants as answers;
ghost use Rattle.bosh_base.specs.declared.call.Call.TheVariants as calls;
ghost use Rattle.bosh_base.specs.declared.failure.Failure.TheVariants as failures;
ghost use Rattle.bosh_base.specs.declared.moves.Cause.TheVariants as causes;
ghost use Rattle.bosh_base.specs.declared.moves.Move.TheVariants.{Halt};
ghost use Rattle.bosh_base.specs.declared.owner.Owner.TheVariants.{Instance};
ghost use Rattle.examples_histories.specs.Failed.{failed};
ghost use Rattle.examples_histories.specs.Migrated.{migrated};
ghost use Rattle.examples_histories.specs.Scenes.{beginning_of, config, did, loss, prepared, said, stop, with_release};
ghost use Rattle.examples_histories.specs.Scenes.{write, written};
ghost use Rattle.examples_histories.specs.Stopped.{stopped};
ghost use Rattle.examples_histories.specs.Swept.{swept};
ghost use Rattle.examples_histories.specs.Together.{together};
ghost use Rattle.examples_histories.specs.Two.{two};
ghost use Rattle.examples_histories.specs.Values.{no_jobs, web};
ghost use Rattle.examples_moments.specs.Moves.{Permits, Refuses, halted, none};

/// What the cloud does, and what becomes of the site, where it may come next.
pub fn moves_are_permitted()
    ensures did { Permits prepared 3 two (did 1 true (answers.Cid 1)) }
    ensures did_fail { Permits prepared 3 two (did 1 false answers.Failed) }
    ensures did_and_failed { Permits prepared 3 two (did 1 true answers.Failed) }
    ensures written { Permits prepared 23 migrated (written (web 0) (codes "hello")) }
    ensures lost { Permits prepared 25 two (loss 1 true) }
    ensures silent { Permits prepared 25 two (loss 2 false) }
    ensures halt { Permits prepared 0 none (Halt causes.Stop) }
    ensures halt_of_store { Permits prepared 3 two (Halt causes.Store) }
    ensures stop { Permits prepared 1 halted (stop None [] None) }
    ensures stop_that_took { Permits prepared 6 stopped (stop None (1 ∷ []) None) }
    ensures said { Permits prepared 0 none (said 3) }
    ensures said_while_halted { Permits prepared 1 halted (said 3) }
{}

/// .. and where it may not.
pub fn moves_are_refused()
    ensures did_not_begun { Refuses prepared 2 two (did 1 true (answers.Cid 1)) }
    ensures did_again { Refuses prepared 4 two (did 1 true (answers.Cid 2)) }
    ensures did_other_machine { Refuses prepared 3 two (did 1 true (answers.Cid 2)) }
    ensures did_other_kind { Refuses prepared 3 two (did 1 true answers.Done) }
    ensures did_gone { Refuses prepared 3 two (did 1 false answers.Gone) }
    ensures did_while_halted { Refuses prepared 5 stopped (did 1 true (answers.Cid 1)) }
    ensures written_without_disk { Refuses prepared 25 two (written (web 0) (codes "hello")) }
    ensures written_while_stopped { Refuses prepared 34 migrated (written (web 0) (codes "hello")) }
    ensures written_while_halted { Refuses prepared 1 halted (written (web 0) (codes "hello")) }
    ensures lost_before_it_is_made { Refuses prepared 3 two (loss 1 true) }
    ensures lost_of_another_number { Refuses prepared 25 two (loss 3 true) }
    ensures compile_machine_lost { Refuses with_release 6 together (loss 1 true) }
    ensures lost_while_halted { Refuses prepared 46 migrated (loss 1 true) }
    ensures halt_again { Refuses prepared 1 halted (Halt causes.Stop) }
    ensures halt_of_store_again { Refuses prepared 1 halted (Halt causes.Store) }
    ensures stop_without_halt { Refuses prepared 0 none (stop None [] None) }
    ensures stop_takes_what_is_not_open { Refuses prepared 6 stopped (stop None (2 ∷ []) None) }
    ensures stop_takes_twice { Refuses prepared 6 stopped (stop None (1 ∷ 1 ∷ []) None) }
    ensures stop_keeps_skipped_number { Refuses prepared 6 stopped
        (stop (Some (beginning_of 3 1 0 (Instance (web 0)) (calls.Apply 1 no_jobs))) [] None) }
    ensures stop_writes_without_disk { Refuses prepared 6 stopped (stop None [] (Some (write 1 (codes "x")))) }
    ensures stop_writes_a_config { Refuses prepared 6 stopped (stop None [] (Some config)) }
{}
