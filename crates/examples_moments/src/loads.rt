ghost use Rattle.std.specs.Prelude.{◌∷◌, [], ◌++◌, true, false};
ghost use Rattle.bosh_base.specs.declared.call.Call.TheVariants as calls;
ghost use Rattle.bosh_base.specs.declared.failure.Failure.TheVariants as failures;
ghost use Rattle.bosh_history.specs.Moments.{durable, effects_of, nothing};
ghost use Rattle.examples_histories.specs.Scenes.{config, jammy, prelude, release, task_error, upd_begin};
ghost use Rattle.examples_histories.specs.Values.{plain, web, z1};
ghost use Rattle.examples_moments.specs.Loads.{AreToldAlike, BeginsSafely, Fits, IsHidden, IsLeftBy, IsNotLeftBy, IsUntied};
ghost use Rattle.examples_moments.specs.Loads.{IsUnsafe, cut_after, deploy_and, done, hiding, left_by, other, pair, run};
ghost use Rattle.examples_moments.specs.Loads.{shortened_by, without_last};

/// Stores on which a site may begin.
pub fn openings_are_safe()
    ensures nothing { BeginsSafely nothing true }
    ensures no_machine { BeginsSafely (pair (jammy ∷ config ∷ []) []) true }
    ensures two_machines { BeginsSafely
        (pair [] (done 1 (web 0) (calls.CreateVm (plain z1 10) [])
        ∷ done 2 (web 1) (calls.CreateVm (plain z1 11) [])
        ∷ [])) true }
    ensures address_of_a_deleted_one { BeginsSafely
        (pair [] (done 1 (web 0) (calls.CreateVm (plain z1 10) [])
        ∷ done 2 (web 0) (calls.DeleteVm 1)
        ∷ done 3 (web 1) (calls.CreateVm (plain z1 10) [])
        ∷ [])) true }
    ensures one_update { BeginsSafely (deploy_and (upd_begin 1 (web 0) ∷ [])) true }
    ensures two_updates_of_a_task_that_ended { BeginsSafely
        (deploy_and (upd_begin 1 (web 0) ∷ upd_begin 1 (web 1) ∷ task_error 1 failures.Interrupted ∷ [])) true }
{}

/// Stores that break a law before the first move.
pub fn openings_are_unsafe()
    ensures one_address { BeginsSafely
        (pair [] (done 1 (web 0) (calls.CreateVm (plain z1 10) [])
        ∷ done 2 (web 1) (calls.CreateVm (plain z1 10) [])
        ∷ [])) false }
    ensures one_address_is_unsafe { IsUnsafe
        (pair [] (done 1 (web 0) (calls.CreateVm (plain z1 10) [])
        ∷ done 2 (web 1) (calls.CreateVm (plain z1 10) [])
        ∷ [])) }
    ensures two_updates { BeginsSafely (deploy_and (upd_begin 1 (web 0) ∷ upd_begin 1 (web 1) ∷ [])) false }
    ensures two_updates_are_unsafe { IsUnsafe (deploy_and (upd_begin 1 (web 0) ∷ upd_begin 1 (web 1) ∷ [])) }
{}

/// Stores that a run leaves behind when it stops.
pub fn openings_fit()
    ensures nothing { Fits nothing }
    ensures after_two_uploads { IsLeftBy (run 0) (left_by (run 0)) }
    ensures in_a_deploy { IsLeftBy (run 5) (left_by (run 5)) }
    ensures with_an_open_call { IsLeftBy (run 3) (left_by (run 3)) }
    ensures after_a_deploy { IsLeftBy (run 25) (left_by (run 25)) }
{}

/// Stores in which a snapshot stands for the entries of a session, and on which a director may be loaded.
pub fn openings_are_reached()
    ensures shortened { IsLeftBy (run 11) (shortened_by (run 11)) }
    ensures after_a_session { Fits (left_by (run 5)) }
{}

/// A store whose entries tell by their lists what those of a session tell, and hide a machine behind them: the session
/// does not leave it.
pub fn what_hides_a_row_does_not_fit()
    ensures alike { AreToldAlike (hiding (durable nothing (run 5))) (durable nothing (run 5)) }
    ensures hidden { IsHidden (hiding (durable nothing (run 5))) other }
    ensures not_left { IsNotLeftBy (run 5) (pair (hiding (durable nothing (run 5))) (effects_of nothing (run 5))) }
{}

/// A store in which a snapshot stands for the first entries alone, up to the beginning of a call: the end of the call
/// behind it tells nothing, so a machine is there that nothing records. The session does not leave it.
pub fn what_is_cut_in_a_call_does_not_fit()
    ensures untied { IsUntied (cut_after 5 (run 11)) }
    ensures not_left { IsNotLeftBy (run 11) (cut_after 5 (run 11)) }
{}

/// Stores that a run does not leave.
pub fn openings_do_not_fit()
    ensures no_stop { IsNotLeftBy prelude (left_by prelude) }
    ensures entry_missing { IsNotLeftBy (run 11)
        (pair (without_last (durable nothing (run 11))) (effects_of nothing (run 11))) }
    ensures entry_too_many { IsNotLeftBy (run 11)
        (pair (durable nothing (run 11) ++ release ∷ []) (effects_of nothing (run 11))) }
    ensures effect_missing { IsNotLeftBy (run 11)
        (pair (durable nothing (run 11)) (without_last (effects_of nothing (run 11)))) }
    ensures of_a_run_that_is_refused { IsNotLeftBy (prelude ++ run 11) (left_by (prelude ++ run 11)) }
{}
