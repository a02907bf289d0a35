ghost use Rattle.std.specs.Prelude.{◌∷◌, [], Some, None, true, false, codes};
ghost use Rattle.bosh_base.specs.declared.answer.Answer.TheVariants as answers;
ghost use Rattle.bosh_base.specs.declared.call.Call.TheVariants as calls;
ghost use Rattle.bosh_base.specs.declared.entry.Entry.TheVariants as entries;
ghost use Rattle.bosh_base.specs.declared.failure.Failure.TheVariants as failures;
ghost use Rattle.bosh_base.specs.declared.owner.Owner.TheVariants.{Instance};
ghost use Rattle.bosh_base.specs.declared.task.TaskKind.TheVariants as kinds;
ghost use Rattle.bosh_history.specs.Known.{nothing_known};
ghost use Rattle.bosh_history.specs.Snapshots.{snapshot_of};
ghost use Rattle.examples_histories.specs.Failed.{failed};
ghost use Rattle.examples_histories.specs.Orphan.{orphan, orphan_g2};
ghost use Rattle.examples_histories.specs.Scenes.{beginning_of, config, ending, gone, jammy, opening, prepared};
ghost use Rattle.examples_histories.specs.Scenes.{release, sourced, task_error, upd_begin, upd_done, with_release};
ghost use Rattle.examples_histories.specs.Scenes.{write};
ghost use Rattle.examples_histories.specs.Stopped.{stopped};
ghost use Rattle.examples_histories.specs.Two.{two, two_g1};
ghost use Rattle.examples_histories.specs.Values.{no_jobs, plain, web, z1};
ghost use Rattle.examples_moments.specs.Moves.{Notes, NeverNotes, halted, none, release_of, stemcell_of};

/// Each kind of entry that a director notes, where it may be noted.
pub fn entries_are_noted()
    ensures release { Notes prepared 0 none release }
    ensures release_of_later_version { Notes with_release 0 none (release_of (codes "r") (codes "1.1")) }
    ensures release_of_other_name { Notes with_release 0 none (release_of (codes "s") (codes "1")) }
    ensures stemcell { Notes prepared 0 none (stemcell_of (codes "jammy") (codes "1.2")) }
    ensures config { Notes prepared 0 none config }
    ensures task_open { Notes prepared 0 none
        (opening 1 kinds.Deploy (Some (codes "dep")) (Some two_g1) (web 0 ∷ web 1 ∷ []) [] [] sourced) }
    ensures begin { Notes prepared 2 two (beginning_of 1 1 0 (Instance (web 0)) (calls.CreateVm (plain z1 10) [])) }
    ensures end { Notes prepared 4 two (ending 1 (answers.Cid 1)) }
    ensures upd_begin { Notes prepared 1 two (upd_begin 1 (web 0)) }
    ensures upd_done { Notes prepared 11 two (upd_done 1 (web 0)) }
    ensures gone { Notes prepared 39 orphan (gone 2 (web 0)) }
    ensures task_done { Notes prepared 23 two (entries.TaskDone 1) }
    ensures task_error { Notes prepared 23 failed (task_error 1 (failures.Call 6)) }
    ensures task_interrupted { Notes prepared 7 stopped (task_error 1 failures.Interrupted) }
{}

/// Uploads that may not be noted.
pub fn uploads_are_refused()
    ensures release_again { NeverNotes with_release 0 none release }
    ensures release_of_equal_version { NeverNotes with_release 0 none (release_of (codes "r") (codes "1.0")) }
    ensures release_of_no_version { NeverNotes prepared 0 none (release_of (codes "r") (codes "1.x")) }
    ensures release_while_halted { NeverNotes prepared 1 halted release }
    ensures stemcell_again { NeverNotes prepared 0 none jammy }
    ensures stemcell_of_equal_version { NeverNotes prepared 0 none (stemcell_of (codes "jammy") (codes "1.1.0")) }
    ensures stemcell_of_no_version { NeverNotes prepared 0 none (stemcell_of (codes "jammy") (codes "")) }
    ensures config_while_halted { NeverNotes prepared 1 halted config }
    ensures config_before_end { NeverNotes prepared 7 stopped config }
{}

/// Entries of tasks that may not be noted.
pub fn entries_of_tasks_are_refused()
    ensures task_open_of_other_number { NeverNotes prepared 0 none
        (opening 2 kinds.Deploy (Some (codes "dep")) (Some two_g1) (web 0 ∷ web 1 ∷ []) [] [] sourced) }
    ensures task_open_changes_less { NeverNotes prepared 0 none
        (opening 1 kinds.Deploy (Some (codes "dep")) (Some two_g1) (web 0 ∷ []) [] [] sourced) }
    ensures task_open_deletes_nothing { NeverNotes prepared 23 orphan
        (opening 2 kinds.Deploy (Some (codes "dep")) (Some orphan_g2) [] [] [] sourced) }
    ensures task_open_of_another { NeverNotes prepared 0 none
        (opening 1 kinds.Deploy (Some (codes "other")) (Some two_g1) (web 0 ∷ web 1 ∷ []) [] [] sourced) }
    ensures task_open_without_goal { NeverNotes prepared 0 none
        (opening 1 kinds.Deploy (Some (codes "dep")) None [] [] [] sourced) }
    ensures clean_up_of_no_orphan { NeverNotes prepared 23 orphan
        (opening 2 kinds.CleanUp None None [] [] (1 ∷ []) None) }
    ensures disk_deleted_of_other_number { NeverNotes prepared 43 orphan
        (opening 3 (kinds.DeleteDisk 1) None None [] [] (2 ∷ []) None) }
    ensures update_begins_of_unchanged { NeverNotes prepared 1 two (upd_begin 1 (web 2)) }
    ensures update_begins_before_canary { NeverNotes prepared 1 two (upd_begin 1 (web 1)) }
    ensures update_done_not_begun { NeverNotes prepared 1 two (upd_done 1 (web 0)) }
    ensures update_done_while_calling { NeverNotes prepared 9 two (upd_done 1 (web 0)) }
    ensures gone_with_machine { NeverNotes prepared 36 orphan (gone 2 (web 0)) }
    ensures gone_of_wanted { NeverNotes prepared 23 two (gone 1 (web 0)) }
    ensures task_done_early { NeverNotes prepared 22 two (entries.TaskDone 1) }
    ensures task_done_again { NeverNotes prepared 24 two (entries.TaskDone 1) }
    ensures task_error_of_good_call { NeverNotes prepared 23 two (task_error 1 (failures.Call 6)) }
    ensures task_error_without_stop { NeverNotes prepared 23 two (task_error 1 failures.Interrupted) }
    ensures task_error_again { NeverNotes prepared 24 failed (task_error 1 (failures.Call 6)) }
{}

/// Entries of calls that may not be noted, and those that no director notes.
pub fn entries_of_calls_are_refused()
    ensures begin_before_its_update { NeverNotes prepared 1 two
        (beginning_of 1 1 0 (Instance (web 0)) (calls.CreateVm (plain z1 10) [])) }
    ensures begin_of_other_make { NeverNotes prepared 2 two
        (beginning_of 1 1 0 (Instance (web 0)) (calls.CreateVm (plain z1 11) [])) }
    ensures begin_of_other_task { NeverNotes prepared 2 two
        (beginning_of 1 2 0 (Instance (web 0)) (calls.CreateVm (plain z1 10) [])) }
    ensures begin_of_other_step { NeverNotes prepared 5 two
        (beginning_of 2 1 0 (Instance (web 0)) (calls.Drain 1)) }
    ensures begin_of_other_spec { NeverNotes prepared 11 two
        (beginning_of 4 1 0 (Instance (web 0)) (calls.Apply 1 no_jobs)) }
    ensures end_of_other_answer { NeverNotes prepared 4 two (ending 1 (answers.Cid 2)) }
    ensures end_not_performed { NeverNotes prepared 3 two (ending 1 (answers.Cid 1)) }
    ensures end_again { NeverNotes prepared 5 two (ending 1 (answers.Cid 1)) }
    ensures snapshot { NeverNotes prepared 0 none (entries.Snapshot (snapshot_of nothing_known)) }
    ensures snapshot_later { NeverNotes prepared 25 two (entries.Snapshot (snapshot_of nothing_known)) }
    ensures effect { NeverNotes prepared 3 two
        (entries.Effect
        (record { n = 1; owner = Instance (web 0); dep = codes "dep"; call = calls.CreateVm (plain z1 10) [] })) }
    ensures effect_later { NeverNotes prepared 25 two
        (entries.Effect (record { n = 7; owner = Instance (web 0); dep = codes "dep"; call = calls.Stop 1 })) }
    ensures write { NeverNotes prepared 23 orphan (write 1 (codes "hello")) }
    ensures write_to_none { NeverNotes prepared 25 two (write 1 (codes "hello")) }
    ensures lost { NeverNotes prepared 25 two (entries.Lost (record { vm = 1; whole = true })) }
    ensures silent { NeverNotes prepared 25 two (entries.Lost (record { vm = 1; whole = false })) }
{}
