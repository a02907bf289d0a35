ghost use Rattle.std.specs.Prelude.{◌∷◌, [], ◌++◌, ◌&&◌, ◌==◌, Some, None, true, false, not, codes, map};
ghost use Rattle.bosh_base.specs.declared.answer.Answer.TheVariants as answers;
ghost use Rattle.bosh_base.specs.declared.call.Call.TheVariants as calls;
ghost use Rattle.bosh_base.specs.declared.entry.Entry.TheVariants as entries;
ghost use Rattle.bosh_base.specs.declared.owner.Owner.TheVariants.{Instance, Compile, Disk};
ghost use Rattle.bosh_base.specs.declared.task.TaskEnd.TheVariants as ends;
ghost use Rattle.laws_counts.specs.Courses.{call_made};
ghost use Rattle.examples_facts.specs.Broken.{Breaks, BreaksAlone, nothing_else};
ghost use Rattle.examples_facts.specs.Changes.{account_is, and_then, as_active, call_is, disks_are, done_by, done_for, done_for_another};
ghost use Rattle.examples_facts.specs.Changes.{doubt_is, exchanged, goal_is, goals_are, in_known, in_moment, is_lost, is_unclean};
ghost use Rattle.examples_facts.specs.Changes.{last_call_is, orphan_is, recorded_is, row_is, slot_is, task_is, turned};
ghost use Rattle.examples_facts.specs.Changes.{of_size, wanted_after, wanting, with_effect, with_nets_twice};
ghost use Rattle.bosh_history.specs.Calls.{task_with_call};
ghost use Rattle.bosh_history.specs.Updates.{update_at};
ghost use Rattle.examples_histories.specs.Late.{late};
ghost use Rattle.examples_histories.specs.Leftover.{leftover};
ghost use Rattle.examples_histories.specs.Links.{links};
ghost use Rattle.examples_histories.specs.Lost.{lost};
ghost use Rattle.examples_histories.specs.Migrated.{migrated};
ghost use Rattle.examples_histories.specs.Orphan.{orphan};
ghost use Rattle.examples_histories.specs.Recreate.{recreate};
ghost use Rattle.examples_histories.specs.Replaced.{replaced};
ghost use Rattle.examples_histories.specs.Swept.{swept};
ghost use Rattle.examples_histories.specs.Together.{compiles_at_once, together};
ghost use Rattle.examples_histories.specs.Two.{did_otherwise, lock_taken, not_the_next_step, owner_busy, two};
ghost use Rattle.examples_histories.specs.Scenes.{prepared, with_release, write};
ghost use Rattle.examples_histories.specs.Values.{disk, group, joint, offer, plain, web, z1};
ghost use Rattle.bosh_roll.specs.declared.upd.Upd.TheVariants.{Todo, Busy, Failed, Finished};
ghost use Rattle.bosh_rows.specs.After.{let_go};

/// The next number is new, and what has a number is the call of that number.
pub fn numbers_are_broken()
    ensures call_to_come { BreaksAlone (codes "numbers past") prepared 5 two
        (last_call_is 0) }
    ensures row_of_a_later_call { BreaksAlone (codes "numbers past") prepared 25 two
        (goal_is (codes "dep") (λ g. record g { rows = map (wanted_after 7) g.rows })) }
    ensures opened_while_recovering { Breaks (codes "none opened since") prepared 5 two
        (and_then (is_unclean 1) (in_moment (λ m. record m { stopped = 1; known = record m.known { tasks = 2 } }))) }
    ensures effect_not_told { Breaks (codes "effects told") prepared 3 two
        (done_for 1 (web 0) (calls.CreateVm (plain z1 10) [])) }
    ensures doubt_of_another { Breaks (codes "doubts own") prepared 7 late
        (row_is (web 0) (doubt_is 1 (calls.CreateVm (plain z1 11) []))) }
    ensures machine_of_another_deployment { BreaksAlone (codes "machines of their tasks") with_release 8 swept
        (slot_is 1 0 (λ it. record it { dep = codes "other" })) }
{}

/// What was done was done to what was there, for its owner.
pub fn the_cloud_is_broken()
    ensures number_twice { BreaksAlone (codes "effects orderly") prepared 5 two
        (done_for 1 (web 0) (calls.Stop 1)) }
    ensures machine_not_made { Breaks (codes "effects orderly") prepared 5 two
        (done_for 2 (web 0) (calls.Stop 2)) }
    ensures loss_of_a_compile_machine { BreaksAlone (codes "losses of instances") with_release 5 leftover
        (and_then (is_unclean 1) (is_lost 1 false)) }
    ensures machine_of_a_disk { BreaksAlone (codes "made for a deployment") prepared 25 two
        (and_then (last_call_is 7) (done_by 7 (Disk 5) (codes "dep") (calls.CreateVm (plain z1 30) []))) }
    ensures disk_of_another { Breaks (codes "disks held by their own") prepared 37 migrated
        (and_then (done_for 9 (web 1) (calls.CreateVm (plain z1 11) []))
        (done_for 9 (web 0) (calls.AttachDisk 2 2))) }
{}

/// Facts on one row.
pub fn rows_are_broken()
    ensures creation_beside_a_machine { BreaksAlone (codes "doubt fits") prepared 25 two
        (row_is (web 0) (doubt_is 1 (calls.CreateVm (plain z1 10) []))) }
    ensures lost_without_a_machine { BreaksAlone (codes "has machine") prepared 28 recreate
        (row_is (web 0) (λ row. record row { lost = true })) }
    ensures two_active { BreaksAlone (codes "sound disks") prepared 49 migrated
        (row_is (web 0) (disks_are (map as_active))) }
    ensures disk_twice { Breaks (codes "sound disks") prepared 25 migrated
        (row_is (web 0) (disks_are (λ disks. disks ++ disks))) }
    ensures three_attached { Breaks (codes "has room") prepared 49 migrated
        (row_is (web 0) (disks_are (λ disks. disks ++ disks))) }
    ensures out_of_order { BreaksAlone (codes "in order") prepared 49 migrated
        (row_is (web 0) (disks_are (turned []))) }
    ensures made_for_another_deployment { Breaks (codes "created") prepared 25 two
        (done_for_another (codes "other")) }
    ensures disk_of_another_want { Breaks (codes "created") prepared 25 migrated
        (row_is (web 0) (disks_are (map (of_size 20)))) }
    ensures not_drained { BreaksAlone (codes "tied") prepared 25 two
        (row_is (web 0) (λ row. record row { drained = true })) }
    ensures silent_holder { BreaksAlone (codes "holds disks") prepared 25 migrated
        (and_then (is_lost 1 false) (row_is (web 0) (disks_are (map let_go)))) }
    ensures second_machine { BreaksAlone (codes "tied") prepared 25 two
        (and_then (is_lost 1 false)
        (and_then (last_call_is 7) (done_for 7 (web 0) (calls.CreateVm (plain z1 10) [])))) }
    ensures lost_and_answering { BreaksAlone (codes "lost silent") prepared 25 two
        (row_is (web 0) (λ row. record row { lost = true })) }
{}

/// Facts on one disk, and on one compile machine.
pub fn disks_and_machines_are_broken()
    ensures disk_of_nobody { BreaksAlone (codes "disk recorded once") prepared 43 orphan
        (in_known (λ k. record k { orphans = []; orphan = λ d. None })) }
    ensures orphan_of_another_want { BreaksAlone (codes "orphan as recorded") prepared 43 orphan
        (orphan_is 1 (λ it. record it { want = disk 99 })) }
    ensures deletion_of_another_machine { BreaksAlone (codes "slot shape") with_release 13 leftover
        (slot_is 1 0 (λ it. record it { doubt = Some (record { n = 3; call = calls.DeleteVm 5 }) })) }
    ensures made_for_another_deployment { Breaks (codes "slot created") with_release 13 leftover
        (done_for_another (codes "other")) }
    ensures deleted_unseen { BreaksAlone (codes "slot tied") with_release 13 leftover
        (and_then (slot_is 1 0 (λ it. record it { doubt = None }))
        (done_by 3 (Compile 1 0) (codes "dep") (calls.DeleteVm 1))) }
    ensures for_no_key { BreaksAlone (codes "slot of goal") with_release 9 together
        (slot_is 1 0 (λ it. record it { key = None })) }
    ensures doubt_of_no_call { BreaksAlone (codes "slot doubt open") with_release 12 together
        (and_then (last_call_is 4)
        (slot_is 1 0 (λ it. record it { doubt = Some (record { n = 4; call = calls.DeleteVm 1 }) }))) }
{}

/// Facts on one open call.
pub fn open_calls_are_broken()
    ensures of_an_ended_task { BreaksAlone (codes "call of work") prepared 3 two
        (task_is 1 (λ t. record t { end = Some ends.Finished })) }
    ensures two_of_one_owner { Breaks (codes "one call") prepared 4 owner_busy
        nothing_else }
    ensures not_the_next_step { Breaks (codes "call fits") prepared 6 not_the_next_step
        nothing_else }
    ensures of_an_earlier_phase { BreaksAlone (codes "call of item") prepared 3 two
        (task_is 1 (λ t. record t { obsolete = web 5 ∷ [] })) }
    ensures answered_otherwise { BreaksAlone (codes "answer kept") prepared 4 did_otherwise
        (is_unclean 1) }
    ensures disk_answered_otherwise { BreaksAlone (codes "answer kept") prepared 7 migrated
        (and_then (is_unclean 1)
        (call_is 2 (λ call. record call { did = Some (record { n = 2; effect = true; answer = answers.Cid 2 }) }))) }
    ensures written_after_migration { BreaksAlone (codes "contents migrated") prepared 68 migrated
        (with_effect (write 1 (codes "more"))) }
    ensures key_compiled_at_once { BreaksAlone (codes "key compiled once") with_release 11 compiles_at_once
        nothing_else }
    ensures update_not_begun { BreaksAlone (codes "update begun") prepared 3 two
        (task_is 1 (update_at Todo (web 0))) }
    ensures begin_forgotten { BreaksAlone (codes "call begun") prepared 3 two
        (in_known (λ k. record k { begun = λ n. None })) }
{}

/// Facts on one task.
pub fn tasks_are_broken()
    ensures lock_taken { BreaksAlone (codes "another lock") prepared 6 lock_taken
        nothing_else }
    ensures goal_of_another { BreaksAlone (codes "goal current") prepared 5 two
        (goal_is (codes "dep") (λ g. record g { groups = group (codes "web") 1 2 ∷ [] })) }
    ensures changes_another { BreaksAlone (codes "lists well") prepared 5 two
        (task_is 1 (λ t. record t { changed = web 0 ∷ web 1 ∷ web 7 ∷ [] })) }
    ensures row_without_a_place { BreaksAlone (codes "has place") prepared 15 replaced
        (task_is 2 (λ t. record t { obsolete = [] })) }
    ensures done_and_not_standing { BreaksAlone (codes "stands where through") prepared 5 two
        (task_is 1 (update_at Finished (web 1))) }
    ensures asks_no_machine { BreaksAlone (codes "can be asked") prepared 5 two
        (task_is 1 (λ t. record t { to_ping = web 1 ∷ [] })) }
    ensures updates_one_that_goes { BreaksAlone (codes "update listed") prepared 15 replaced
        (task_is 2 (update_at Failed (web 0))) }
    ensures out_of_turn { Breaks (codes "updates in turn") prepared 5 two
        (task_is 1 (update_at Busy (web 1))) }
    ensures above_the_limit { Breaks (codes "within limits") prepared 5 two
        (task_is 1 (update_at Busy (web 1))) }
    ensures disk_never_made { BreaksAlone (codes "disks to delete") prepared 44 orphan
        (task_is 3 (λ t. record t { disks = 1 ∷ 2 ∷ []; orphans = 1 ∷ 2 ∷ [] })) }
    ensures address_of_another_row { BreaksAlone (codes "addressed") prepared 18 recreate
        (and_then (goals_are (codes "dep") 3 (wanting 12))
        (recorded_is (web 5) (λ row. record row { make = Some (plain z1 12) }))) }
    ensures made_and_not_heard_of { BreaksAlone (codes "machine heard of") prepared 43 lost
        (in_moment (λ m. record m { heard = λ t v. not (v == 3) && m.heard t v })) }
    ensures not_heard_of { Breaks (codes "machine heard of") prepared 37 lost
        (in_moment (λ m. record m { heard = λ t v. false })) }
{}

/// Facts on one goal, its links, and addresses.
pub fn goals_are_broken()
    ensures two_plans { BreaksAlone (codes "sound rows") prepared 25 two
        (goal_is (codes "dep") (λ g. record g { groups = g.groups ++ g.groups })) }
    ensures key_twice { BreaksAlone (codes "can be compiled") with_release 8 swept
        (goal_is (codes "dep") (λ g. record g { keys = g.keys ++ g.keys })) }
    ensures no_slot { BreaksAlone (codes "has slots") with_release 8 swept
        (goal_is (codes "dep") (λ g. record g { slots = [] })) }
    ensures offer_of_another { BreaksAlone (codes "own offers") prepared 25 two
        (goal_is (codes "dep")
        (λ g. record g { offers = offer (joint (codes "shop") (codes "db") (codes "db") (codes "db")) ∷ [] })) }
    ensures not_offered_when_done { BreaksAlone (codes "offered when done") with_release 27 links
        (in_known (λ k. record k { shared = λ dep. [] })) }
    ensures not_offered_now { BreaksAlone (codes "offered now") with_release 27 links
        (goal_is (codes "shop") (λ g. record g { offers = [] })) }
    ensures address_twice { BreaksAlone (codes "each address once") prepared 25 two
        (goal_is (codes "dep") (λ g. record g { rows = map with_nets_twice g.rows })) }
    ensures of_two_deployments { Breaks (codes "one deployment") with_release 27 links
        (goal_is (codes "app") (wanting 10)) }
    ensures recorded_twice { Breaks (codes "one recorded") prepared 5 two
        (recorded_is (web 1) (λ row. record row { make = Some (plain z1 10) })) }
    ensures wanted_twice { BreaksAlone (codes "one wanted") prepared 1 two
        (goals_are (codes "dep") 1 (wanting 10)) }
    ensures wanted_of_another_that_stays { BreaksAlone (codes "take over") prepared 5 two
        (and_then (is_unclean 1) (goals_are (codes "dep") 1 (λ g. record g { rows = exchanged g.rows }))) }
{}

/// What is listed is recorded.
pub fn lists_are_broken()
    ensures instances_out_of_order { BreaksAlone (codes "instances listed") prepared 25 two
        (in_known (λ k. record k { instances = web 1 ∷ web 0 ∷ [] })) }
    ensures instance_not_listed { BreaksAlone (codes "instances listed") prepared 25 two
        (in_known (λ k. record k { instances = web 0 ∷ [] })) }
    ensures machine_not_listed { BreaksAlone (codes "machines listed") with_release 8 swept
        (in_known (λ k. record k { machines = [] })) }
    ensures orphan_not_listed { BreaksAlone (codes "orphans listed") prepared 43 orphan
        (in_known (λ k. record k { orphans = [] })) }
    ensures deployment_not_listed { BreaksAlone (codes "deployments listed") prepared 25 two
        (in_known (λ k. record k { deployments = [] })) }
    ensures stopped_to_come { BreaksAlone (codes "losses noted") prepared 25 two
        (in_moment (λ m. record m { stopped = 9 })) }
    ensures loss_not_noted { Breaks (codes "losses noted") prepared 25 two
        (and_then (in_moment (λ m. record m { heard = λ t v. false }))
        (with_effect (entries.Lost (record { vm = 1; whole = false })))) }
{}

/// Facts on one clean task.
pub fn clean_tasks_are_broken()
    ensures lost_unseen { BreaksAlone (codes "rows clean") prepared 5 two
        (is_lost 1 false) }
    ensures call_not_counted { BreaksAlone (codes "steps counted") prepared 5 two
        (task_is 1 task_with_call) }
    ensures instance_that_calls_more { BreaksAlone (codes "steps counted") prepared 5 two
        (and_then (account_is 1 (call_made (Instance (web 0)))) (account_is 1 (call_made (Instance (web 0))))) }
    ensures steps_forgotten { BreaksAlone (codes "steps counted") prepared 5 two
        (account_is 1 (λ it. record it { steps = λ i. [] })) }
    ensures slot_that_calls_more { BreaksAlone (codes "slots few") with_release 9 together
        (and_then (account_is 1 (call_made (Compile 1 0))) (task_is 1 task_with_call)) }
    ensures leftover_that_calls_more { BreaksAlone (codes "slots few") with_release 17 leftover
        (and_then (account_is 2 (call_made (Compile 1 0))) (task_is 2 task_with_call)) }
    ensures deleted_before_it_compiled { Breaks (codes "slot alone") with_release 9 together
        (and_then (is_unclean 1)
        (and_then (last_call_is 3) (slot_is 1 0 (λ it. record it { doubt = Some (record { n = 3; call = calls.DeleteVm 1 }) })))) }
{}
