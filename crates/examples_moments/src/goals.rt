ghost use Rattle.std.specs.Prelude.{◌∷◌, [], Some, codes};
ghost use Rattle.bosh_base.specs.declared.state.State.TheVariants.{Detached, Running, Stopped};
ghost use Rattle.bosh_base.specs.declared.task.TaskKind.TheVariants.{DeleteDeployment, Deploy, Recreate, Start, Stop};
ghost use Rattle.examples_histories.specs.Failed.{failed};
ghost use Rattle.examples_histories.specs.Links.{links, links_g1};
ghost use Rattle.examples_histories.specs.Scenes.{prepared, with_release};
ghost use Rattle.examples_histories.specs.Swept.{swept};
ghost use Rattle.examples_histories.specs.Together.{together};
ghost use Rattle.examples_histories.specs.Two.{two};
ghost use Rattle.examples_histories.specs.Values.{disk, goal, group, inst, no_jobs, plain, row, slot, web};
ghost use Rattle.examples_histories.specs.Values.{with_j, work_p, z1};
ghost use Rattle.examples_moments.specs.Goals.{both, both_as_they_are, first_compiled, four_keys, fresh_after};
ghost use Rattle.examples_moments.specs.Goals.{handed_on, in_state, nothing_wanted, of_keys, of_offer};
ghost use Rattle.examples_moments.specs.Goals.{of_other_type, of_plans, of_rows, of_slots, offer_of};
ghost use Rattle.examples_moments.specs.Goals.{of_tie, one, second_at, tie_to, web_at, withdrawn};
ghost use Rattle.examples_moments.specs.Goals.{work_a, work_b, work_q, work_r, work_x};
ghost use Rattle.examples_moments.specs.Goals.{IsSoundGoal, IsUnsoundGoal};
ghost use Rattle.examples_moments.specs.Moves.{none};

/// Goals that a deploy may open with.
pub fn goals_are_sound()
    ensures nothing { IsSoundGoal prepared 0 none Deploy nothing_wanted }
    ensures one_instance { IsSoundGoal prepared 0 none Deploy (of_rows (web_at 0 10 ∷ [])) }
    ensures two_instances { IsSoundGoal prepared 0 none Deploy both_as_they_are }
    ensures two_groups { IsSoundGoal prepared 0 none Deploy (of_plans (group (codes "db") 0 2 ∷ one ∷ [])) }
    ensures stopped { IsSoundGoal prepared 0 none Deploy (of_rows (in_state Stopped (web_at 0 10) ∷ [])) }
    ensures with_disk { IsSoundGoal prepared 0 none Deploy
        (of_rows (row (web 0) (plain z1 10) no_jobs (Some (disk 10)) Running 0 ∷ [])) }
    ensures key { IsSoundGoal prepared 0 none Deploy (of_keys (work_p ∷ []) (slot z1 11 ∷ [])) }
    ensures key_after_what_it_needs { IsSoundGoal prepared 0 none Deploy
        (of_keys (work_p ∷ work_q ∷ []) (slot z1 11 ∷ [])) }
    ensures three_keys_by_level { IsSoundGoal prepared 0 none Deploy
        (of_keys (work_p ∷ work_r ∷ work_q ∷ []) (slot z1 11 ∷ [])) }
    ensures key_that_needs_a_compiled_one { IsSoundGoal with_release 12 together Deploy
        (goal (codes "c") [] [] (work_q ∷ []) (slot z1 20 ∷ []) [] []) }
    ensures tie_within { IsSoundGoal prepared 0 none Deploy (of_tie (tie_to (codes "dep"))) }
    ensures tie_across { IsSoundGoal with_release 13 links Deploy (of_tie (tie_to (codes "shop"))) }
    ensures own_offer { IsSoundGoal prepared 0 none Deploy (of_offer (offer_of (codes "dep"))) }
    ensures more_instances { IsSoundGoal prepared 25 two Deploy
        (of_rows (web_at 0 10 ∷ second_at 11 ∷ web_at 2 12 ∷ [])) }
    ensures address_of_one_that_goes { IsSoundGoal prepared 25 two Deploy (of_rows (web_at 2 10 ∷ [])) }
    ensures slot_beside_rows { IsSoundGoal prepared 25 two Deploy (of_slots (slot z1 12 ∷ [])) }
{}

/// Goals with an instance that is not as it should be.
pub fn goals_of_unsound_instances()
    ensures twice { IsUnsoundGoal prepared 0 none Deploy (of_rows (web_at 0 10 ∷ web_at 0 11 ∷ [])) }
    ensures of_another_deployment { IsUnsoundGoal prepared 0 none Deploy
        (of_rows (row (inst (codes "other") (codes "web") 0) (plain z1 10) no_jobs None Running 0 ∷ [])) }
    ensures of_no_group { IsUnsoundGoal prepared 0 none Deploy (of_plans (group (codes "db") 1 1 ∷ [])) }
    ensures without_plans { IsUnsoundGoal prepared 0 none Deploy (of_plans []) }
    ensures of_two_plans { IsUnsoundGoal prepared 0 none Deploy (of_plans (one ∷ group (codes "web") 1 2 ∷ [])) }
    ensures without_room { IsUnsoundGoal prepared 0 none Deploy (of_plans (group (codes "web") 1 0 ∷ [])) }
    ensures of_a_later_call { IsUnsoundGoal prepared 25 two Deploy (both (fresh_after 7 (web_at 0 10)) (second_at 11)) }
    ensures of_the_first_call { IsUnsoundGoal prepared 0 none Deploy (of_rows (fresh_after 1 (web_at 0 10) ∷ [])) }
{}

/// Goals with an address that is not free.
pub fn goals_of_unsound_addresses()
    ensures two_rows { IsUnsoundGoal prepared 0 none Deploy (both (web_at 0 10) (second_at 10)) }
    ensures row_and_slot { IsUnsoundGoal prepared 0 none Deploy (of_slots (slot z1 10 ∷ [])) }
    ensures two_slots { IsUnsoundGoal prepared 0 none Deploy (of_slots (slot z1 11 ∷ slot z1 11 ∷ [])) }
    ensures held_by_another_row { IsUnsoundGoal prepared 25 two Deploy
        (goal (codes "other") (row (inst (codes "other") (codes "web") 0) (plain z1 10) no_jobs None Running 0 ∷ [])
        (one ∷ []) [] [] [] []) }
    ensures held_by_another_slot { IsUnsoundGoal with_release 3 together Deploy
        (goal (codes "c") [] [] [] (slot z1 13 ∷ []) [] []) }
    ensures of_one_that_stays { IsUnsoundGoal prepared 25 two Deploy (both (web_at 0 12) (second_at 10)) }
    ensures slot_of_a_row { IsUnsoundGoal prepared 25 two Deploy (of_slots (slot z1 11 ∷ [])) }
    ensures slot_of_a_compile_machine { IsUnsoundGoal with_release 8 swept Deploy
        (goal (codes "dep") [] [] [] (slot z1 10 ∷ []) [] []) }
    ensures slot_of_the_current_goal { IsUnsoundGoal prepared 3 failed Deploy (of_slots (slot z1 11 ∷ [])) }
{}

/// Goals whose keys, ties or offers are not as they should be.
pub fn goals_of_unsound_keys_and_links()
    ensures compiled { IsUnsoundGoal with_release 12 together Deploy
        (goal (codes "c") [] [] (work_p ∷ []) (slot z1 20 ∷ []) [] []) }
    ensures twice { IsUnsoundGoal prepared 0 none Deploy (of_keys (work_p ∷ work_p ∷ []) (slot z1 11 ∷ [])) }
    ensures before_what_it_needs { IsUnsoundGoal prepared 0 none Deploy
        (of_keys (work_q ∷ work_p ∷ []) (slot z1 11 ∷ [])) }
    ensures out_of_order { IsUnsoundGoal prepared 0 none Deploy
        (of_keys (work_r ∷ work_p ∷ []) (slot z1 11 ∷ [])) }
    ensures deeper_before_others { IsUnsoundGoal prepared 0 none Deploy
        (of_keys (work_p ∷ work_q ∷ work_r ∷ []) (slot z1 11 ∷ [])) }
    ensures without_what_it_needs { IsUnsoundGoal prepared 0 none Deploy
        (of_keys (work_q ∷ []) (slot z1 11 ∷ [])) }
    ensures without_slots { IsUnsoundGoal prepared 0 none Deploy (of_keys (work_p ∷ []) []) }
    ensures tie_to_none { IsUnsoundGoal prepared 0 none Deploy (of_tie (tie_to (codes "shop"))) }
    ensures tie_of_other_type { IsUnsoundGoal with_release 13 links Deploy
        (of_tie (of_other_type (tie_to (codes "shop")))) }
    ensures tie_that_is_withdrawn { IsUnsoundGoal with_release 15 withdrawn Deploy (of_tie (tie_to (codes "shop"))) }
    ensures tie_to_one_not_done { IsUnsoundGoal with_release 11 links Deploy (of_tie (tie_to (codes "shop"))) }
    ensures offer_of_another { IsUnsoundGoal prepared 0 none Deploy (of_offer (offer_of (codes "shop"))) }
{}

/// Once a key of a goal is compiled, what is left need not be in the order that a deploy asks for: `a`, which needed
/// that key, would come first. A task of one instance opens with the keys as they stand, each after what it needs.
pub fn goals_of_keys_that_are_left()
    ensures at_first { IsSoundGoal prepared 0 none Deploy four_keys }
    ensures left { IsSoundGoal prepared 7 first_compiled (Recreate (web 0))
        (of_keys (work_x ∷ work_a ∷ work_b ∷ []) (slot z1 12 ∷ [])) }
    ensures left_to_a_deploy { IsUnsoundGoal prepared 7 first_compiled Deploy
        (of_keys (work_x ∷ work_a ∷ work_b ∷ []) (slot z1 12 ∷ [])) }
    ensures of_a_deploy { IsSoundGoal prepared 7 first_compiled Deploy
        (of_keys (work_a ∷ work_x ∷ work_b ∷ []) (slot z1 12 ∷ [])) }
    ensures with_the_compiled_one { IsUnsoundGoal prepared 7 first_compiled (Recreate (web 0))
        (of_keys (work_p ∷ work_x ∷ work_a ∷ work_b ∷ []) (slot z1 12 ∷ [])) }
    ensures before_what_it_needs { IsUnsoundGoal prepared 7 first_compiled (Recreate (web 0))
        (of_keys (work_b ∷ work_x ∷ work_a ∷ []) (slot z1 12 ∷ [])) }
    ensures twice { IsUnsoundGoal prepared 7 first_compiled (Recreate (web 0))
        (of_keys (work_x ∷ work_a ∷ work_x ∷ work_b ∷ []) (slot z1 12 ∷ [])) }
    ensures without_slots { IsUnsoundGoal prepared 7 first_compiled (Recreate (web 0))
        (of_keys (work_x ∷ work_a ∷ work_b ∷ []) []) }
{}

/// Goals that a task of one instance, or a deletion, may open with.
pub fn goals_of_other_tasks_are_sound()
    ensures recreated { IsSoundGoal prepared 25 two (Recreate (web 0))
        (both (fresh_after 6 (web_at 0 10)) (second_at 11)) }
    ensures stopped { IsSoundGoal prepared 25 two (Stop (web 1))
        (both (web_at 0 10) (in_state Stopped (second_at 11))) }
    ensures detached { IsSoundGoal prepared 25 two (Stop (web 1))
        (both (web_at 0 10) (in_state Detached (second_at 11))) }
    ensures as_it_is { IsSoundGoal prepared 25 two (Start (web 0)) both_as_they_are }
    ensures detached_at_the_address_of_another { IsSoundGoal prepared 24 handed_on (Stop (web 1))
        (of_rows (in_state Detached (web_at 1 10) ∷ [])) }
    ensures with_offers { IsSoundGoal with_release 14 links (Recreate (inst (codes "shop") (codes "db") 0)) links_g1 }
    ensures deletion { IsSoundGoal prepared 25 two DeleteDeployment nothing_wanted }
{}

/// .. and those that they may not open with.
pub fn goals_of_other_tasks_are_unsound()
    ensures another_state { IsUnsoundGoal prepared 25 two (Stop (web 1))
        (both (in_state Stopped (web_at 0 10)) (in_state Stopped (second_at 11))) }
    ensures another_anew { IsUnsoundGoal prepared 25 two (Recreate (web 0))
        (both (fresh_after 6 (web_at 0 10)) (fresh_after 6 (second_at 11))) }
    ensures another_address { IsUnsoundGoal prepared 25 two (Recreate (web 0)) (both (web_at 0 10) (second_at 12)) }
    ensures other_address { IsUnsoundGoal prepared 25 two (Recreate (web 0)) (both (web_at 0 12) (second_at 11)) }
    ensures other_disk { IsUnsoundGoal prepared 25 two (Recreate (web 0))
        (both (row (web 0) (plain z1 10) no_jobs (Some (disk 10)) Running 6) (second_at 11)) }
    ensures fewer_rows { IsUnsoundGoal prepared 25 two (Recreate (web 0)) (of_rows (fresh_after 6 (web_at 0 10) ∷ [])) }
    ensures more_rows { IsUnsoundGoal prepared 25 two (Recreate (web 0))
        (of_rows (web_at 0 10 ∷ second_at 11 ∷ web_at 2 12 ∷ [])) }
    ensures other_plan { IsUnsoundGoal prepared 25 two (Recreate (web 0))
        (goal (codes "dep") (web_at 0 10 ∷ second_at 11 ∷ []) (group (codes "web") 1 2 ∷ []) [] [] [] []) }
    ensures other_ties { IsUnsoundGoal prepared 25 two (Recreate (web 0))
        (goal (codes "dep") (web_at 0 10 ∷ second_at 11 ∷ []) (one ∷ []) [] [] (tie_to (codes "dep") ∷ []) []) }
    ensures fewer_offers { IsUnsoundGoal with_release 14 links (Recreate (inst (codes "shop") (codes "db") 0))
        (goal (codes "shop") links_g1.rows links_g1.groups [] [] [] []) }
    ensures not_in_the_goal { IsUnsoundGoal prepared 25 two (Start (web 2)) both_as_they_are }
    ensures of_no_deployment { IsUnsoundGoal prepared 0 none (Start (web 0)) both_as_they_are }
    ensures at_the_address_of_another { IsUnsoundGoal prepared 24 handed_on (Recreate (web 1))
        (of_rows (web_at 1 10 ∷ [])) }
    ensures deletion_with_rows { IsUnsoundGoal prepared 25 two DeleteDeployment both_as_they_are }
    ensures deletion_with_slots { IsUnsoundGoal prepared 25 two DeleteDeployment
        (goal (codes "dep") [] [] [] (slot z1 12 ∷ []) [] []) }
    ensures other_spec { IsUnsoundGoal prepared 25 two (Recreate (web 0))
        (both (row (web 0) (plain z1 10) with_j None Running 6) (second_at 11)) }
    ensures other_canaries { IsUnsoundGoal prepared 25 two (Recreate (web 0))
        (goal (codes "dep") (web_at 0 10 ∷ second_at 11 ∷ []) (group (codes "web") 2 1 ∷ []) [] [] [] []) }
    ensures other_stage { IsUnsoundGoal prepared 25 two (Recreate (web 0))
        (goal (codes "dep") (web_at 0 10 ∷ second_at 11 ∷ []) (record one { stage = 1 } ∷ []) [] [] [] []) }
    ensures deletion_with_keys { IsUnsoundGoal prepared 25 two DeleteDeployment
        (goal (codes "dep") [] [] (work_p ∷ []) (slot z1 12 ∷ []) [] []) }
    ensures deletion_with_offers { IsUnsoundGoal with_release 14 links DeleteDeployment
        (goal (codes "shop") [] [] [] [] [] links_g1.offers) }
    ensures deletion_with_ties { IsUnsoundGoal with_release 27 links DeleteDeployment
        (goal (codes "app") [] [] [] [] (tie_to (codes "shop") ∷ []) []) }
{}
