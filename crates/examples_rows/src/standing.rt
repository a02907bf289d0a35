ghost use Rattle.std.specs.Prelude.{◌∷◌, [], Some, None, true, false};
ghost use Rattle.bosh_base.specs.declared.call.Call.TheVariants as calls;
ghost use Rattle.bosh_base.specs.declared.state.State.TheVariants.{Detached, Stopped};
ghost use Rattle.examples_histories.specs.Values.{big, no_jobs, plain, web, z1, z2};
ghost use Rattle.examples_rows.specs.Rows.{absent, active, at_rest, drained, fresh, having, in_doubt, kept, lost};
ghost use Rattle.examples_rows.specs.Rows.{made, new, of_kind, of_make, old, up, up_with_disk, wanted, wanted_as};
ghost use Rattle.examples_rows.specs.Rows.{wanted_with_disk, with_disk, with_spec};
ghost use Rattle.examples_rows.specs.Says.{IsNotStanding};
ghost use Rattle.bosh_rows.specs.After.{bare};
ghost use Rattle.bosh_rows.specs.Standing.{IsStanding};

/// Rows for which nothing has to be done.
pub fn rows_stand()
    ensures without_disk { IsStanding (Some wanted) up }
    ensures with_disk { IsStanding (Some wanted_with_disk) up_with_disk }
    ensures left_drained { IsStanding (Some wanted) (drained up) }
    ensures fresh_enough { IsStanding (Some (fresh 2)) up }
    ensures stopped { IsStanding (Some (wanted_as Stopped)) at_rest }
    ensures stopped_drained { IsStanding (Some (wanted_as Stopped)) (drained at_rest) }
    ensures stopped_with_disk { IsStanding (Some (with_disk 10 (wanted_as Stopped))) (having (kept ∷ []) at_rest) }
    ensures detached { IsStanding (Some (wanted_as Detached)) absent }
    ensures detached_with_disk { IsStanding (Some (with_disk 10 (wanted_as Detached)))
        (having (active 2 10 false false ∷ []) absent) }
    ensures detached_with_other_disk { IsStanding (Some (with_disk 20 (wanted_as Detached)))
        (having (active 2 10 false false ∷ []) absent) }
    ensures detached_with_unwanted_disk { IsStanding (Some (wanted_as Detached))
        (having (active 2 10 false false ∷ []) absent) }
    ensures detached_of_other_make { IsStanding (Some (wanted_as Detached)) (of_make (Some (big z2 11)) absent) }
    ensures detached_from_the_first { IsStanding (Some (wanted_as Detached)) (bare (web 0)) }
    ensures unwanted { IsStanding None absent }
    ensures unwanted_from_the_first { IsStanding None (bare (web 0)) }
{}

/// Rows whose machine is not as it is wanted.
pub fn machines_do_not_stand()
    ensures missing { IsNotStanding (Some wanted) absent }
    ensures from_the_first { IsNotStanding (Some wanted) (bare (web 0)) }
    ensures in_doubt { IsNotStanding (Some wanted) (in_doubt (calls.Start 5) up) }
    ensures lost { IsNotStanding (Some wanted) (lost up) }
    ensures lost_at_rest { IsNotStanding (Some (wanted_as Stopped)) (lost at_rest) }
    ensures other_vm_type { IsNotStanding (Some (made (big z1 10))) up }
    ensures other_address { IsNotStanding (Some (made (plain z1 11))) up }
    ensures other_zone { IsNotStanding (Some (made (plain z2 10))) up }
    ensures make_unknown { IsNotStanding (Some wanted) (of_make None up) }
    ensures too_old { IsNotStanding (Some (fresh 3)) up }
    ensures other_spec { IsNotStanding (Some wanted) (with_spec (Some no_jobs) up) }
    ensures no_spec { IsNotStanding (Some wanted) (with_spec None up) }
    ensures not_running { IsNotStanding (Some wanted) at_rest }
    ensures still_running { IsNotStanding (Some (wanted_as Stopped)) up }
    ensures stopped_without_machine { IsNotStanding (Some (wanted_as Stopped)) absent }
    ensures detached_with_machine { IsNotStanding (Some (wanted_as Detached)) at_rest }
    ensures detached_in_doubt { IsNotStanding (Some (wanted_as Detached))
        (in_doubt (calls.CreateVm (plain z1 10) []) absent) }
    ensures unwanted_with_machine { IsNotStanding None at_rest }
    ensures unwanted_in_doubt { IsNotStanding None (in_doubt (calls.CreateVm (plain z1 10) []) absent) }
{}

/// Rows whose disks are not as they are wanted.
pub fn disks_do_not_stand()
    ensures missing { IsNotStanding (Some wanted_with_disk) up }
    ensures of_other_size { IsNotStanding (Some (with_disk 20 wanted)) up_with_disk }
    ensures of_other_kind { IsNotStanding (Some (of_kind wanted_with_disk)) up_with_disk }
    ensures not_mounted { IsNotStanding (Some wanted_with_disk) (having (active 2 10 true false ∷ []) up) }
    ensures not_attached { IsNotStanding (Some wanted_with_disk) (having (active 2 10 false false ∷ []) up) }
    ensures unwanted { IsNotStanding (Some wanted) up_with_disk }
    ensures unwanted_let_go { IsNotStanding (Some wanted) (having (active 2 10 false false ∷ []) up) }
    ensures old_left { IsNotStanding (Some wanted_with_disk) (having (old 1 5 false false ∷ kept ∷ []) up) }
    ensures new_left { IsNotStanding (Some wanted_with_disk) (having (kept ∷ new 3 10 false false ∷ []) up) }
    ensures old_alone { IsNotStanding (Some wanted_with_disk) (having (old 2 10 true true ∷ []) up) }
    ensures new_alone { IsNotStanding (Some wanted_with_disk) (having (new 2 10 true true ∷ []) up) }
    ensures two_active { IsNotStanding (Some wanted_with_disk) (having (kept ∷ active 3 10 true true ∷ []) up) }
    ensures old_left_unwanted { IsNotStanding (Some wanted) (having (old 1 5 false false ∷ []) up) }
    ensures detached_with_old { IsNotStanding (Some (wanted_as Detached))
        (having (old 1 5 false false ∷ active 2 10 false false ∷ []) absent) }
    ensures detached_with_new { IsNotStanding (Some (wanted_as Detached))
        (having (active 2 10 false false ∷ new 3 20 false false ∷ []) absent) }
    ensures unwanted_with_instance { IsNotStanding None (having (active 2 10 false false ∷ []) absent) }
{}
