ghost use Rattle.std.specs.Prelude.{◌∷◌, [], Some, None, true, false};
ghost use Rattle.bosh_base.specs.declared.call.Call.TheVariants as calls;
ghost use Rattle.bosh_base.specs.declared.method.Method.TheVariants as methods;
ghost use Rattle.examples_histories.specs.Values.{disk};
ghost use Rattle.examples_rows.specs.Rows.{active, at_rest, having, kept, new, old, wanted, wanted_with_disk};
ghost use Rattle.examples_rows.specs.Rows.{with_disk, with_spec};
ghost use Rattle.examples_rows.specs.Says.{Comes, ComesOn};

/// Disks that have no use left are unmounted and detached, the one with the least number first.
pub fn disks_are_cleared()
    ensures old_mounted { ComesOn (Some wanted_with_disk) (having (old 1 5 true true ∷ kept ∷ []) at_rest)
        methods.UnmountDisk 1 (calls.UnmountDisk 5 1) }
    ensures old_attached { ComesOn (Some wanted_with_disk) (having (old 1 5 true false ∷ kept ∷ []) at_rest)
        methods.DetachDisk 1 (calls.DetachDisk 5 1) }
    ensures least_mounted { ComesOn (Some wanted_with_disk)
        (having (old 4 5 true true ∷ old 3 5 true true ∷ old 1 5 true false ∷ kept ∷ []) at_rest)
        methods.UnmountDisk 3 (calls.UnmountDisk 5 3) }
    ensures least_attached { ComesOn (Some wanted_with_disk)
        (having (old 4 5 true false ∷ old 3 5 true false ∷ old 1 5 false false ∷ kept ∷ []) at_rest)
        methods.DetachDisk 3 (calls.DetachDisk 5 3) }
    ensures new_beside_right { ComesOn (Some wanted_with_disk) (having (kept ∷ new 3 10 true true ∷ []) at_rest)
        methods.UnmountDisk 3 (calls.UnmountDisk 5 3) }
    ensures new_of_other_size { ComesOn (Some (with_disk 20 wanted))
        (having (kept ∷ new 3 30 true true ∷ []) at_rest) methods.UnmountDisk 3 (calls.UnmountDisk 5 3) }
    ensures second_new { ComesOn (Some (with_disk 20 wanted))
        (having (kept ∷ new 4 20 true true ∷ new 3 20 true true ∷ []) at_rest) methods.UnmountDisk 4
        (calls.UnmountDisk 5 4) }
    ensures new_unwanted { ComesOn (Some wanted) (having (active 2 10 true true ∷ new 3 10 true false ∷ []) at_rest)
        methods.DetachDisk 3 (calls.DetachDisk 5 3) }
    ensures before_missing { ComesOn (Some wanted_with_disk) (having (old 1 5 true false ∷ []) at_rest)
        methods.DetachDisk 1 (calls.DetachDisk 5 1) }
    ensures old_let_go { Comes (Some wanted_with_disk) (having (old 1 5 false false ∷ kept ∷ []) at_rest)
        methods.Start (calls.Start 5) }
    ensures new_that_is_right { ComesOn (Some (with_disk 20 wanted))
        (having (kept ∷ new 3 20 true true ∷ []) at_rest) methods.MigrateDisk 3 (calls.MigrateDisk 5 2 3) }
{}

/// Where no disk is wanted, the active one is unmounted and detached.
pub fn disks_are_released()
    ensures mounted { ComesOn (Some wanted) (having (kept ∷ []) at_rest) methods.UnmountDisk 2
        (calls.UnmountDisk 5 2) }
    ensures attached { ComesOn (Some wanted) (having (active 2 10 true false ∷ []) at_rest) methods.DetachDisk 2
        (calls.DetachDisk 5 2) }
    ensures before_the_spec { ComesOn (Some wanted) (having (active 2 10 true false ∷ []) (with_spec None at_rest))
        methods.DetachDisk 2 (calls.DetachDisk 5 2) }
    ensures let_go { Comes (Some wanted) (having (active 2 10 false false ∷ []) at_rest) methods.Start
        (calls.Start 5) }
    ensures wanted_after_all { Comes (Some wanted_with_disk) (having (kept ∷ []) at_rest) methods.Start
        (calls.Start 5) }
{}

/// Where a disk is wanted, there is an active one, which is attached and then mounted.
pub fn disks_are_provided()
    ensures missing { Comes (Some wanted_with_disk) at_rest methods.CreateDisk (calls.CreateDisk (disk 10) 5) }
    ensures missing_beside_old { Comes (Some wanted_with_disk) (having (old 1 10 false false ∷ []) at_rest)
        methods.CreateDisk (calls.CreateDisk (disk 10) 5) }
    ensures unattached { ComesOn (Some wanted_with_disk) (having (active 2 10 false false ∷ []) at_rest)
        methods.AttachDisk 2 (calls.AttachDisk 5 2) }
    ensures unmounted { ComesOn (Some wanted_with_disk) (having (active 2 10 true false ∷ []) at_rest)
        methods.MountDisk 2 (calls.MountDisk 5 2) }
    ensures unattached_of_other_size { ComesOn (Some (with_disk 20 wanted))
        (having (active 2 10 false false ∷ []) at_rest) methods.AttachDisk 2 (calls.AttachDisk 5 2) }
    ensures unmounted_of_other_size { ComesOn (Some (with_disk 20 wanted))
        (having (active 2 10 true false ∷ new 3 20 false false ∷ []) at_rest) methods.MountDisk 2
        (calls.MountDisk 5 2) }
    ensures in_place { Comes (Some wanted_with_disk) (having (kept ∷ []) at_rest) methods.Start (calls.Start 5) }
    ensures unwanted { Comes (Some wanted) at_rest methods.Start (calls.Start 5) }
{}

/// The contents of an active disk that is not right are moved to a new one.
pub fn disks_are_replaced()
    ensures no_new { Comes (Some (with_disk 20 wanted)) (having (kept ∷ []) at_rest) methods.CreateDisk
        (calls.CreateDisk (disk 20) 5) }
    ensures no_right_new { Comes (Some (with_disk 20 wanted)) (having (kept ∷ new 3 30 false false ∷ []) at_rest)
        methods.CreateDisk (calls.CreateDisk (disk 20) 5) }
    ensures right_old { Comes (Some (with_disk 20 wanted)) (having (old 1 20 false false ∷ kept ∷ []) at_rest)
        methods.CreateDisk (calls.CreateDisk (disk 20) 5) }
    ensures new_unattached { ComesOn (Some (with_disk 20 wanted))
        (having (kept ∷ new 3 20 false false ∷ []) at_rest) methods.AttachDisk 3 (calls.AttachDisk 5 3) }
    ensures new_unmounted { ComesOn (Some (with_disk 20 wanted)) (having (kept ∷ new 3 20 true false ∷ []) at_rest)
        methods.MountDisk 3 (calls.MountDisk 5 3) }
    ensures new_in_place { ComesOn (Some (with_disk 20 wanted)) (having (kept ∷ new 3 20 true true ∷ []) at_rest)
        methods.MigrateDisk 3 (calls.MigrateDisk 5 2 3) }
    ensures least_new { ComesOn (Some (with_disk 20 wanted))
        (having (kept ∷ new 5 20 false false ∷ new 4 20 false false ∷ new 3 30 false false ∷ []) at_rest)
        methods.AttachDisk 4 (calls.AttachDisk 5 4) }
    ensures right_after_all { Comes (Some wanted_with_disk) (having (kept ∷ new 3 20 false false ∷ []) at_rest)
        methods.Start (calls.Start 5) }
{}
