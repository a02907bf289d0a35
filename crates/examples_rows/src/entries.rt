ghost use Rattle.std.specs.Prelude.{◌≡◌, ◌∷◌, [], Some, None, true, false};
ghost use Rattle.bosh_base.specs.declared.answer.Answer.TheVariants as answers;
ghost use Rattle.bosh_base.specs.declared.call.Call.TheVariants as calls;
ghost use Rattle.bosh_base.specs.declared.state.State.TheVariants.{Detached, Stopped};
ghost use Rattle.examples_histories.specs.Values.{big, disk, no_jobs, plain, with_j, z1, z2};
ghost use Rattle.examples_rows.specs.Rows.{absent, active, at_rest, drained, having, in_doubt, kept, lost, new};
ghost use Rattle.examples_rows.specs.Rows.{of_make, old, on_vm, up, up_with_disk, wanted, wanted_as};
ghost use Rattle.examples_rows.specs.Rows.{wanted_with_disk, with_disk, with_spec};
ghost use Rattle.examples_rows.specs.Says.{Answered};
ghost use Rattle.bosh_rows.specs.After.{after, begun_row, left_behind, updated_row};

/// A call that may change something is in doubt once it began, but for a migration; a creation sets the make.
pub fn calls_begin()
    ensures create_vm { begun_row 7 (calls.CreateVm (big z2 11) []) absent ≡ of_make (Some (big z2 11))
        (in_doubt (calls.CreateVm (big z2 11) []) absent) }
    ensures delete_vm { begun_row 7 (calls.DeleteVm 5) at_rest ≡ in_doubt (calls.DeleteVm 5) at_rest }
    ensures create_disk { begun_row 7 (calls.CreateDisk (disk 10) 5) at_rest ≡ in_doubt (calls.CreateDisk (disk 10) 5)
        at_rest }
    ensures attach_disk { begun_row 7 (calls.AttachDisk 5 2) at_rest ≡ in_doubt (calls.AttachDisk 5 2) at_rest }
    ensures detach_disk { begun_row 7 (calls.DetachDisk 5 2) at_rest ≡ in_doubt (calls.DetachDisk 5 2) at_rest }
    ensures mount_disk { begun_row 7 (calls.MountDisk 5 2) at_rest ≡ in_doubt (calls.MountDisk 5 2) at_rest }
    ensures unmount_disk { begun_row 7 (calls.UnmountDisk 5 2) at_rest ≡ in_doubt (calls.UnmountDisk 5 2) at_rest }
    ensures apply { begun_row 7 (calls.Apply 5 no_jobs) at_rest ≡ in_doubt (calls.Apply 5 no_jobs) at_rest }
    ensures start { begun_row 7 (calls.Start 5) at_rest ≡ in_doubt (calls.Start 5) at_rest }
    ensures drain { begun_row 7 (calls.Drain 5) up ≡ in_doubt (calls.Drain 5) up }
    ensures stop { begun_row 7 (calls.Stop 5) up ≡ in_doubt (calls.Stop 5) up }
    ensures migrate_disk { begun_row 7 (calls.MigrateDisk 5 2 3) at_rest ≡ at_rest }
    ensures ping { begun_row 7 (calls.Ping 5) up ≡ up }
    ensures get_state { begun_row 8 (calls.GetState 5) (in_doubt (calls.Start 5) at_rest) ≡ in_doubt (calls.Start 5)
        at_rest }
    ensures find_vm { begun_row 8 (calls.FindVm 7) (in_doubt (calls.CreateVm (plain z1 10) []) absent) ≡ in_doubt
        (calls.CreateVm (plain z1 10) []) absent }
    ensures ping_in_doubt { begun_row 8 (calls.Ping 5) (in_doubt (calls.Start 5) at_rest) ≡ in_doubt (calls.Start 5)
        at_rest }
{}

/// Answers of calls that make, find and delete machines.
pub fn machines_answer()
    ensures created { Answered (calls.CreateVm (plain z1 10) []) (answers.Cid 6) absent (on_vm 6 7 absent) }
    ensures found { after 8 (calls.FindVm 7) (answers.Found (Some 6))
        (in_doubt (calls.CreateVm (plain z1 10) []) absent) ≡ on_vm 6 7 absent }
    ensures not_found { after 8 (calls.FindVm 7) (answers.Found None)
        (in_doubt (calls.CreateVm (plain z1 10) []) absent) ≡ absent }
    ensures deleted { Answered (calls.DeleteVm 5) answers.Done (drained up) absent }
    ensures deleted_with_disk { Answered (calls.DeleteVm 5) answers.Done up_with_disk
        (having (active 2 10 false false ∷ []) absent) }
    ensures lost_deleted { Answered (calls.DeleteVm 5) answers.Done (lost up) absent }
    ensures lost_gone { Answered (calls.DeleteVm 5) answers.Gone (lost up) absent }
    ensures gone { Answered (calls.DeleteVm 5) answers.Gone up up }
    ensures not_there { after 8 (calls.HasVm 5) answers.No (in_doubt (calls.DeleteVm 5) (lost up)) ≡ absent }
    ensures not_there_with_disk { after 8 (calls.HasVm 5) answers.No (in_doubt (calls.DeleteVm 5) up_with_disk)
        ≡ having (active 2 10 false false ∷ []) absent }
    ensures there { after 8 (calls.HasVm 5) answers.Yes (in_doubt (calls.DeleteVm 5) at_rest) ≡ at_rest }
    ensures lost_there { after 8 (calls.HasVm 5) answers.Yes (in_doubt (calls.DeleteVm 5) (lost up)) ≡ lost up }
    ensures ping { after 8 (calls.Ping 5) answers.Done up ≡ up }
    ensures ping_in_doubt { after 8 (calls.Ping 5) answers.Done (in_doubt (calls.Start 5) at_rest) ≡ in_doubt
        (calls.Start 5) at_rest }
    ensures ping_gone { after 8 (calls.Ping 5) answers.Gone up ≡ lost up }
    ensures ping_gone_in_doubt { after 8 (calls.Ping 5) answers.Gone (in_doubt (calls.Start 5) at_rest) ≡ in_doubt
        (calls.Start 5) (lost at_rest) }
    ensures ping_failed { after 8 (calls.Ping 5) answers.Failed up ≡ up }
{}

/// Answers of a machine's agent.
pub fn agents_answer()
    ensures applied { Answered (calls.Apply 5 no_jobs) answers.Done at_rest (with_spec (Some no_jobs) at_rest) }
    ensures started { Answered (calls.Start 5) answers.Done (drained at_rest) up }
    ensures drained { Answered (calls.Drain 5) answers.Done up (drained up) }
    ensures stopped { Answered (calls.Stop 5) answers.Done (drained up) (drained at_rest) }
    ensures state { after 8 (calls.GetState 5) (answers.Facts (Some no_jobs) true true)
        (in_doubt (calls.Start 5) at_rest) ≡ drained (with_spec (Some no_jobs) up) }
    ensures state_of_none { after 8 (calls.GetState 5) (answers.Facts None false false)
        (in_doubt (calls.Stop 5) (drained up)) ≡ with_spec None at_rest }
    ensures start_failed { after 7 (calls.Start 5) answers.Failed (in_doubt (calls.Start 5) at_rest) ≡ in_doubt
        (calls.Start 5) at_rest }
    ensures start_gone { Answered (calls.Start 5) answers.Gone (drained at_rest) (drained at_rest) }
    ensures state_failed { after 8 (calls.GetState 5) answers.Failed (in_doubt (calls.Start 5) at_rest) ≡ in_doubt
        (calls.Start 5) at_rest }
    ensures state_gone { after 8 (calls.GetState 5) answers.Gone (in_doubt (calls.Start 5) at_rest) ≡ at_rest }
{}

/// Answers of calls on disks.
pub fn disks_answer()
    ensures first_created { Answered (calls.CreateDisk (disk 10) 5) (answers.Cid 4) at_rest
        (having (active 4 10 false false ∷ []) at_rest) }
    ensures second_created { Answered (calls.CreateDisk (disk 20) 5) (answers.Cid 4) (having (kept ∷ []) at_rest)
        (having (kept ∷ new 4 20 false false ∷ []) at_rest) }
    ensures created_beside_old { Answered (calls.CreateDisk (disk 10) 5) (answers.Cid 4)
        (having (old 2 5 false false ∷ []) at_rest)
        (having (old 2 5 false false ∷ active 4 10 false false ∷ []) at_rest) }
    ensures found { after 8 (calls.FindDisk 7) (answers.Found (Some 4))
        (in_doubt (calls.CreateDisk (disk 10) 5) at_rest) ≡ having (active 4 10 false false ∷ []) at_rest }
    ensures not_found { after 8 (calls.FindDisk 7) (answers.Found None)
        (in_doubt (calls.CreateDisk (disk 10) 5) at_rest) ≡ at_rest }
    ensures lost_found { after 8 (calls.FindDisk 7) (answers.Found (Some 4))
        (in_doubt (calls.CreateDisk (disk 10) 5) (lost at_rest)) ≡ having (active 4 10 false false ∷ [])
        (lost at_rest) }
    ensures attached { Answered (calls.AttachDisk 5 2) answers.Done
        (having (active 2 10 false false ∷ new 3 20 false false ∷ []) at_rest)
        (having (active 2 10 true false ∷ new 3 20 false false ∷ []) at_rest) }
    ensures detached { Answered (calls.DetachDisk 5 2) answers.Done
        (having (old 2 10 true false ∷ active 3 20 true true ∷ []) at_rest)
        (having (old 2 10 false false ∷ active 3 20 true true ∷ []) at_rest) }
    ensures mounted { Answered (calls.MountDisk 5 2) answers.Done (having (active 2 10 true false ∷ []) at_rest)
        (having (kept ∷ []) at_rest) }
    ensures unmounted { Answered (calls.UnmountDisk 5 2) answers.Done (having (kept ∷ []) at_rest)
        (having (active 2 10 true false ∷ []) at_rest) }
    ensures which_attached { after 8 (calls.GetDisks 5) (answers.Disks (2 ∷ []))
        (in_doubt (calls.AttachDisk 5 2) (having (active 2 10 false false ∷ new 3 20 true false ∷ []) at_rest))
        ≡ having (active 2 10 true false ∷ new 3 20 false false ∷ []) at_rest }
    ensures which_mounted { after 8 (calls.ListDisk 5) (answers.Disks (3 ∷ []))
        (in_doubt (calls.UnmountDisk 5 2) (having (kept ∷ new 3 20 true true ∷ []) at_rest)) ≡ having
        (active 2 10 true false ∷ new 3 20 true true ∷ []) at_rest }
    ensures migrated { after 7 (calls.MigrateDisk 5 2 3) answers.Done
        (having (kept ∷ new 3 20 true true ∷ []) at_rest) ≡ having (old 2 10 true true ∷ active 3 20 true true ∷ [])
        at_rest }
    ensures migration_failed { after 7 (calls.MigrateDisk 5 2 3) answers.Failed
        (having (kept ∷ new 3 20 true true ∷ []) at_rest) ≡ having (kept ∷ new 3 20 true true ∷ []) at_rest }
    ensures attach_failed { after 7 (calls.AttachDisk 5 2) answers.Failed (in_doubt (calls.AttachDisk 5 2) at_rest)
        ≡ in_doubt (calls.AttachDisk 5 2) at_rest }
    ensures attach_gone { Answered (calls.AttachDisk 5 2) answers.Gone
        (having (active 2 10 false false ∷ []) at_rest) (having (active 2 10 false false ∷ []) at_rest) }
{}

/// What stays with an instance whose update is done, and what is left behind.
pub fn updates_are_done()
    ensures old_left { updated_row wanted_with_disk (having (old 1 5 false false ∷ kept ∷ []) up) ≡ up_with_disk }
    ensures new_left { updated_row wanted_with_disk (having (kept ∷ new 3 20 false false ∷ []) up) ≡ up_with_disk }
    ensures unwanted_left { updated_row wanted (having (active 2 10 false false ∷ []) up) ≡ up }
    ensures unwanted_left_stopped { updated_row (wanted_as Stopped) (having (active 2 10 false false ∷ []) at_rest)
        ≡ at_rest }
    ensures detached_kept { updated_row (wanted_as Detached)
        (having (old 1 5 false false ∷ active 2 10 false false ∷ []) absent) ≡ having (active 2 10 false false ∷ [])
        absent }
    ensures left { left_behind wanted_with_disk (having (old 1 5 false false ∷ kept ∷ new 3 20 false false ∷ []) up)
        ≡ old 1 5 false false ∷ new 3 20 false false ∷ [] }
    ensures active_left { left_behind wanted (having (active 2 10 false false ∷ []) up) ≡ active 2 10 false false ∷
        [] }
    ensures none_left { left_behind (wanted_as Detached) (having (active 2 10 false false ∷ []) absent) ≡ [] }
{}
