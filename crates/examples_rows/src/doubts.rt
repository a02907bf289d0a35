ghost use Rattle.std.specs.Prelude.{Some, None, [], true, false, ◌∷◌};
ghost use Rattle.bosh_base.specs.declared.call.Call.TheVariants as calls;
ghost use Rattle.bosh_base.specs.declared.method.Method.TheVariants as methods;
ghost use Rattle.examples_histories.specs.Values.{disk, no_jobs, plain, with_j, z1};
ghost use Rattle.examples_rows.specs.Rows.{absent, active, at_rest, drained, having, in_doubt, kept, lost, up};
ghost use Rattle.examples_rows.specs.Rows.{up_with_disk, wanted, wanted_with_disk};
ghost use Rattle.examples_rows.specs.Says.{Comes, Rests};

/// A machine that did not answer is deleted, once it is known which disk or machine there is.
pub fn lost_rows_go()
    ensures without_doubt { Comes (Some wanted) (lost up) methods.DeleteVm (calls.DeleteVm 5) }
    ensures unwanted { Comes None (lost up_with_disk) methods.DeleteVm (calls.DeleteVm 5) }
    ensures of_create_disk { Comes (Some wanted_with_disk) (in_doubt (calls.CreateDisk (disk 10) 5) (lost at_rest))
        methods.FindDisk (calls.FindDisk 7) }
    ensures of_delete_vm { Comes None (in_doubt (calls.DeleteVm 5) (lost at_rest)) methods.HasVm (calls.HasVm 5) }
    ensures of_start { Comes (Some wanted) (in_doubt (calls.Start 5) (lost at_rest)) methods.DeleteVm
        (calls.DeleteVm 5) }
    ensures of_attach_disk { Comes (Some wanted_with_disk) (in_doubt (calls.AttachDisk 5 2) (lost at_rest))
        methods.DeleteVm (calls.DeleteVm 5) }
    ensures of_mount_disk { Comes (Some wanted_with_disk) (in_doubt (calls.MountDisk 5 2) (lost at_rest))
        methods.DeleteVm (calls.DeleteVm 5) }
    ensures not_lost { Rests (Some wanted) up }
    ensures start_not_lost { Comes (Some wanted) (in_doubt (calls.Start 5) at_rest) methods.GetState
        (calls.GetState 5) }
{}

/// A call whose answer is not known is asked for, before anything else is done.
pub fn doubts_come_first()
    ensures create_vm { Comes (Some wanted) (in_doubt (calls.CreateVm (plain z1 10) []) absent) methods.FindVm
        (calls.FindVm 7) }
    ensures delete_vm { Comes None (in_doubt (calls.DeleteVm 5) at_rest) methods.HasVm (calls.HasVm 5) }
    ensures create_disk { Comes (Some wanted_with_disk) (in_doubt (calls.CreateDisk (disk 10) 5) at_rest)
        methods.FindDisk (calls.FindDisk 7) }
    ensures attach_disk { Comes (Some wanted_with_disk)
        (in_doubt (calls.AttachDisk 5 2) (having (active 2 10 false false ∷ []) at_rest)) methods.GetDisks
        (calls.GetDisks 5) }
    ensures detach_disk { Comes None
        (in_doubt (calls.DetachDisk 5 2) (having (active 2 10 true false ∷ []) at_rest)) methods.GetDisks
        (calls.GetDisks 5) }
    ensures mount_disk { Comes (Some wanted_with_disk)
        (in_doubt (calls.MountDisk 5 2) (having (active 2 10 true false ∷ []) at_rest)) methods.ListDisk
        (calls.ListDisk 5) }
    ensures unmount_disk { Comes None (in_doubt (calls.UnmountDisk 5 2) (having (kept ∷ []) at_rest))
        methods.ListDisk (calls.ListDisk 5) }
    ensures apply { Comes (Some wanted) (in_doubt (calls.Apply 5 with_j) at_rest) methods.GetState (calls.GetState 5) }
    ensures start { Comes (Some wanted) (in_doubt (calls.Start 5) at_rest) methods.GetState (calls.GetState 5) }
    ensures stop { Comes None (in_doubt (calls.Stop 5) (drained up)) methods.GetState (calls.GetState 5) }
    ensures drain { Comes None (in_doubt (calls.Drain 5) up) methods.GetState (calls.GetState 5) }
    ensures unwanted_by_now { Comes None (in_doubt (calls.CreateVm (plain z1 10) []) absent) methods.FindVm
        (calls.FindVm 7) }
    ensures applied_otherwise { Comes (Some wanted) (in_doubt (calls.Apply 5 no_jobs) up) methods.GetState
        (calls.GetState 5) }
    ensures start_answered { Comes (Some wanted) at_rest methods.Start (calls.Start 5) }
    ensures drain_answered { Comes None up methods.Drain (calls.Drain 5) }
    ensures stop_answered { Comes None (drained up) methods.Stop (calls.Stop 5) }
    ensures create_vm_answered { Comes (Some wanted) absent methods.CreateVm (calls.CreateVm (plain z1 10) []) }
{}
