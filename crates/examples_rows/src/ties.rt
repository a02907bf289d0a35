ghost use Rattle.std.specs.Prelude.{◌∷◌, ◌++◌, [], Some, None, true, false};
ghost use Rattle.bosh_base.specs.declared.call.Call.TheVariants as calls;
ghost use Rattle.examples_histories.specs.Values.{big, disk, no_jobs, plain, web, with_j, z1};
ghost use Rattle.examples_rows.specs.Effects.{and_lost, and_then, applied, attached, created, done, done_for};
ghost use Rattle.examples_rows.specs.Effects.{mounted, provided, started, started_with_disk};
ghost use Rattle.examples_rows.specs.Effects.{at_rest_on_first, bare_on_first, first_with_disk, its_disk};
ghost use Rattle.examples_rows.specs.Effects.{on_first, with_its_disk, IsNotTied};
ghost use Rattle.examples_rows.specs.Rows.{absent, drained, having, in_doubt_of, lost, of_make, with_spec};
ghost use Rattle.bosh_rows.specs.After.{bare};
ghost use Rattle.bosh_rows.specs.Tied.{IsTiedRow};

/// Rows that say what the cloud has.
pub fn rows_are_tied()
    ensures nothing { IsTiedRow [] (bare (web 0)) }
    ensures machine_made { IsTiedRow created bare_on_first }
    ensures spec_applied { IsTiedRow applied at_rest_on_first }
    ensures machine_started { IsTiedRow started on_first }
    ensures machine_drained { IsTiedRow (and_then 4 (calls.Drain 1) started) (drained on_first) }
    ensures machine_stopped { IsTiedRow (and_then 4 (calls.Stop 1) started) at_rest_on_first }
    ensures machine_deleted { IsTiedRow (and_then 4 (calls.DeleteVm 1) started) absent }
    ensures disk_made { IsTiedRow provided (with_its_disk false false bare_on_first) }
    ensures disk_attached { IsTiedRow attached (with_its_disk true false bare_on_first) }
    ensures disk_mounted { IsTiedRow mounted (with_its_disk true true bare_on_first) }
    ensures with_disk { IsTiedRow started_with_disk first_with_disk }
    ensures disk_kept_without_machine { IsTiedRow (and_then 7 (calls.DeleteVm 1) started_with_disk)
        (with_its_disk false false absent) }
    ensures beside_another { IsTiedRow (started ++ done_for (web 1) 4 (calls.CreateVm (plain z1 11) []) ∷ [])
        on_first }
{}

/// Rows that do not.
pub fn rows_are_not_tied()
    ensures machine_never_made { IsNotTied [] on_first }
    ensures machine_not_recorded { IsNotTied created (bare (web 0)) }
    ensures machine_of_another { IsNotTied (done_for (web 1) 1 (calls.CreateVm (plain z1 10) []) ∷ []) bare_on_first }
    ensures machine_deleted { IsNotTied (and_then 4 (calls.DeleteVm 1) started) on_first }
    ensures second_machine { IsNotTied (and_then 4 (calls.CreateVm (plain z1 10) []) started) on_first }
    ensures other_agent { IsNotTied (done 2 (calls.CreateVm (plain z1 10) []) ∷ []) bare_on_first }
    ensures other_make { IsNotTied created (of_make (Some (big z1 10)) bare_on_first) }
    ensures spec_not_applied { IsNotTied created at_rest_on_first }
    ensures other_spec { IsNotTied started (with_spec (Some no_jobs) on_first) }
    ensures not_running { IsNotTied applied on_first }
    ensures still_running { IsNotTied started at_rest_on_first }
    ensures not_drained { IsNotTied started (drained on_first) }
    ensures still_drained { IsNotTied (and_then 4 (calls.Drain 1) started) on_first }
    ensures disk_never_made { IsNotTied created (with_its_disk false false bare_on_first) }
    ensures disk_deleted { IsNotTied (and_then 3 (calls.DeleteDisk 1) provided)
        (with_its_disk false false bare_on_first) }
    ensures disk_of_other_size { IsNotTied (and_then 2 (calls.CreateDisk (disk 20) 1) created)
        (with_its_disk false false bare_on_first) }
    ensures disk_of_other_tag { IsNotTied (and_then 3 (calls.CreateDisk (disk 10) 1) created)
        (with_its_disk false false bare_on_first) }
    ensures disk_of_another { IsNotTied (created ++ done_for (web 1) 2 (calls.CreateDisk (disk 10) 1) ∷ [])
        (with_its_disk false false bare_on_first) }
    ensures disk_not_attached { IsNotTied provided (with_its_disk true false bare_on_first) }
    ensures disk_still_attached { IsNotTied attached (with_its_disk false false bare_on_first) }
    ensures disk_not_mounted { IsNotTied attached (with_its_disk true true bare_on_first) }
    ensures disk_still_mounted { IsNotTied mounted (with_its_disk true false bare_on_first) }
    ensures disk_attached_unrecorded { IsNotTied attached bare_on_first }
{}

/// A row with a call in doubt says what the cloud has before the call, or after it.
pub fn rows_in_doubt_are_tied()
    ensures create_vm_before { IsTiedRow []
        (in_doubt_of 1 (calls.CreateVm (plain z1 10) []) (of_make (Some (plain z1 10)) absent)) }
    ensures create_vm_after { IsTiedRow created (in_doubt_of 1 (calls.CreateVm (plain z1 10) []) absent) }
    ensures delete_vm_before { IsTiedRow started (in_doubt_of 4 (calls.DeleteVm 1) on_first) }
    ensures delete_vm_after { IsTiedRow (and_then 4 (calls.DeleteVm 1) started)
        (in_doubt_of 4 (calls.DeleteVm 1) on_first) }
    ensures create_disk_before { IsTiedRow created (in_doubt_of 2 (calls.CreateDisk (disk 10) 1) bare_on_first) }
    ensures create_disk_after { IsTiedRow provided (in_doubt_of 2 (calls.CreateDisk (disk 10) 1) bare_on_first) }
    ensures attach_before { IsTiedRow provided
        (in_doubt_of 3 (calls.AttachDisk 1 1) (with_its_disk false false bare_on_first)) }
    ensures attach_after { IsTiedRow attached
        (in_doubt_of 3 (calls.AttachDisk 1 1) (with_its_disk false false bare_on_first)) }
    ensures mount_before { IsTiedRow attached
        (in_doubt_of 4 (calls.MountDisk 1 1) (with_its_disk true false bare_on_first)) }
    ensures mount_after { IsTiedRow mounted
        (in_doubt_of 4 (calls.MountDisk 1 1) (with_its_disk true false bare_on_first)) }
    ensures unmount_before { IsTiedRow mounted
        (in_doubt_of 5 (calls.UnmountDisk 1 1) (with_its_disk true true bare_on_first)) }
    ensures unmount_after { IsTiedRow (and_then 5 (calls.UnmountDisk 1 1) mounted)
        (in_doubt_of 5 (calls.UnmountDisk 1 1) (with_its_disk true true bare_on_first)) }
    ensures detach_before { IsTiedRow attached
        (in_doubt_of 4 (calls.DetachDisk 1 1) (with_its_disk true false bare_on_first)) }
    ensures detach_after { IsTiedRow (and_then 4 (calls.DetachDisk 1 1) attached)
        (in_doubt_of 4 (calls.DetachDisk 1 1) (with_its_disk true false bare_on_first)) }
    ensures apply_before { IsTiedRow created (in_doubt_of 2 (calls.Apply 1 with_j) bare_on_first) }
    ensures apply_after { IsTiedRow applied (in_doubt_of 2 (calls.Apply 1 with_j) bare_on_first) }
    ensures start_before { IsTiedRow applied (in_doubt_of 3 (calls.Start 1) at_rest_on_first) }
    ensures start_after { IsTiedRow started (in_doubt_of 3 (calls.Start 1) at_rest_on_first) }
    ensures drain_before { IsTiedRow started (in_doubt_of 4 (calls.Drain 1) on_first) }
    ensures drain_after { IsTiedRow (and_then 4 (calls.Drain 1) started) (in_doubt_of 4 (calls.Drain 1) on_first) }
    ensures stop_before { IsTiedRow started (in_doubt_of 4 (calls.Stop 1) on_first) }
    ensures stop_after { IsTiedRow (and_then 4 (calls.Stop 1) started) (in_doubt_of 4 (calls.Stop 1) on_first) }
{}

/// .. and nothing else.
pub fn rows_in_doubt_are_not_tied()
    ensures start_of_other_spec { IsNotTied started
        (in_doubt_of 3 (calls.Start 1) (with_spec (Some no_jobs) at_rest_on_first)) }
    ensures start_already_recorded { IsNotTied applied (in_doubt_of 3 (calls.Start 1) on_first) }
    ensures apply_of_other_spec { IsNotTied applied (in_doubt_of 2 (calls.Apply 1 no_jobs) bare_on_first) }
    ensures stop_that_drained { IsNotTied (and_then 4 (calls.Drain 1) started)
        (in_doubt_of 4 (calls.Stop 1) on_first) }
    ensures create_vm_of_other_make { IsNotTied created
        (in_doubt_of 1 (calls.CreateVm (big z1 10) []) (of_make (Some (big z1 10)) absent)) }
    ensures create_vm_of_other_number { IsNotTied created (in_doubt_of 2 (calls.CreateVm (plain z1 10) []) absent) }
    ensures create_vm_twice { IsNotTied (and_then 2 (calls.CreateVm (plain z1 10) []) created)
        (in_doubt_of 2 (calls.CreateVm (plain z1 10) []) absent) }
    ensures create_disk_of_other_size { IsNotTied (and_then 3 (calls.AttachDisk 1 1) provided)
        (in_doubt_of 2 (calls.CreateDisk (disk 20) 1) bare_on_first) }
    ensures attach_that_mounted { IsNotTied mounted
        (in_doubt_of 3 (calls.AttachDisk 1 1) (with_its_disk false false bare_on_first)) }
    ensures detach_that_left { IsNotTied mounted
        (in_doubt_of 4 (calls.DetachDisk 1 1) (with_its_disk true false bare_on_first)) }
    ensures delete_vm_of_two { IsNotTied (and_then 4 (calls.CreateVm (plain z1 10) []) started)
        (in_doubt_of 5 (calls.DeleteVm 1) on_first) }
{}

/// Of a machine that is lost only that it is the only one is known, and which disks there are.
pub fn lost_rows_are_tied()
    ensures still_there { IsTiedRow started (lost on_first) }
    ensures gone { IsTiedRow (and_lost 1 true started) (lost on_first) }
    ensures silent { IsTiedRow (and_lost 1 false started) (lost on_first) }
    ensures unnoticed { IsTiedRow (and_lost 1 true started) on_first }
    ensures unnoticed_silent { IsTiedRow (and_lost 1 false started) on_first }
    ensures other_state { IsTiedRow (and_lost 1 true started) (lost bare_on_first) }
    ensures with_disk { IsTiedRow (and_lost 1 true started_with_disk) (lost first_with_disk) }
    ensures disk_elsewhere { IsTiedRow (and_lost 1 true started_with_disk)
        (lost (with_its_disk false false on_first)) }
    ensures deletion_in_doubt { IsTiedRow (and_then 4 (calls.DeleteVm 1) (and_lost 1 false started))
        (in_doubt_of 4 (calls.DeleteVm 1) (lost on_first)) }
    ensures created_and_lost { IsTiedRow (and_lost 1 true created)
        (in_doubt_of 1 (calls.CreateVm (plain z1 10) []) absent) }
    ensures created_and_silent { IsTiedRow (and_lost 1 false created)
        (in_doubt_of 1 (calls.CreateVm (plain z1 10) []) absent) }
{}

/// .. and that has to be so.
pub fn lost_rows_are_not_tied()
    ensures second_machine { IsNotTied (and_then 4 (calls.CreateVm (plain z1 10) []) (and_lost 1 true started))
        (lost on_first) }
    ensures unnoticed_with_second { IsNotTied
        (and_then 4 (calls.CreateVm (plain z1 10) []) (and_lost 1 true started)) on_first }
    ensures other_number { IsNotTied (and_lost 2 true started) (with_spec None on_first) }
    ensures disk_deleted { IsNotTied (and_then 7 (calls.DeleteDisk 1) (and_lost 1 true started_with_disk))
        (lost first_with_disk) }
    ensures disk_of_other_tag { IsNotTied (and_lost 1 true (and_then 3 (calls.CreateDisk (disk 10) 1) created))
        (lost first_with_disk) }
    ensures disk_of_other_size { IsNotTied (and_lost 1 true (and_then 2 (calls.CreateDisk (disk 20) 1) created))
        (lost first_with_disk) }
    ensures none_recorded { IsNotTied created (lost absent) }
{}
