ghost use Rattle.std.specs.Prelude.{◌∷◌, [], Some, None, true, false};
ghost use Rattle.bosh_base.specs.declared.call.Call.TheVariants as calls;
ghost use Rattle.bosh_base.specs.declared.method.Method.TheVariants as methods;
ghost use Rattle.bosh_base.specs.declared.state.State.TheVariants.{Detached, Stopped};
ghost use Rattle.examples_histories.specs.Values.{big, plain, z1, z2};
ghost use Rattle.examples_rows.specs.Rows.{absent, active, at_rest, drained, fresh, having, kept, made, new};
ghost use Rattle.examples_rows.specs.Rows.{of_make, old, of_version, up, up_with_disk, wanted, wanted_as};
ghost use Rattle.examples_rows.specs.Rows.{with_disk};
ghost use Rattle.examples_rows.specs.Says.{Comes, ComesOn, Rests};

/// A machine that nobody wants is drained and stopped, loses its disks, and is deleted.
pub fn machines_are_removed()
    ensures unwanted { Comes None up methods.Drain (calls.Drain 5) }
    ensures detached { Comes (Some (wanted_as Detached)) up methods.Drain (calls.Drain 5) }
    ensures drained_already { Comes None (drained up) methods.Stop (calls.Stop 5) }
    ensures mounted { ComesOn None (having (kept ∷ []) at_rest) methods.UnmountDisk 2 (calls.UnmountDisk 5 2) }
    ensures running_with_disk { Comes None up_with_disk methods.Drain (calls.Drain 5) }
    ensures least_mounted { ComesOn None
        (having (new 4 20 true true ∷ active 3 10 true true ∷ old 2 5 true false ∷ []) at_rest) methods.UnmountDisk
        3 (calls.UnmountDisk 5 3) }
    ensures attached { ComesOn None (having (active 2 10 true false ∷ []) at_rest) methods.DetachDisk 2
        (calls.DetachDisk 5 2) }
    ensures least_attached { ComesOn None
        (having (new 4 20 true false ∷ active 3 10 true false ∷ old 2 5 false false ∷ []) at_rest)
        methods.DetachDisk 3 (calls.DetachDisk 5 3) }
    ensures without_disks { Comes None at_rest methods.DeleteVm (calls.DeleteVm 5) }
    ensures disk_let_go { Comes None (having (active 2 10 false false ∷ []) at_rest) methods.DeleteVm
        (calls.DeleteVm 5) }
    ensures detached_at_rest { Comes (Some (wanted_as Detached)) at_rest methods.DeleteVm (calls.DeleteVm 5) }
    ensures drained_at_rest { Comes None (drained at_rest) methods.DeleteVm (calls.DeleteVm 5) }
    ensures other_vm_type { Comes (Some (made (big z1 10))) at_rest methods.DeleteVm (calls.DeleteVm 5) }
    ensures other_address { Comes (Some (made (plain z1 11))) at_rest methods.DeleteVm (calls.DeleteVm 5) }
    ensures other_zone { Comes (Some (made (plain z2 10))) at_rest methods.DeleteVm (calls.DeleteVm 5) }
    ensures other_version { Comes (Some (made (of_version (plain z1 10)))) at_rest methods.DeleteVm
        (calls.DeleteVm 5) }
    ensures make_unknown { Comes (Some wanted) (of_make None at_rest) methods.DeleteVm (calls.DeleteVm 5) }
    ensures too_old { Comes (Some (fresh 3)) at_rest methods.DeleteVm (calls.DeleteVm 5) }
    ensures much_too_old { Comes (Some (fresh 9)) up methods.Drain (calls.Drain 5) }
    ensures fresh_enough { Comes (Some (fresh 2)) at_rest methods.Start (calls.Start 5) }
    ensures same_make { Comes (Some (made (plain z1 10))) at_rest methods.Start (calls.Start 5) }
    ensures wanted_stopped { Rests (Some (wanted_as Stopped)) at_rest }
    ensures no_machine { Rests None absent }
    ensures no_machine_but_disk { Rests None (having (active 2 10 false false ∷ []) absent) }
{}

/// A machine that is missing is created, with the active disk as a hint.
pub fn machines_are_created()
    ensures missing { Comes (Some wanted) absent methods.CreateVm (calls.CreateVm (plain z1 10) []) }
    ensures as_wanted_now { Comes (Some (made (big z2 11))) absent methods.CreateVm (calls.CreateVm (big z2 11) []) }
    ensures stopped { Comes (Some (wanted_as Stopped)) absent methods.CreateVm (calls.CreateVm (plain z1 10) []) }
    ensures with_active_disk { Comes (Some (with_disk 20 wanted))
        (having (old 2 5 false false ∷ active 3 10 false false ∷ new 4 20 false false ∷ []) absent) methods.CreateVm
        (calls.CreateVm (plain z1 10) (3 ∷ [])) }
    ensures with_disk_unwanted { Comes (Some wanted) (having (active 2 10 false false ∷ []) absent) methods.CreateVm
        (calls.CreateVm (plain z1 10) (2 ∷ [])) }
    ensures wanted_fresh { Comes (Some (fresh 9)) absent methods.CreateVm (calls.CreateVm (plain z1 10) []) }
    ensures detached { Rests (Some (wanted_as Detached)) absent }
    ensures detached_with_other_disk { Rests (Some (with_disk 20 (wanted_as Detached)))
        (having (active 2 10 false false ∷ []) absent) }
    ensures unwanted { Rests None absent }
    ensures there { Comes (Some wanted) at_rest methods.Start (calls.Start 5) }
{}
