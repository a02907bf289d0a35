ghost use Rattle.std.specs.Prelude.{◌∷◌, [], Some, None, true, false};
ghost use Rattle.bosh_base.specs.declared.call.Call.TheVariants as calls;
ghost use Rattle.bosh_base.specs.declared.method.Method.TheVariants as methods;
ghost use Rattle.bosh_base.specs.declared.state.State.TheVariants.{Stopped};
ghost use Rattle.examples_histories.specs.Values.{no_jobs, with_j};
ghost use Rattle.examples_rows.specs.Rows.{active, at_rest, drained, having, kept, new, old, of_kind, up};
ghost use Rattle.examples_rows.specs.Rows.{up_with_disk, wanted, wanted_as, wanted_with_disk, with_disk};
ghost use Rattle.examples_rows.specs.Rows.{with_spec};
ghost use Rattle.examples_rows.specs.Says.{Comes, ComesOn, Rests};

/// A running machine is drained and stopped before its spec, its state or its disks change.
pub fn jobs_are_paused()
    ensures other_spec { Comes (Some wanted) (with_spec (Some no_jobs) up) methods.Drain (calls.Drain 5) }
    ensures other_spec_drained { Comes (Some wanted) (with_spec (Some no_jobs) (drained up)) methods.Stop
        (calls.Stop 5) }
    ensures no_spec { Comes (Some wanted) (with_spec None up) methods.Drain (calls.Drain 5) }
    ensures stopped { Comes (Some (wanted_as Stopped)) up methods.Drain (calls.Drain 5) }
    ensures stopped_drained { Comes (Some (wanted_as Stopped)) (drained up) methods.Stop (calls.Stop 5) }
    ensures disk_missing { Comes (Some wanted_with_disk) up methods.Drain (calls.Drain 5) }
    ensures disk_of_other_size { Comes (Some (with_disk 20 wanted)) up_with_disk methods.Drain (calls.Drain 5) }
    ensures disk_of_other_kind { Comes (Some (of_kind wanted_with_disk)) up_with_disk methods.Drain (calls.Drain 5) }
    ensures disk_not_mounted { Comes (Some wanted_with_disk) (having (active 2 10 true false ∷ []) up) methods.Drain
        (calls.Drain 5) }
    ensures disk_not_attached { Comes (Some wanted_with_disk) (having (active 2 10 false false ∷ []) up)
        methods.Drain (calls.Drain 5) }
    ensures disk_mounted_unattached { Comes (Some wanted_with_disk) (having (active 2 10 false true ∷ []) up)
        methods.Drain (calls.Drain 5) }
    ensures disk_unwanted { Comes (Some wanted) (having (active 2 10 true false ∷ []) up) methods.Drain
        (calls.Drain 5) }
    ensures old_attached { Comes (Some wanted_with_disk) (having (old 1 5 true false ∷ kept ∷ []) up) methods.Drain
        (calls.Drain 5) }
    ensures new_attached { Comes (Some wanted_with_disk) (having (kept ∷ new 3 10 true false ∷ []) up) methods.Drain
        (calls.Drain 5) }
    ensures old_mounted { Comes (Some wanted_with_disk) (having (old 1 5 false true ∷ kept ∷ []) up) methods.Drain
        (calls.Drain 5) }
    ensures new_mounted_drained { Comes (Some wanted_with_disk)
        (having (kept ∷ new 3 20 false true ∷ []) (drained up)) methods.Stop (calls.Stop 5) }
    ensures in_order { Rests (Some wanted) up }
    ensures drained_in_order { Rests (Some wanted) (drained up) }
    ensures in_order_with_disk { Rests (Some wanted_with_disk) up_with_disk }
    ensures old_let_go { Rests (Some wanted_with_disk) (having (old 1 5 false false ∷ kept ∷ []) up) }
    ensures disk_unwanted_let_go { Rests (Some wanted) (having (active 2 10 false false ∷ []) up) }
    ensures disk_unwanted_mounted_unattached { ComesOn (Some wanted) (having (active 2 10 false true ∷ []) up)
        methods.UnmountDisk 2 (calls.UnmountDisk 5 2) }
    ensures stopped_already { Rests (Some (wanted_as Stopped)) at_rest }
    ensures other_spec_at_rest { Comes (Some wanted) (with_spec (Some no_jobs) at_rest) methods.Apply
        (calls.Apply 5 with_j) }
{}

/// Once its disks are in their places, the wanted spec is applied, and then the machine is started.
pub fn specs_are_applied_and_jobs_started()
    ensures no_spec { Comes (Some wanted) (with_spec None at_rest) methods.Apply (calls.Apply 5 with_j) }
    ensures other_spec { Comes (Some wanted) (with_spec (Some no_jobs) at_rest) methods.Apply (calls.Apply 5 with_j) }
    ensures applied_to_stopped { Comes (Some (wanted_as Stopped)) (with_spec None at_rest) methods.Apply
        (calls.Apply 5 with_j) }
    ensures disk_first { ComesOn (Some wanted_with_disk)
        (having (active 2 10 true false ∷ []) (with_spec None at_rest)) methods.MountDisk 2 (calls.MountDisk 5 2) }
    ensures disk_in_place { Comes (Some wanted_with_disk) (having (kept ∷ []) (with_spec None at_rest))
        methods.Apply (calls.Apply 5 with_j) }
    ensures applied { Comes (Some wanted) at_rest methods.Start (calls.Start 5) }
    ensures drained_before { Comes (Some wanted) (drained at_rest) methods.Start (calls.Start 5) }
    ensures with_disk { Comes (Some wanted_with_disk) (having (kept ∷ []) at_rest) methods.Start (calls.Start 5) }
    ensures stopped { Rests (Some (wanted_as Stopped)) at_rest }
    ensures stopped_with_disk { Rests (Some (with_disk 10 (wanted_as Stopped))) (having (kept ∷ []) at_rest) }
    ensures running { Rests (Some wanted) up }
{}
