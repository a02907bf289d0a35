ghost use Rattle.std.specs.Prelude.{◌∷◌, [], true, false, codes};
ghost use Rattle.bosh_base.specs.declared.call.Call.TheVariants as calls;
ghost use Rattle.examples_histories.specs.Migrated.{migrated};
ghost use Rattle.examples_histories.specs.Scenes.{prepared};
ghost use Rattle.examples_histories.specs.Two.{two};
ghost use Rattle.examples_histories.specs.Values.{disk, inst, plain, web, with_j, z1};
ghost use Rattle.examples_moments.specs.Left.{done, done_for, lost, nothing_more};
ghost use Rattle.examples_moments.specs.Seen.{Agrees, Differs};

/// Rows without a problem.
pub fn rows_agree()
    ensures never_made { Agrees prepared 0 two (web 0) nothing_more }
    ensures made { Agrees prepared 5 two (web 0) nothing_more }
    ensures started { Agrees prepared 24 two (web 0) nothing_more }
    ensures the_other { Agrees prepared 24 two (web 1) nothing_more }
    ensures with_disk { Agrees prepared 22 migrated (web 0) nothing_more }
    ensures beside_one_that_is_lost { Agrees prepared 24 two (web 1) (lost 1 true) }
    ensures beside_the_machine_of_another { Agrees prepared 24 two (web 0)
        (done_for (inst (codes "other") (codes "web") 0) (calls.CreateVm (plain z1 20) [])) }
{}

/// Rows with a problem.
pub fn rows_differ()
    ensures in_doubt { Differs prepared 3 two (web 0) nothing_more }
    ensures lost { Differs prepared 24 two (web 0) (lost 1 true) }
    ensures silent { Differs prepared 24 two (web 0) (lost 1 false) }
    ensures deleted { Differs prepared 24 two (web 0) (done (calls.DeleteVm 1)) }
    ensures second_machine { Differs prepared 24 two (web 0) (done (calls.CreateVm (plain z1 20) [])) }
    ensures machine_of_none { Differs prepared 0 two (web 0) (done (calls.CreateVm (plain z1 20) [])) }
    ensures other_spec { Differs prepared 24 two (web 0) (done (calls.Apply 1 with_j)) }
    ensures stopped { Differs prepared 24 two (web 0) (done (calls.Stop 1)) }
    ensures drained { Differs prepared 24 two (web 0) (done (calls.Drain 1)) }
    ensures unmounted { Differs prepared 22 migrated (web 0) (done (calls.UnmountDisk 1 1)) }
    ensures detached { Differs prepared 22 migrated (web 0) (done (calls.DetachDisk 1 1)) }
    ensures disk_deleted { Differs prepared 22 migrated (web 0) (done (calls.DeleteDisk 1)) }
{}
