ghost use Rattle.std.specs.Prelude.{◌∷◌, [], Some, None, true, false, codes};
ghost use Rattle.bosh_base.specs.declared.call.Call.TheVariants as calls;
ghost use Rattle.examples_histories.specs.Links.{links};
ghost use Rattle.examples_histories.specs.Lost.{lost_after_ping};
ghost use Rattle.examples_histories.specs.Migrated.{migrated};
ghost use Rattle.examples_histories.specs.Orphan.{orphan, clean_up_of_less};
ghost use Rattle.examples_histories.specs.Scenes.{prepared, with_release};
ghost use Rattle.examples_histories.specs.Silent.{silent};
ghost use Rattle.examples_histories.specs.Two.{done_too_early, two};
ghost use Rattle.examples_histories.specs.Values.{big, disk, inst, no_jobs, plain, web, with_j, z1, z2};
ghost use Rattle.examples_moments.specs.Goals.{tie_to};
ghost use Rattle.examples_moments.specs.Left.{IsLeft, IsNotLeft, IsDoneWrongly, done, done_for, lost};
ghost use Rattle.examples_moments.specs.Left.{nothing_more, with_ties};

/// What a deploy leaves, and what else may be there beside it.
pub fn deploys_leave()
    ensures as_it_is { IsLeft prepared 24 two 1 nothing_more }
    ensures with_disk { IsLeft prepared 22 migrated 1 nothing_more }
    ensures with_tie { IsLeft with_release 27 links 2 nothing_more }
    ensures nothing { IsLeft with_release 54 links 4 nothing_more }
    ensures machine_of_another_deployment { IsLeft prepared 24 two 1
        (done_for (inst (codes "other") (codes "web") 0) (calls.CreateVm (plain z1 20) [])) }
    ensures disk_of_another_deployment { IsLeft prepared 22 migrated 1
        (done_for (inst (codes "other") (codes "web") 0) (calls.CreateDisk (disk 10) 1)) }
    ensures drained { IsLeft prepared 24 two 1 (done (calls.Drain 1)) }
    ensures lost { IsLeft prepared 24 two 1 (lost 1 true) }
    ensures silent { IsLeft prepared 24 two 1 (lost 2 false) }
{}

/// What it may not leave.
pub fn deploys_do_not_leave()
    ensures machine_missing { IsNotLeft prepared 13 two 1 nothing_more }
    ensures not_started { IsNotLeft prepared 20 two 1 nothing_more }
    ensures second_machine { IsNotLeft prepared 24 two 1 (done (calls.CreateVm (plain z1 10) [])) }
    ensures machine_of_another_instance { IsNotLeft prepared 24 two 1
        (done_for (web 2) (calls.CreateVm (plain z1 20) [])) }
    ensures other_spec { IsNotLeft prepared 24 two 1 (done (calls.Apply 1 with_j)) }
    ensures not_running { IsNotLeft prepared 24 two 1 (done (calls.Stop 1)) }
    ensures disk_unmounted { IsNotLeft prepared 22 migrated 1 (done (calls.UnmountDisk 1 1)) }
    ensures disk_detached { IsNotLeft prepared 22 migrated 1 (done (calls.DetachDisk 1 1)) }
    ensures disk_deleted { IsNotLeft prepared 22 migrated 1 (done (calls.DeleteDisk 1)) }
    ensures disk_too_many { IsNotLeft prepared 22 migrated 1 (done (calls.CreateDisk (disk 10) 1)) }
    ensures disk_of_none { IsNotLeft prepared 24 two 1 (done (calls.CreateDisk (disk 10) 1)) }
    ensures tie_forgotten { IsNotLeft with_release 27 links 2 (with_ties []) }
    ensures other_tie { IsNotLeft with_release 27 links 2 (with_ties (tie_to (codes "shop") ∷ [])) }
    ensures tie_of_nobody { IsNotLeft prepared 24 two 1 (with_ties (tie_to (codes "shop") ∷ [])) }
    ensures machine_after_deletion { IsNotLeft with_release 54 links 4
        (done_for (inst (codes "shop") (codes "db") 0) (calls.CreateVm (plain z1 10) [])) }
{}

/// A fix asks its machines, and finds what was lost before it asked.
pub fn fixes_leave()
    ensures as_it_is { IsLeft prepared 57 silent 3 nothing_more }
    ensures lost_after_it_asked { IsLeft prepared 54 lost_after_ping 3 nothing_more }
    ensures not_yet { IsNotLeft prepared 40 silent 3 nothing_more }
    ensures other_machine_made { IsNotLeft prepared 57 silent 3 (done_for (web 1) (calls.CreateVm (big z2 11) [])) }
{}

/// Where a task is reported done and has not left what it was to leave.
pub fn reports_of_done()
    ensures none { IsDoneWrongly prepared two None }
    ensures none_with_disks { IsDoneWrongly prepared orphan None }
    ensures none_of_links { IsDoneWrongly with_release links None }
    ensures too_early { IsDoneWrongly prepared done_too_early (Some 21) }
    ensures clean_up_of_less { IsDoneWrongly prepared clean_up_of_less None }
{}
