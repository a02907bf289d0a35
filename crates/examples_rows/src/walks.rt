ghost use Rattle.std.specs.Prelude.{◌∷◌, [], Some, None, true, false};
ghost use Rattle.bosh_base.specs.declared.answer.Answer.TheVariants as answers;
ghost use Rattle.bosh_base.specs.declared.call.Call.TheVariants as calls;
ghost use Rattle.bosh_base.specs.declared.state.State.TheVariants.{Detached, Stopped};
ghost use Rattle.examples_histories.specs.Values.{big, disk, plain, web, with_j, z1};
ghost use Rattle.examples_rows.specs.Rows.{absent, active, at_rest, fresh, having, in_doubt, kept, lost, new};
ghost use Rattle.examples_rows.specs.Rows.{of_make, up, up_with_disk, wanted, wanted_as, with_disk};
ghost use Rattle.examples_rows.specs.Rows.{wanted_with_disk};
ghost use Rattle.examples_rows.specs.Walks.{Arrives, Walks, done, made};
ghost use Rattle.bosh_rows.specs.After.{bare};

/// The calls that bring an instance to where it is wanted.
pub fn instances_arrive()
    ensures from_nothing { Arrives wanted 1
        (made (calls.CreateVm (plain z1 10) []) (answers.Cid 1)
        ∷ done (calls.Apply 1 with_j)
        ∷ done (calls.Start 1)
        ∷ []) (bare (web 0)) }
    ensures from_nothing_with_disk { Arrives wanted_with_disk 1
        (made (calls.CreateVm (plain z1 10) []) (answers.Cid 1)
        ∷ made (calls.CreateDisk (disk 10) 1) (answers.Cid 1)
        ∷ done (calls.AttachDisk 1 1)
        ∷ done (calls.MountDisk 1 1)
        ∷ done (calls.Apply 1 with_j)
        ∷ done (calls.Start 1)
        ∷ []) (bare (web 0)) }
    ensures larger_disk { Arrives (with_disk 20 wanted) 7
        (done (calls.Drain 5)
        ∷ done (calls.Stop 5)
        ∷ made (calls.CreateDisk (disk 20) 5) (answers.Cid 3)
        ∷ done (calls.AttachDisk 5 3)
        ∷ done (calls.MountDisk 5 3)
        ∷ done (calls.MigrateDisk 5 2 3)
        ∷ done (calls.UnmountDisk 5 2)
        ∷ done (calls.DetachDisk 5 2)
        ∷ done (calls.Start 5)
        ∷ []) up_with_disk }
    ensures another_disk_before_the_migration { Arrives (with_disk 30 wanted) 13
        (done (calls.UnmountDisk 5 3)
        ∷ done (calls.DetachDisk 5 3)
        ∷ made (calls.CreateDisk (disk 30) 5) (answers.Cid 4)
        ∷ done (calls.AttachDisk 5 4)
        ∷ done (calls.MountDisk 5 4)
        ∷ done (calls.MigrateDisk 5 2 4)
        ∷ done (calls.UnmountDisk 5 2)
        ∷ done (calls.DetachDisk 5 2)
        ∷ done (calls.Start 5)
        ∷ []) (having (kept ∷ new 3 20 true true ∷ []) at_rest) }
    ensures without_disk { Arrives wanted 7
        (done (calls.Drain 5)
        ∷ done (calls.Stop 5)
        ∷ done (calls.UnmountDisk 5 2)
        ∷ done (calls.DetachDisk 5 2)
        ∷ done (calls.Start 5)
        ∷ []) up_with_disk }
    ensures made_anew { Arrives (fresh 6) 7
        (done (calls.Drain 5)
        ∷ done (calls.Stop 5)
        ∷ done (calls.DeleteVm 5)
        ∷ made (calls.CreateVm (plain z1 10) []) (answers.Cid 6)
        ∷ done (calls.Apply 6 with_j)
        ∷ done (calls.Start 6)
        ∷ []) up }
    ensures found_of_other_make { Arrives wanted 8
        (made (calls.FindVm 7) (answers.Found (Some 6))
        ∷ done (calls.DeleteVm 6)
        ∷ made (calls.CreateVm (plain z1 10) []) (answers.Cid 7)
        ∷ done (calls.Apply 7 with_j)
        ∷ done (calls.Start 7)
        ∷ []) (of_make (Some (big z1 10)) (in_doubt (calls.CreateVm (big z1 10) []) absent)) }
    ensures not_found { Arrives wanted 8
        (made (calls.FindVm 7) (answers.Found None)
        ∷ made (calls.CreateVm (plain z1 10) []) (answers.Cid 6)
        ∷ done (calls.Apply 6 with_j)
        ∷ done (calls.Start 6)
        ∷ []) (in_doubt (calls.CreateVm (plain z1 10) []) absent) }
    ensures put_away { Arrives (with_disk 10 (wanted_as Detached)) 7
        (done (calls.Drain 5)
        ∷ done (calls.Stop 5)
        ∷ done (calls.UnmountDisk 5 2)
        ∷ done (calls.DetachDisk 5 2)
        ∷ done (calls.DeleteVm 5)
        ∷ []) up_with_disk }
    ensures taken_out { Arrives wanted_with_disk 12
        (made (calls.CreateVm (plain z1 10) (2 ∷ [])) (answers.Cid 6)
        ∷ done (calls.AttachDisk 6 2)
        ∷ done (calls.MountDisk 6 2)
        ∷ done (calls.Apply 6 with_j)
        ∷ done (calls.Start 6)
        ∷ []) (having (active 2 10 false false ∷ []) absent) }
    ensures stopped { Arrives (wanted_as Stopped) 7 (done (calls.Drain 5) ∷ done (calls.Stop 5) ∷ []) up }
    ensures lost { Arrives wanted 7
        (made (calls.DeleteVm 5) answers.Gone
        ∷ made (calls.CreateVm (plain z1 10) []) (answers.Cid 6)
        ∷ done (calls.Apply 6 with_j)
        ∷ done (calls.Start 6)
        ∷ []) (lost up) }
    ensures lost_with_deletion_in_doubt { Arrives (fresh 6) 8
        (made (calls.HasVm 5) answers.Yes
        ∷ done (calls.DeleteVm 5)
        ∷ made (calls.CreateVm (plain z1 10) []) (answers.Cid 6)
        ∷ done (calls.Apply 6 with_j)
        ∷ done (calls.Start 6)
        ∷ []) (in_doubt (calls.DeleteVm 5) (lost at_rest)) }
    ensures lost_with_disk_in_doubt { Arrives wanted_with_disk 8
        (made (calls.FindDisk 7) (answers.Found (Some 4))
        ∷ done (calls.DeleteVm 5)
        ∷ made (calls.CreateVm (plain z1 10) (4 ∷ [])) (answers.Cid 6)
        ∷ done (calls.AttachDisk 6 4)
        ∷ done (calls.MountDisk 6 4)
        ∷ done (calls.Apply 6 with_j)
        ∷ done (calls.Start 6)
        ∷ []) (in_doubt (calls.CreateDisk (disk 10) 5) (lost at_rest)) }
    ensures start_in_doubt { Arrives wanted 8
        (made (calls.GetState 5) (answers.Facts (Some with_j) true false) ∷ []) (in_doubt (calls.Start 5) at_rest) }
{}

/// The calls that leave nothing of an instance but its disks.
pub fn instances_leave()
    ensures with_disk { Walks None 7
        (done (calls.Drain 5)
        ∷ done (calls.Stop 5)
        ∷ done (calls.UnmountDisk 5 2)
        ∷ done (calls.DetachDisk 5 2)
        ∷ done (calls.DeleteVm 5)
        ∷ []) up_with_disk }
    ensures lost { Walks None 7 (made (calls.DeleteVm 5) answers.Gone ∷ []) (lost up_with_disk) }
    ensures never_made { Walks None 8
        (made (calls.FindVm 7) (answers.Found None) ∷ []) (in_doubt (calls.CreateVm (plain z1 10) []) absent) }
    ensures nothing { Walks None 1 [] (bare (web 0)) }
{}
