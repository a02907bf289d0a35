ghost use Rattle.std.specs.Prelude.{false, true};
ghost use Rattle.examples_histories.specs.Migrated.{migrated};
ghost use Rattle.examples_histories.specs.Scenes.{prepared};
ghost use Rattle.examples_histories.specs.Verdicts.{IsExactAt, IsPermittedFrom};
ghost use Rattle.examples_moments.specs.Loose.{IsExactRecreateAt, deleted, detached, unwanted};

/// An active disk that its row wants no more is not accounted for before it is orphaned.
pub fn unwanted_disks_are_not_exact()
    ensures right { IsPermittedFrom prepared unwanted }
    ensures before_the_update_is_done { IsExactAt prepared 40 2 unwanted false }
    ensures once_it_is_done { IsExactAt prepared 42 2 unwanted true }
{}

/// A recreate leaves no old or new disk of its instance.
pub fn loose_disks_are_not_exact()
    ensures before_the_update_is_done { IsExactRecreateAt prepared 78 3 migrated false }
    ensures once_it_is_done { IsExactRecreateAt prepared 80 3 migrated true }
{}

/// A deployment that is deleted is exact once its machine is gone and its disk is orphaned.
pub fn deletions_are_exact()
    ensures right { IsPermittedFrom prepared deleted }
    ensures with_its_machine { IsExactAt prepared 36 2 deleted false }
    ensures with_its_disk { IsExactAt prepared 39 2 deleted false }
    ensures done { IsExactAt prepared 41 2 deleted true }
{}

/// An instance that is to be detached keeps its disk.
pub fn detached_instances_are_exact()
    ensures right { IsPermittedFrom prepared detached }
    ensures with_its_machine { IsExactAt prepared 37 2 detached false }
    ensures done { IsExactAt prepared 42 2 detached true }
{}
