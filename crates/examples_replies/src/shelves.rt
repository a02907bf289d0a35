ghost use Rattle.std.specs.Prelude.{[], ◌∷◌, codes};
ghost use Rattle.bosh_due.specs.UnderWay.UnderWay.{idle};
ghost use Rattle.examples_replies.specs.Shelves.{AreToldToFail, MayFail, ReadsAs, folder_file};

/// Where a shelf does not tell what it has, the files that blocks keep are read nevertheless, behind those of the shelf,
/// each of which it lists once.
pub fn kept_files_are_read()
    ensures alone { ReadsAs (folder_file (codes "a") (codes "1") ∷ []) }
    ensures behind { ReadsAs (folder_file (codes "b") (codes "2") ∷ folder_file (codes "a") (codes "1") ∷ []) }
    ensures twice { ReadsAs (folder_file (codes "b") (codes "2") ∷ folder_file (codes "b") (codes "2")
        ∷ folder_file (codes "a") (codes "1") ∷ []) → ⊥ }
    ensures left_out { ReadsAs (folder_file (codes "b") (codes "2") ∷ []) → ⊥ }
    ensures from_the_shelf { ReadsAs (folder_file (codes "a") (codes "2") ∷ []) → ⊥ }
{}

/// The shelf is told to fail as often as it does, at most.
pub fn failures_are_counted()
    ensures once { MayFail 1 }
    ensures never { MayFail 0 → ⊥ }
    ensures twice { AreToldToFail 2 idle }
    ensures too_often { AreToldToFail 1 idle → ⊥ }
{}
