ghost use Rattle.std.specs.Prelude.{◌∷◌, [], true, codes, decimal};
ghost use Rattle.bosh_base.specs.declared.method.Method.TheVariants as methods;
ghost use Rattle.bosh_base.specs.declared.reply.Reply.TheVariants as replies;
ghost use Rattle.bosh_due.specs.UnderWay.UnderWay.{idle, working};
ghost use Rattle.bosh_lines.specs.declared.command.Command.TheVariants as commands;
ghost use Rattle.bosh_report.specs.Owner.{disk_name, inst_text};
ghost use Rattle.examples_histories.specs.Failed.{failed, failed_g1};
ghost use Rattle.examples_histories.specs.Orphan.{clean_up_of_less, clean_up_of_more, orphan};
ghost use Rattle.examples_histories.specs.Scenes.{prepared};
ghost use Rattle.examples_histories.specs.Stopped.{stopped, stopped_g1};
ghost use Rattle.examples_histories.specs.Two.{goal_of_nobody, two, two_g1};
ghost use Rattle.examples_histories.specs.Values.{web};
ghost use Rattle.examples_replies.specs.Openings.{deploys};
ghost use Rattle.examples_replies.specs.Replies.{bare, failed_at, naming, stopped_reply};
ghost use Rattle.examples_replies.specs.Scenes.{Comes, Ends, EndsFrom, MayMakeTo, NeverComes, NeverEnds, NeverMakes, NeverTells, Tells};

/// A deploy tells the end of the very task that opened.
pub fn deploys_are_told()
    ensures done { Comes prepared 1 24 two (deploys 1 two_g1 (web 0 ∷ web 1 ∷ [])) (replies.TaskFinished 1) }
    ensures other_task { NeverComes prepared 1 24 two (deploys 1 two_g1 (web 0 ∷ web 1 ∷ []))
        (replies.TaskFinished 2) }
    ensures not_done { NeverComes prepared 1 23 two (deploys 1 two_g1 (web 0 ∷ web 1 ∷ []))
        (replies.TaskFinished 1) }
    ensures other_goal { NeverComes prepared 1 13 goal_of_nobody (deploys 1 two_g1 (web 0 ∷ web 1 ∷ []))
        (replies.TaskFinished 1) }
    ensures failed { Comes prepared 2 24 failed (deploys 1 failed_g1 (web 0 ∷ web 1 ∷ []))
        (failed_at 1 6 methods.Start (web 1)) }
    ensures other_call { NeverComes prepared 2 24 failed (deploys 1 failed_g1 (web 0 ∷ web 1 ∷ []))
        (failed_at 1 5 methods.Start (web 1)) }
    ensures not_failed { NeverComes prepared 2 24 failed (deploys 1 failed_g1 (web 0 ∷ web 1 ∷ []))
        (replies.TaskFinished 1) }
    ensures halted { Comes prepared 2 5 stopped (deploys 1 stopped_g1 (web 0 ∷ [])) stopped_reply }
    ensures not_so { NeverComes prepared 2 5 stopped (deploys 1 stopped_g1 (web 0 ∷ []))
        (bare (codes "book") (codes "StoreFault")) }
    ensures not_opened { NeverComes prepared 1 0 two (deploys 1 two_g1 (web 0 ∷ web 1 ∷ []))
        (replies.TaskFinished 1) }
{}

/// Orphaned disks are deleted.
pub fn clean_ups_are_told()
    ensures done { Ends prepared 51 55 orphan commands.CleanUp (replies.TaskFinished 4) }
    ensures other_task { NeverEnds prepared 51 55 orphan commands.CleanUp (replies.TaskFinished 3) }
    ensures halted { EndsFrom idle prepared 44 46 orphan commands.CleanUp stopped_reply (working (3 ∷ [])) }
    ensures not_halted { NeverEnds prepared 44 46 orphan commands.CleanUp (replies.TaskFinished 3) }
    ensures of_less { NeverEnds prepared 44 45 clean_up_of_less commands.CleanUp (replies.TaskFinished 3) }
    ensures of_more { NeverMakes prepared 44 44 clean_up_of_more commands.CleanUp }
    ensures asked { MayMakeTo prepared 44 46 orphan commands.CleanUp (working (3 ∷ [])) }
    ensures cut_off { MayMakeTo prepared 51 54 orphan commands.CleanUp idle }
    ensures call_left_open { NeverMakes prepared 44 45 orphan commands.CleanUp }
    ensures call_left_performed { NeverMakes prepared 51 53 orphan commands.CleanUp }
    ensures of_another_command { NeverMakes prepared 44 46 orphan commands.Tasks }
    ensures of_one_disk { NeverMakes prepared 44 46 orphan (commands.DeleteDisk 1) }
    ensures no_disk { Tells prepared 43 orphan (commands.DeleteDisk 2)
        (naming (codes "book") (codes "NoDisk") (disk_name 2)) }
    ensures owned { Tells prepared 23 orphan (commands.DeleteDisk 1)
        (naming (codes "book") (codes "NotOrphaned") (disk_name 1)) }
    ensures locked { Tells prepared 45 orphan commands.CleanUp
        (naming (codes "book") (codes "Locked") (decimal 3)) }
{}

/// What is named is looked for first, and then the lock.
pub fn tasks_are_refused_in_order()
    ensures no_deployment { Tells prepared 5 two (commands.Recreate (record (web 0) { dep = codes "other" }))
        (naming (codes "book") (codes "NoDeployment") (codes "other")) }
    ensures no_instance { Tells prepared 5 two (commands.Start (web 2))
        (naming (codes "book") (codes "NoInstance") (inst_text (web 2))) }
    ensures not_locked_first { NeverTells prepared 5 two (commands.Start (web 2))
        (naming (codes "book") (codes "Locked") (decimal 1)) }
    ensures locked { Tells prepared 5 two (commands.Stop (web 0) true)
        (naming (codes "book") (codes "Locked") (decimal 1)) }
    ensures locked_deletion { Tells prepared 5 two (commands.DeleteDeployment (codes "dep"))
        (naming (codes "book") (codes "Locked") (decimal 1)) }
    ensures not_locked { NeverTells prepared 25 two (commands.DeleteDeployment (codes "dep"))
        (naming (codes "book") (codes "Locked") (decimal 1)) }
    ensures nothing_wanted { Tells prepared 25 two (commands.Resolve (web 0)) (bare (codes "goal") (codes "NoConfig")) }
    ensures halted { Tells prepared 6 stopped (commands.Recreate (web 5)) stopped_reply }
{}
