ghost use Rattle.std.specs.Prelude.{◌∷◌, [], Some, None, true, false, codes, decimal};
ghost use Rattle.bosh_base.specs.declared.method.Method.TheVariants as methods;
ghost use Rattle.bosh_base.specs.declared.owner.Owner.TheVariants.{Instance};
ghost use Rattle.bosh_base.specs.declared.problem.Problem.TheVariants.{MissingVm};
ghost use Rattle.bosh_base.specs.declared.reply.Reply.TheVariants as replies;
ghost use Rattle.bosh_base.specs.declared.reply.Shown.TheVariants as shown;
ghost use Rattle.bosh_base.specs.declared.task.TaskEnd.TheVariants as ends;
ghost use Rattle.bosh_base.specs.declared.task.TaskKind.TheVariants as kinds;
ghost use Rattle.bosh_lines.specs.declared.command.Command.TheVariants as commands;
ghost use Rattle.examples_histories.specs.Failed.{failed};
ghost use Rattle.examples_histories.specs.Lost.{lost};
ghost use Rattle.examples_histories.specs.Orphan.{orphan};
ghost use Rattle.examples_histories.specs.Scenes.{prepared, with_release};
ghost use Rattle.examples_histories.specs.Stopped.{stopped};
ghost use Rattle.examples_histories.specs.Two.{two};
ghost use Rattle.examples_histories.specs.Values.{web, z1, z2};
ghost use Rattle.examples_replies.specs.Replies.{line, machine, machines, naming, orphan_of, stopped_reply, task_of};
ghost use Rattle.examples_replies.specs.Scenes.{NeverTells, Tells};

/// The instances of a deployment, each as it stands.
pub fn instances_are_listed()
    ensures both { Tells prepared 25 two (commands.Instances (codes "dep")) (replies.Instances
        (line 0 shown.Running z1 10 (Some 1) None ∷ line 1 shown.Running z2 11 (Some 2) None ∷ [])) }
    ensures in_doubt { Tells prepared 25 failed (commands.Instances (codes "dep")) (replies.Instances
        (line 0 shown.Running z1 10 (Some 1) None ∷ line 1 shown.Doubt z2 11 (Some 2) None ∷ [])) }
    ensures none { Tells prepared 25 two (commands.Instances (codes "other")) (replies.Instances []) }
    ensures not_one { NeverTells prepared 25 two (commands.Instances (codes "dep")) (replies.Instances
        (line 0 shown.Running z1 10 (Some 1) None ∷ [])) }
    ensures not_stopped { NeverTells prepared 25 two (commands.Instances (codes "dep")) (replies.Instances
        (line 0 shown.Running z1 10 (Some 1) None ∷ line 1 shown.Stopped z2 11 (Some 2) None ∷ [])) }
    ensures halted { Tells prepared 6 stopped (commands.Instances (codes "dep")) stopped_reply }
    ensures not_halted { NeverTells prepared 25 two (commands.Instances (codes "dep")) stopped_reply }
{}

/// Tasks, releases, compiled packages and orphaned disks.
pub fn records_are_listed()
    ensures tasks { Tells prepared 27 failed commands.Tasks (replies.Tasks
        (task_of 1 kinds.Deploy (Some (codes "dep")) (Some (ends.Fault 6 methods.Start (Instance (web 1))))
        ∷ task_of 2 kinds.Deploy (Some (codes "dep")) None ∷ [])) }
    ensures not_done { NeverTells prepared 27 failed commands.Tasks (replies.Tasks
        (task_of 1 kinds.Deploy (Some (codes "dep")) (Some ends.Finished)
        ∷ task_of 2 kinds.Deploy (Some (codes "dep")) None ∷ [])) }
    ensures no_task { Tells prepared 25 two (commands.Task 2)
        (naming (codes "session") (codes "NoTask") (decimal 2)) }
    ensures a_task { NeverTells prepared 25 two (commands.Task 1)
        (naming (codes "session") (codes "NoTask") (decimal 1)) }
    ensures releases { Tells with_release 1 two commands.Releases (replies.Releases
        (record { name = codes "r"; version = codes "1"; jobs = []; packages = [] } ∷ [])) }
    ensures not_none { NeverTells with_release 1 two commands.Releases (replies.Releases []) }
    ensures compiled { Tells prepared 25 two commands.Compiled (replies.Compiled []) }
    ensures orphans { Tells prepared 43 orphan commands.OrphanedDisks
        (replies.Orphans (orphan_of 1 10 false ∷ [])) }
    ensures in_doubt { Tells prepared 50 orphan commands.OrphanedDisks
        (replies.Orphans (orphan_of 1 10 true ∷ [])) }
    ensures not_settled { NeverTells prepared 50 orphan commands.OrphanedDisks
        (replies.Orphans (orphan_of 1 10 false ∷ [])) }
{}

/// What is there in the cloud, and where the records differ from it.
pub fn the_cloud_is_listed()
    ensures both { Tells prepared 25 two commands.Cloud
        (machines (machine 1 (web 0) z1 10 true ∷ machine 2 (web 1) z2 11 true ∷ [])) }
    ensures lost { Tells prepared 26 lost commands.Cloud (machines (machine 2 (web 1) z2 11 true ∷ [])) }
    ensures not_lost { NeverTells prepared 26 lost commands.Cloud (machines
        (machine 1 (web 0) z1 10 true ∷ machine 2 (web 1) z2 11 true ∷ [])) }
    ensures agrees { Tells prepared 25 two (commands.CloudCheck (codes "dep")) (replies.Problems []) }
    ensures missing { Tells prepared 26 lost (commands.CloudCheck (codes "dep"))
        (replies.Problems (MissingVm (web 0) 1 ∷ [])) }
    ensures not_missed { NeverTells prepared 26 lost (commands.CloudCheck (codes "dep")) (replies.Problems []) }
    ensures no_deployment { Tells prepared 25 two (commands.CloudCheck (codes "other"))
        (naming (codes "book") (codes "NoDeployment") (codes "other")) }
{}
