ghost use Rattle.bosh_asks.specs.declared.ask.Ask.TheVariants as asks;
ghost use Rattle.bosh_base.specs.declared.reply.Reply.TheVariants as replies;
ghost use Rattle.bosh_base.specs.declared.state.State.TheVariants.{Stopped};
ghost use Rattle.bosh_base.specs.declared.task.TaskKind.TheVariants as kinds;
ghost use Rattle.bosh_goal.specs.declared.change.Change.TheVariants as changes;
ghost use Rattle.examples_histories.specs.Recreate.{recreate, recreate_g1, recreate_g2};
ghost use Rattle.examples_histories.specs.Scenes.{prepared};
ghost use Rattle.examples_histories.specs.Values.{web};
ghost use Rattle.examples_replies.specs.Asked.{BecomesAt, NeverBecomesAt, PlansAt, opens};
ghost use Rattle.examples_replies.specs.Scenes.{Comes, NeverComes};

/// A machine is made anew where its goal says so; with the goal as it was, nothing was asked.
pub fn recreations_are_asked()
    ensures anew { BecomesAt prepared 17 recreate changes.Fresh recreate_g1 recreate_g2 }
    ensures not_as_before { NeverBecomesAt prepared 17 recreate changes.Fresh recreate_g1 recreate_g1 }
    ensures the_same { BecomesAt prepared 17 recreate changes.Same recreate_g1 recreate_g1 }
    ensures stopped { NeverBecomesAt prepared 17 recreate (changes.To Stopped) recreate_g1 recreate_g1 }
    ensures opens { PlansAt prepared 17 recreate (asks.Recreate (web 0)) recreate_g2
        (opens 3 (kinds.Recreate (web 0)) recreate_g2) }
    ensures told { Comes prepared 18 39 recreate (opens 3 (kinds.Recreate (web 0)) recreate_g2)
        (replies.TaskFinished 3) }
    ensures not_told { NeverComes prepared 18 39 recreate (opens 3 (kinds.Recreate (web 0)) recreate_g1)
        (replies.TaskFinished 3) }
    ensures not_another { NeverComes prepared 18 39 recreate (opens 3 (kinds.Start (web 0)) recreate_g2)
        (replies.TaskFinished 3) }
{}
