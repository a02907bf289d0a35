ghost use Rattle.std.specs.Prelude.{[], ◌∷◌, codes, decimal};
ghost use Rattle.bosh_base.specs.declared.failure.Failure.TheVariants.{Interrupted};
ghost use Rattle.bosh_base.specs.declared.reply.Reply.TheVariants as replies;
ghost use Rattle.bosh_due.specs.UnderWay.UnderWay.{altering, idle, appending, working};
ghost use Rattle.bosh_lines.specs.declared.command.Command.TheVariants as commands;
ghost use Rattle.examples_histories.specs.KeptError.{kept_error};
ghost use Rattle.examples_histories.specs.Orphan.{orphan};
ghost use Rattle.examples_histories.specs.Scenes.{config, prepared, task_error, write};
ghost use Rattle.examples_histories.specs.Stopped.{stopped};
ghost use Rattle.examples_histories.specs.Two.{halt_for_nothing};
ghost use Rattle.examples_histories.specs.Wrote.{wrote};
ghost use Rattle.examples_replies.specs.Replies.{bare, naming, stopped_reply};
ghost use Rattle.examples_replies.specs.Scenes.{Ends, EndsFrom, NeverEnds, NeverEndsFrom};
ghost use Rattle.examples_replies.specs.Unasked.{config_kept, deletion_kept, halts_for_nothing};

/// A restart ends each task that was open, and is told unless the director halted again.
pub fn restarts_are_told()
    ensures restarted { EndsFrom (working (1 ∷ [])) prepared 7 8 stopped commands.Restart replies.Restarted idle }
    ensures task_left_open { NeverEndsFrom (working (1 ∷ [])) prepared 7 7 stopped commands.Restart replies.Restarted }
    ensures nothing_started { NeverEndsFrom (working (1 ∷ [])) prepared 7 6 stopped commands.Restart
        replies.Restarted }
    ensures of_a_clean_up { EndsFrom (working (3 ∷ [])) prepared 48 49 orphan commands.Restart replies.Restarted idle }
    ensures another_task_opened { NeverEndsFrom (working (3 ∷ [])) prepared 48 51 orphan commands.Restart
        replies.Restarted }
    ensures halts_first { Ends prepared 6 8 halt_for_nothing commands.Restart replies.Restarted }
    ensures halted_again { EndsFrom (working (1 ∷ [])) prepared 8 9 kept_error commands.Restart stopped_reply
        (appending (task_error 1 Interrupted)) }
    ensures not_restarted { NeverEndsFrom (working (1 ∷ [])) prepared 8 9 kept_error commands.Restart
        replies.Restarted }
    ensures not_for_the_store { NeverEndsFrom (working (1 ∷ [])) prepared 8 9 kept_error commands.Restart
        (bare (codes "book") (codes "StoreFault")) }
    ensures not_damaged { NeverEndsFrom (working (1 ∷ [])) prepared 8 9 kept_error commands.Restart
        (naming (codes "book") (codes "Damaged") (decimal 0)) }
    ensures kept { EndsFrom (appending (task_error 1 Interrupted)) prepared 11 11 kept_error commands.Restart
        replies.Restarted idle }
{}

/// A restart finds nothing that nobody asked for.
pub fn restarts_find_what_was_asked()
    ensures wrote { EndsFrom (altering (write 1 (codes "hello"))) prepared 24 24 wrote commands.Restart
        replies.Restarted idle }
    ensures wrote_unasked { NeverEndsFrom (working (1 ∷ [])) prepared 24 24 wrote commands.Restart
        replies.Restarted }
    ensures wrote_to_another_disk { NeverEndsFrom (altering (write 2 (codes "hello"))) prepared 24 24 wrote
        commands.Restart replies.Restarted }
    ensures nothing { Ends prepared 26 27 halts_for_nothing commands.Restart replies.Restarted }
    ensures halts_for_nothing { NeverEnds prepared 26 28 halts_for_nothing commands.Restart stopped_reply }
    ensures task_unasked { NeverEnds prepared 26 28 deletion_kept commands.Restart replies.Restarted }
    ensures config_unasked { NeverEnds prepared 26 27 config_kept commands.Restart replies.Restarted }
    ensures config_asked { EndsFrom (appending config) prepared 27 27 config_kept commands.Restart replies.Restarted
        idle }
{}
