ghost use Rattle.std.specs.Prelude.{◌≡◌, ◌∷◌, [], Some, None, codes, false, true};
ghost use Rattle.bosh_base.specs.declared.moves.Cause.TheVariants as causes;
ghost use Rattle.bosh_base.specs.declared.reply.Reply.TheVariants as replies;
ghost use Rattle.bosh_due.specs.Outcomes.{full_reply};
ghost use Rattle.bosh_due.specs.UnderWay.{FindsAsked};
ghost use Rattle.bosh_due.specs.UnderWay.UnderWay.{altering, idle, appending, working};
ghost use Rattle.bosh_line_words.specs.declared.fault.LineFault.TheVariants as lines;
ghost use Rattle.bosh_lines.specs.declared.command.Command.TheVariants as commands;
ghost use Rattle.examples_histories.specs.Scenes.{Builder, config, prepared, upd_begin, write};
ghost use Rattle.examples_histories.specs.Together.{together};
ghost use Rattle.examples_histories.specs.Values.{web};
ghost use Rattle.examples_replies.specs.Halted.{Stays};
ghost use Rattle.examples_replies.specs.Others.{halts_after, AreToldSo, EndsAfter, IsUnsettled, NeverEndsAfter, NeverTellsAfter, NeverTellsLine, TellsAfter, TellsLine, first_call, found, runs};
ghost use Rattle.examples_replies.specs.Replies.{bare, naming};

/// Tasks that ran together are told as they ended, and then those that have no end.
pub fn tasks_are_told_by_end()
    ensures order { AreToldSo (runs 5 1 ∷ runs 6 2 ∷ []) together (runs 6 2 ∷ runs 5 1 ∷ []) }
    ensures left { AreToldSo (runs 4 9 ∷ runs 5 1 ∷ runs 6 8 ∷ []) together (runs 5 1 ∷ runs 4 9 ∷ runs 6 8 ∷ []) }
{}

/// A director halts in a step of a task that has no end yet, or it goes on.
pub fn halts_come_before_ends()
    ensures before { (built : Builder) → halts_after 23 built ≡ true }
    ensures behind { (built : Builder) → halts_after 24 built ≡ false }
{}

/// A director without room opens no task, and a line that is no command is told first.
pub fn lines_and_room_are_told()
    ensures full { TellsAfter 1000000 prepared commands.CleanUp (bare (codes "book") (codes "Full")) }
    ensures not_full { NeverTellsAfter 999999 prepared commands.CleanUp (bare (codes "book") (codes "Full")) }
    ensures named_first { TellsAfter 1000000 prepared (commands.DeleteDeployment (codes "dep"))
        (naming (codes "book") (codes "NoDeployment") (codes "dep")) }
    ensures no_command { TellsLine prepared lines.UnknownCommand (bare (codes "lines") (codes "UnknownCommand")) }
    ensures no_other { NeverTellsLine prepared lines.UnknownCommand replies.Nothing }
    ensures no_memory { NeverTellsLine prepared lines.Memory (bare (codes "lines") (codes "Memory")) }
{}

/// A director has no more room only once the call that it noted last has ended.
pub fn calls_end_before_room_is_out()
    ensures full { EndsAfter 999997 5 full_reply }
    ensures not_begun { NeverEndsAfter 999997 3 full_reply }
    ensures not_performed { NeverEndsAfter 999997 4 full_reply }
    ensures room { NeverEndsAfter 999994 5 full_reply }
{}

/// A command that reads files, takes others along or stands for others has its own rules, and one that keeps a block or
/// sets a fault prints nothing.
pub fn some_commands_have_their_own_rules()
    ensures config { IsUnsettled (commands.UpdateCloudConfig (codes "c.yml")) }
    ensures others { IsUnsettled (commands.Together 2) }
    ensures made { IsUnsettled (commands.Generate 3) }
    ensures block { TellsAfter 2 prepared (commands.File (codes "c.yml")) replies.Nothing }
    ensures no_config { NeverTellsAfter 2 prepared (commands.File (codes "c.yml")) replies.ConfigUpdated }
{}

/// What was under way as a director halted stays so, until it starts anew.
pub fn what_is_under_way_stays()
    ensures stays { Stays (appending config) }
    ensures goes { Stays idle → ⊥ }
{}

/// A stop finds only what was under way, in the store in which it was lost sight of.
pub fn stops_find_what_was_asked()
    ensures wrote { FindsAsked (altering (write 1 (codes "hello"))) first_call (Some causes.CloudStore)
        (found None [] (Some (write 1 (codes "hello")))) }
    ensures other_text { FindsAsked (altering (write 1 (codes "hello"))) first_call (Some causes.CloudStore)
        (found None [] (Some (write 1 (codes "world")))) → ⊥ }
    ensures other_disk { FindsAsked (altering (write 1 (codes "hello"))) first_call (Some causes.CloudStore)
        (found None [] (Some (write 2 (codes "hello")))) → ⊥ }
    ensures kept { FindsAsked (appending config) first_call (Some causes.Store) (found (Some config) [] None) }
    ensures not_written { FindsAsked (appending config) first_call (Some causes.Store)
        (found None [] (Some (write 1 (codes "hello")))) → ⊥ }
    ensures work { FindsAsked (working (1 ∷ [])) first_call (Some causes.Stop) (found (Some (upd_begin 1 (web 0))) [] None) }
    ensures other_task { FindsAsked (working (1 ∷ [])) first_call (Some causes.Stop)
        (found (Some (upd_begin 2 (web 0))) [] None) → ⊥ }
    ensures not_work { FindsAsked (working (1 ∷ [])) first_call (Some causes.Stop) (found (Some config) [] None) → ⊥ }
    ensures took { FindsAsked (working (1 ∷ [])) first_call (Some causes.CloudStore) (found None (1 ∷ []) None) }
    ensures not_open { FindsAsked (working (1 ∷ [])) first_call (Some causes.CloudStore)
        (found None (2 ∷ []) None) → ⊥ }
    ensures call_of_another { FindsAsked (working (2 ∷ [])) first_call (Some causes.CloudStore)
        (found None (1 ∷ []) None) → ⊥ }
    ensures not_worked { FindsAsked (appending config) first_call (Some causes.Stop) (found None (1 ∷ []) None) → ⊥ }
    ensures not_the_directors { FindsAsked (working (1 ∷ [])) first_call (Some causes.CloudStore)
        (found (Some (upd_begin 1 (web 0))) [] None) → ⊥ }
    ensures not_the_clouds { FindsAsked (working (1 ∷ [])) first_call (Some causes.Store) (found None (1 ∷ []) None) → ⊥ }
    ensures nothing { FindsAsked idle first_call None (found None [] None) }
    ensures unasked { FindsAsked idle first_call None (found (Some config) [] None) → ⊥ }
{}
