ghost use Rattle.std.specs.Prelude.{[], codes};
ghost use Rattle.bosh_base.specs.declared.reply.Reply.TheVariants as replies;
ghost use Rattle.bosh_due.specs.UnderWay.UnderWay.{altering, idle};
ghost use Rattle.bosh_fates.specs.declared.fate.Fate.TheVariants.{Lose};
ghost use Rattle.bosh_report.specs.Owner.{inst_text};
ghost use Rattle.bosh_lines.specs.declared.command.Command.TheVariants as commands;
ghost use Rattle.bosh_lines.specs.declared.word.Lost.TheVariants as losses;
ghost use Rattle.examples_histories.specs.Lost.{lost};
ghost use Rattle.examples_histories.specs.Migrated.{migrated};
ghost use Rattle.examples_histories.specs.Scenes.{prepared, write};
ghost use Rattle.examples_histories.specs.Stopped.{stopped};
ghost use Rattle.examples_histories.specs.Two.{two};
ghost use Rattle.examples_histories.specs.Values.{web};
ghost use Rattle.examples_histories.specs.Wrote.{wrote};
ghost use Rattle.examples_replies.specs.Replies.{bare, naming, stopped_reply};
ghost use Rattle.examples_replies.specs.Scenes.{Ends, EndsFrom, NeverEnds, NeverTells, Tells};

/// A job writes to its disk, and what that holds is read.
pub fn disks_are_written_and_read()
    ensures written { Ends prepared 24 24 migrated (commands.Write (web 0) (codes "hello")) replies.Written }
    ensures other_text { NeverEnds prepared 24 24 migrated (commands.Write (web 0) (codes "world"))
        replies.Written }
    ensures other_instance { NeverEnds prepared 24 24 migrated (commands.Write (web 1) (codes "hello"))
        replies.Written }
    ensures not_written { NeverTells prepared 23 migrated (commands.Write (web 0) (codes "hello")) replies.Written }
    ensures failed { EndsFrom idle prepared 23 23 wrote (commands.Write (web 0) (codes "hello"))
        (bare (codes "world") (codes "CloudStore")) (altering (write 1 (codes "hello"))) }
    ensures not_so { NeverEnds prepared 23 23 wrote (commands.Write (web 0) (codes "hello")) replies.Written }
    ensures no_disk { Tells prepared 25 two (commands.Write (web 0) (codes "hello"))
        (naming (codes "world") (codes "NotRunning") (inst_text (web 0))) }
    ensures read { Tells prepared 24 migrated (commands.Read (web 0)) (replies.Contents (codes "hello")) }
    ensures read_before { Tells prepared 23 migrated (commands.Read (web 0)) (replies.Contents []) }
    ensures read_wrongly { NeverTells prepared 24 migrated (commands.Read (web 0))
        (replies.Contents (codes "world")) }
    ensures not_read { Tells prepared 0 two (commands.Read (web 0))
        (naming (codes "world") (codes "NotRunning") (inst_text (web 0))) }
{}

/// Machines are lost, files are shown, and faults are set.
pub fn machines_are_lost_and_shown()
    ensures lost { Ends prepared 26 26 lost (commands.Lose (web 0) losses.Vm) replies.Lost }
    ensures agent_alone { NeverEnds prepared 26 26 lost (commands.Lose (web 0) losses.Agent) replies.Lost }
    ensures other_machine { NeverEnds prepared 26 26 lost (commands.Lose (web 1) losses.Vm) replies.Lost }
    ensures no_machine { Tells prepared 26 lost (commands.Lose (web 0) losses.Vm)
        (naming (codes "world") (codes "NoMachine") (inst_text (web 0))) }
    ensures no_file { Tells prepared 25 two (commands.Show (web 0) (codes "w.conf"))
        (naming (codes "session") (codes "NoFile") (codes "w.conf")) }
    ensures not_a_file { NeverTells prepared 25 two (commands.Show (web 0) (codes "w.conf")) (replies.Contents []) }
    ensures set { Tells prepared 25 two (commands.FailStore Lose 1) replies.Nothing }
    ensures set_while_halted { Tells prepared 6 stopped (commands.FailStore Lose 1) replies.Nothing }
    ensures kept { Tells prepared 6 stopped (commands.File (codes "m.yml")) replies.Nothing }
    ensures not_shown_while_halted { Tells prepared 6 stopped (commands.Show (web 0) (codes "w.conf"))
        stopped_reply }
{}
