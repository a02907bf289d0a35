ghost use Rattle.std.specs.Prelude.{[], ◌∷◌, codes, false, true};
ghost use Rattle.bosh_base.specs.declared.entry.Entry.TheVariants as entries;
ghost use Rattle.bosh_base.specs.declared.moves.Cause.TheVariants as causes;
ghost use Rattle.bosh_base.specs.declared.moves.Move.TheVariants.{Halt, Note};
ghost use Rattle.bosh_base.specs.declared.reply.Reply.TheVariants as replies;
ghost use Rattle.bosh_due.specs.Generating.{said_reply};
ghost use Rattle.bosh_due.specs.Turns.{TakesAll};
ghost use Rattle.bosh_due.specs.UnderWay.{UnderWay};
ghost use Rattle.bosh_due.specs.UnderWay.UnderWay.{idle, appending, working};
ghost use Rattle.bosh_lines.specs.declared.command.Command.TheVariants as commands;
ghost use Rattle.examples_histories.specs.Orphan.{orphan};
ghost use Rattle.examples_replies.specs.AtOnce.{clean_up};
ghost use Rattle.examples_replies.specs.CutOff.{FailsBehind, IsCutBehind, IsCutInReading, IsRefusedUnder, MakesUntold, NeverCutBehind, OpensUntold, ended};
ghost use Rattle.examples_replies.specs.CutOff.{clean_up_opened, one_of_two, told_end};
ghost use Rattle.bosh_fates.specs.declared.fate.Fate.TheVariants.{Lose};
ghost use Rattle.examples_replies.specs.Kept.{at_a_halt, going_on};
ghost use Rattle.examples_replies.specs.Replies.{stopped_reply};
ghost use Rattle.examples_replies.specs.Stemcells.{jammy};

/// A command that is carried out at once with others opens its task, and does no more.
pub fn openings_are_cut_off()
    ensures none { OpensUntold commands.CleanUp [] idle }
    ensures opened { OpensUntold commands.CleanUp (clean_up_opened ∷ []) idle }
    ensures halted { OpensUntold commands.CleanUp (Halt causes.Store ∷ []) (appending (entries.TaskOpen clean_up)) }
    ensures run { (now : UnderWay) → OpensUntold commands.CleanUp (clean_up_opened ∷ Note (entries.TaskDone 1) ∷ []) now → ⊥ }
    ensures no_task { (now : UnderWay) → OpensUntold (commands.UploadStemcell (jammy (codes "1.2")))
        (Note (entries.Stemcell (jammy (codes "1.2"))) ∷ []) now → ⊥ }
{}

/// A task that is carried out alone ends last, also where that is not told.
pub fn tasks_end_last()
    ensures ended { MakesUntold commands.CleanUp (clean_up_opened ∷ Note (entries.TaskDone 1) ∷ []) idle }
    ensures halted { MakesUntold commands.CleanUp (clean_up_opened ∷ Halt causes.Store ∷ []) (working (1 ∷ [])) }
    ensures behind { (now : UnderWay) →
        MakesUntold commands.CleanUp (clean_up_opened ∷ Note (entries.TaskDone 1) ∷ Halt causes.Store ∷ []) now → ⊥ }
{}

/// As many commands are taken as the line says, unless the input ends.
pub fn all_are_taken()
    ensures at_the_end { TakesAll 2 (one_of_two true) }
    ensures all { TakesAll 1 (one_of_two false) }
    ensures too_few { TakesAll 2 (one_of_two false) → ⊥ }
    ensures not_ended { TakesAll 1 (one_of_two true) → ⊥ }
    ensures too_many { TakesAll 0 (one_of_two true) → ⊥ }
{}

/// What a deployment is made by is told under the number of its line.
pub fn lines_keep_their_number()
    ensures refused { IsRefusedUnder 5 idle }
    ensures other_number { (now : UnderWay) → IsRefusedUnder 6 now → ⊥ }
{}

/// While a line still reads the commands that it takes along, it does nothing but print nothing.
pub fn turns_are_cut_in_reading()
    ensures read { IsCutInReading (said_reply 4 replies.Nothing ∷ []) idle }
    ensures opened { (now : UnderWay) →
        IsCutInReading (said_reply 4 replies.Nothing ∷ clean_up_opened ∷ []) now → ⊥ }
{}

/// The output fails only as the text of a reply is written: not behind one that prints nothing.
pub fn outputs_fail_behind_texts()
    ensures written { FailsBehind at_a_halt commands.Tasks stopped_reply }
    ensures no_lines { FailsBehind going_on commands.Tasks (replies.Tasks []) → ⊥ }
    ensures nothing { FailsBehind going_on (commands.FailStore Lose 1) replies.Nothing → ⊥ }
{}

/// A run is cut off in its work, behind it, or as its ends are told; none is told before it comes.
pub fn runs_are_cut_off()
    ensures at_once { IsCutBehind [] [] }
    ensures untold { IsCutBehind (ended ∷ []) [] }
    ensures told { IsCutBehind (ended ∷ []) (told_end (replies.TaskFinished 1) ∷ []) }
    ensures too_soon { IsCutBehind [] (told_end (replies.TaskFinished 1) ∷ []) → ⊥ }
    ensures call_left_open { NeverCutBehind orphan 45 45 }
    ensures call_left_performed { NeverCutBehind orphan 52 53 }
    ensures other_end { IsCutBehind (ended ∷ []) (told_end (replies.TaskFinished 2) ∷ []) → ⊥ }
{}
