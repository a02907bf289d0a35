ghost use Rattle.std.specs.Prelude.{[], ◌∷◌, codes};
ghost use Rattle.bosh_answers.specs.Ends.{told_halt};
ghost use Rattle.bosh_base.specs.declared.moves.Cause.TheVariants.{CloudStore, Stop, Store};
ghost use Rattle.bosh_base.specs.declared.moves.Move.TheVariants.{Halt};
ghost use Rattle.bosh_base.specs.declared.reply.Reply.TheVariants as replies;
ghost use Rattle.bosh_due.specs.Outcomes.{full_reply};
ghost use Rattle.bosh_due.specs.UnderWay.UnderWay.{idle, working};
ghost use Rattle.examples_replies.specs.CutOff.{clean_up_opened, ended};
ghost use Rattle.examples_replies.specs.Others.{EndsAfter, NeverEndsAfter};
ghost use Rattle.bosh_base.specs.declared.answer.Answer.TheVariants.{Cid};
ghost use Rattle.examples_histories.specs.Scenes.{ending, upd_begin};
ghost use Rattle.examples_histories.specs.Values.{web};
ghost use Rattle.examples_replies.specs.Rooms.{CleansUpAfter, FindsAfter, NeverCleansUpAfter};

/// A task ends where there is room for its end, and is else left.
pub fn tasks_end_where_there_is_room()
    ensures ended { CleansUpAfter 999998 (clean_up_opened ∷ ended ∷ []) (replies.TaskFinished 1) idle }
    ensures no_room { NeverCleansUpAfter 999999 (clean_up_opened ∷ ended ∷ []) (replies.TaskFinished 1) }
    ensures left { CleansUpAfter 999999 (clean_up_opened ∷ []) full_reply idle }
{}

/// An update, and the call behind it, each begin where there is room for that.
pub fn work_begins_where_there_is_room()
    ensures updated { EndsAfter 999998 2 full_reply }
    ensures no_call { NeverEndsAfter 999998 5 full_reply }
    ensures opened { EndsAfter 999999 1 full_reply }
    ensures no_update { NeverEndsAfter 999999 2 full_reply }
{}

/// A director halts in a run as an entry is noted for which there is room, or in a call that is open.
pub fn runs_halt_in_their_work()
    ensures halted { CleansUpAfter 999998 (clean_up_opened ∷ Halt Store ∷ []) (told_halt Store) (working (1 ∷ [])) }
    ensures no_room { NeverCleansUpAfter 999999 (clean_up_opened ∷ Halt Store ∷ []) (told_halt Store) }
    ensures not_stopped { NeverCleansUpAfter 999999 (clean_up_opened ∷ Halt Stop ∷ []) (told_halt Stop) }
    ensures no_call { NeverCleansUpAfter 999998 (clean_up_opened ∷ Halt CloudStore ∷ []) (told_halt CloudStore) }
{}

/// A restart finds no entry of a run for which there was no room.
pub fn restarts_find_what_had_room()
    ensures had_room { FindsAfter 999999 (upd_begin 1 (web 1)) }
    ensures no_room { FindsAfter 1000000 (upd_begin 1 (web 1)) → ⊥ }
    ensures end_of_a_call { FindsAfter 1000000 (ending 1 (Cid 1)) }
{}
