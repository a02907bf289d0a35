ghost use Rattle.std.specs.Prelude.{[], ◌∷◌, ◌^◌, ◌-◌, false, true, None, Some};
ghost use Rattle.bosh_base.specs.declared.answer.Answer.TheVariants.{Done, Failed};
ghost use Rattle.bosh_base.specs.declared.method.Method.TheVariants.{CreateVm, Start};
ghost use Rattle.bosh_base.specs.declared.moves.Cause.TheVariants.{CloudStore, Stop, Store};
ghost use Rattle.bosh_base.specs.declared.moves.Move.TheVariants.{Halt, Note};
ghost use Rattle.bosh_due.specs.HaltedBy.HaltedBy.{in_append, in_call};
ghost use Rattle.bosh_due.specs.InTurn.{FailAsCounted};
ghost use Rattle.bosh_lines.specs.declared.command.Command.TheVariants as commands;
ghost use Rattle.examples_histories.specs.Scenes.{config, prepared, stop};
ghost use Rattle.bosh_transcript.specs.declared.status.Status.TheVariants as statuses;
ghost use Rattle.examples_replies.specs.Caused.{AreCaused, AreCausedBy, AreUncaused, AreUncausedBy, IsCausedAfter, IsCutOffAs, IsCutOffBehind, IsGivenUp, IsUncausedAfter};
ghost use Rattle.examples_replies.specs.Caused.{MayFindAfter, MayFindIn, NeverFindsAfter, NeverFindsIn, both_at_once, fail_append};
ghost use Rattle.examples_replies.specs.Caused.{fail_call, none_wait, none_wait_after, one_waits, performed, performed_with};
ghost use Rattle.examples_replies.specs.Caused.{stop_append, stop_call};
ghost use Rattle.examples_replies.specs.InCalls.{begun};
ghost use Rattle.examples_replies.specs.OneTurn.{counted, director_failed};
ghost use Rattle.examples_replies.specs.TwoTurns.{halts};

/// The director halts where its store failed, or where a line let it fail or stopped it; no line is the cause of two
/// halts, and of two that name one append the first decides.
pub fn halts_have_causes()
    ensures store_failed { AreCausedBy (director_failed 1) none_wait (Halt Store ∷ []) none_wait }
    ensures store_asked { AreCaused (one_waits fail_append 1) (Halt Store ∷ []) (none_wait_after (in_append (Some false))) }
    ensures store_unasked { AreUncaused none_wait (Halt Store ∷ []) }
    ensures cloud_unasked { AreUncaused (one_waits fail_append 1) (Halt CloudStore ∷ []) }
    ensures stop_asked { AreCaused (one_waits (stop_append 1) 1) (Halt Stop ∷ [])
        (none_wait_after (in_append (Some false))) }
    ensures stop_unasked { AreUncaused none_wait (Halt Stop ∷ []) }
    ensures other_asked { AreUncaused (one_waits fail_append 1) (Halt Stop ∷ []) }
    ensures too_soon { AreUncaused (one_waits (stop_append 2) 2) (Halt Stop ∷ []) }
    ensures no_call { AreUncaused (one_waits (stop_call CreateVm 1) 1) (Halt Stop ∷ []) }
    ensures first_decides { AreCaused both_at_once (Halt Store ∷ []) (none_wait_after (in_append (Some false))) }
    ensures second_does_not { AreUncaused both_at_once (Halt Stop ∷ []) }
    ensures not_failed { AreUncausedBy (director_failed 1) (one_waits (stop_append 1) 1) (Halt Store ∷ []) }
    ensures not_left { AreUncausedBy (director_failed 1) (one_waits fail_append 1)
        (Halt Store ∷ stop (Some config) [] None ∷ []) }
{}

/// A line stops the director at the append that it names, and at none before.
pub fn appends_are_counted()
    ensures noted { AreCaused (one_waits (stop_append 2) 2) (Note config ∷ []) (one_waits (stop_append 2) 1) }
    ensures not_stopped { AreUncaused (one_waits (stop_append 1) 1) (Note config ∷ []) }
    ensures not_failed { AreUncaused (one_waits fail_append 1) (Note config ∷ []) }
{}

/// A call fails, or the director stops in it, exactly where a line names it.
pub fn calls_are_counted()
    ensures failed { IsCausedAfter 21 (one_waits (fail_call Start 1) 1) (performed Failed) none_wait }
    ensures with_effect { IsUncausedAfter 21 (one_waits (fail_call Start 1) 1) (performed_with true Failed) }
    ensures unasked { IsUncausedAfter 21 none_wait (performed Failed) }
    ensures other_method { IsUncausedAfter 21 (one_waits (fail_call CreateVm 1) 1) (performed Failed) }
    ensures too_soon { IsUncausedAfter 21 (one_waits (fail_call Start 2) 2) (performed Failed) }
    ensures not_failed { IsUncausedAfter 21 (one_waits (fail_call Start 1) 1) (performed Done) }
    ensures later { IsCausedAfter 21 (one_waits (fail_call Start 2) 2) (performed Done)
        (one_waits (fail_call Start 2) 1) }
    ensures stopped { IsCausedAfter 21 (one_waits (stop_call Start 1) 1) (Halt Stop)
        (none_wait_after (in_call [] None)) }
    ensures not_stopped { IsUncausedAfter 21 (one_waits (stop_call Start 1) 1) (performed Done) }
{}

/// A stop finds what the line says that halted the director: the entry of an append, or the effect of a call.
pub fn stops_find_what_lines_say()
    ensures lost { MayFindAfter (Some false) (stop None [] None) }
    ensures not_lost { NeverFindsAfter (Some false) (stop (Some config) [] None) }
    ensures kept { MayFindAfter (Some true) (stop (Some config) [] None) }
    ensures not_kept { NeverFindsAfter (Some true) (stop None [] None) }
    ensures failed_beside { MayFindAfter None (stop None [] None) }
    ensures no_call { NeverFindsAfter None (stop None (6 ∷ []) None) }
    ensures not_done { MayFindIn [] None (stop None [] None) }
    ensures not_before { NeverFindsIn [] None (stop None (6 ∷ []) None) }
    ensures done { MayFindIn (6 ∷ []) None (stop None (6 ∷ []) None) }
    ensures not_undone { NeverFindsIn (6 ∷ []) None (stop None [] None) }
    ensures other_call { NeverFindsIn (6 ∷ []) None (stop None (5 ∷ []) None) }
    ensures no_entry { NeverFindsIn [] None (stop (Some config) [] None) }
    ensures not_kept_there { MayFindIn [] (Some 6) (stop None [] None) }
    ensures kept_there { MayFindIn [] (Some 6) (stop None (6 ∷ []) None) }
    ensures not_another { NeverFindsIn [] (Some 6) (stop None (5 ∷ []) None) }
{}

/// For want of memory a session ends, and its store does not fail for it; the director stops for it last of all, in a call
/// that is open or in a restart.
pub fn want_of_memory_stops()
    ensures opened { IsCutOffBehind [] }
    ensures not_stopped { IsCutOffBehind (Halt Stop ∷ []) → ⊥ }
    ensures not_failed { IsCutOffBehind (Halt Store ∷ []) → ⊥ }
    ensures not_at_the_end { IsCutOffAs statuses.Failed [] → ⊥ }
    ensures not_by_the_output { IsCutOffAs statuses.Sink [] → ⊥ }
    ensures not_by_the_input { IsCutOffAs statuses.Source [] → ⊥ }
    ensures in_call { IsGivenUp commands.CleanUp begun (Halt Stop ∷ []) }
    ensures no_call { IsGivenUp commands.CleanUp prepared (Halt Stop ∷ []) → ⊥ }
    ensures in_restart { IsGivenUp commands.Restart prepared (stop None [] None ∷ Halt Stop ∷ []) }
    ensures other_cause { IsGivenUp commands.CleanUp begun (Halt CloudStore ∷ []) → ⊥ }
{}

/// A store failed as often as its count rose, at most; a count at its last number does not tell.
pub fn failures_are_told_by_counts()
    ensures rose { FailAsCounted (counted 4) (counted 5) (halts 1 ∷ []) }
    ensures stood { FailAsCounted (counted 4) (counted 4) (halts 1 ∷ []) → ⊥ }
    ensures at_its_last { FailAsCounted (counted (2 ^ 64 - 1)) (counted (2 ^ 64 - 1)) (halts 1 ∷ []) }
{}
