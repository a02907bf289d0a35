ghost use Rattle.std.specs.Prelude.{[], ◌∷◌, None, Some, false, true};
ghost use Rattle.bosh_base.specs.declared.answer.Answer.TheVariants.{Cid, Failed};
ghost use Rattle.bosh_base.specs.declared.moves.Cause.TheVariants.{CloudStore, Stop};
ghost use Rattle.bosh_base.specs.declared.moves.Move.TheVariants.{Halt};
ghost use Rattle.bosh_lines.specs.declared.word.When.TheVariants.{After, Before};
ghost use Rattle.examples_histories.specs.Scenes.{did, stop};
ghost use Rattle.examples_replies.specs.InCalls.{HaveNoCause, LeaveWaiting, begins_again, fails, stops};

/// Of two lines that stop the director in one call the first that was set does, and both are spent.
pub fn first_lines_stop_in_calls()
    ensures first { LeaveWaiting 0 (stops Before ∷ stops After ∷ []) (Halt Stop ∷ stop None [] None ∷ []) [] }
    ensures not_second { HaveNoCause 0 (stops Before ∷ stops After ∷ []) (Halt Stop ∷ stop None (1 ∷ []) None ∷ []) }
    ensures other_order { LeaveWaiting 0 (stops After ∷ stops Before ∷ []) (Halt Stop ∷ stop None (1 ∷ []) None ∷ []) [] }
{}

/// A line that lets a call fail is spent where the director stops behind its effect, which it takes away, and waits on where
/// that stops before.
pub fn failing_lines_are_spent_in_stops()
    ensures spent { LeaveWaiting 0 (fails ∷ stops After ∷ []) (Halt Stop ∷ stop None [] None ∷ []) [] }
    ensures taken_away { HaveNoCause 0 (fails ∷ stops After ∷ []) (Halt Stop ∷ stop None (1 ∷ []) None ∷ []) }
    ensures not_again { HaveNoCause 0 (fails ∷ stops After ∷ [])
        (Halt Stop ∷ stop None [] None ∷ begins_again ∷ did 2 false Failed ∷ []) }
    ensures waits_on { LeaveWaiting 0 (fails ∷ stops Before ∷ []) (Halt Stop ∷ stop None [] None ∷ []) (fails ∷ []) }
    ensures then_fails { LeaveWaiting 0 (fails ∷ stops Before ∷ [])
        (Halt Stop ∷ stop None [] None ∷ begins_again ∷ did 2 false Failed ∷ []) [] }
    ensures not_passed { HaveNoCause 0 (fails ∷ stops Before ∷ [])
        (Halt Stop ∷ stop None [] None ∷ begins_again ∷ did 2 true (Cid 1) ∷ []) }
{}

/// Where the cloud's store fails in a call, its effect is there or is not, and no line takes it away.
pub fn stores_fail_in_calls()
    ensures kept { LeaveWaiting 1 [] (Halt CloudStore ∷ stop None (1 ∷ []) None ∷ []) [] }
    ensures lost { LeaveWaiting 1 [] (Halt CloudStore ∷ stop None [] None ∷ []) [] }
    ensures no_effect { HaveNoCause 1 (fails ∷ []) (Halt CloudStore ∷ []) }
    ensures not_failed { HaveNoCause 0 [] (Halt CloudStore ∷ []) }
{}
