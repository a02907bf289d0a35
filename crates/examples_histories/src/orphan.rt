ghost use Rattle.std.specs.Prelude.{Some, true, false};
ghost use Rattle.examples_histories.specs.Scenes.{prepared};
ghost use Rattle.examples_histories.specs.Orphan.{orphan, gone_while_attached, gone_left_out, clean_up_of_nothing, clean_up_of_less, clean_up_of_more, deletion_not_asked};
ghost use Rattle.examples_histories.specs.Verdicts.{good, IsPermittedFrom, IsRefusedAt, HasVerdict, IsExactAt, AreCallsWithin};

/// An obsolete instance's disk, and a stop in the clean-up.
pub fn orphan_examples()
    ensures right { IsPermittedFrom prepared orphan }
    ensures lawful { HasVerdict prepared orphan good }
    ensures exact_22 { IsExactAt prepared 22 1 orphan true }
    ensures calls_22 { AreCallsWithin prepared 1 22 1 6 36 orphan }
    ensures exact_41 { IsExactAt prepared 41 2 orphan true }
    ensures calls_41 { AreCallsWithin prepared 24 41 2 5 36 orphan }
    ensures exact_55 { IsExactAt prepared 55 4 orphan true }
    ensures gone_while_attached { IsRefusedAt prepared 34 gone_while_attached }
    ensures gone_while_attached_breaks { HasVerdict prepared gone_while_attached (record good { tied = Some 34 }) }
    ensures gone_left_out { IsRefusedAt prepared 40 gone_left_out }
    ensures gone_left_out_breaks { HasVerdict prepared gone_left_out good }
    ensures gone_left_out_exact { IsExactAt prepared 40 2 gone_left_out false }
    ensures clean_up_of_nothing { IsRefusedAt prepared 45 clean_up_of_nothing }
    ensures clean_up_of_nothing_breaks { HasVerdict prepared clean_up_of_nothing good }
    ensures clean_up_of_nothing_exact { IsExactAt prepared 45 3 clean_up_of_nothing false }
    ensures clean_up_of_less { IsRefusedAt prepared 44 clean_up_of_less }
    ensures clean_up_of_less_breaks { HasVerdict prepared clean_up_of_less good }
    ensures clean_up_of_less_exact { IsExactAt prepared 45 3 clean_up_of_less true }
    ensures clean_up_of_more { IsRefusedAt prepared 44 clean_up_of_more }
    ensures clean_up_of_more_breaks { HasVerdict prepared clean_up_of_more good }
    ensures deletion_not_asked { IsRefusedAt prepared 52 deletion_not_asked }
    ensures deletion_not_asked_breaks { HasVerdict prepared deletion_not_asked good }
{}
