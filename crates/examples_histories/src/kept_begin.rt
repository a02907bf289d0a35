ghost use Rattle.std.specs.Prelude.{true};
ghost use Rattle.examples_histories.specs.Scenes.{prepared};
ghost use Rattle.examples_histories.specs.KeptBegin.{kept_begin, kept_and_took, kept_number_again};
ghost use Rattle.examples_histories.specs.Verdicts.{good, IsPermittedFrom, IsRefusedAt, HasVerdict, IsExactAt, AreCallsWithin};

/// A Begin that was kept and whose call nobody made.
pub fn kept_begin_examples()
    ensures right { IsPermittedFrom prepared kept_begin }
    ensures lawful { HasVerdict prepared kept_begin good }
    ensures exact_24 { IsExactAt prepared 24 2 kept_begin true }
    ensures calls_24 { AreCallsWithin prepared 9 24 2 4 36 kept_begin }
    ensures kept_and_took { IsRefusedAt prepared 6 kept_and_took }
    ensures kept_and_took_breaks { HasVerdict prepared kept_and_took good }
    ensures kept_number_again { IsRefusedAt prepared 11 kept_number_again }
    ensures kept_number_again_breaks { HasVerdict prepared kept_number_again good }
{}
