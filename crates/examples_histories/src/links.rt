ghost use Rattle.std.specs.Prelude.{Some, true};
ghost use Rattle.examples_histories.specs.Scenes.{with_release};
ghost use Rattle.examples_histories.specs.Links.{links, offer_withdrawn, offer_of_unfinished};
ghost use Rattle.examples_histories.specs.Verdicts.{good, IsPermittedFrom, IsRefusedAt, HasVerdict, IsExactAt, AreCallsWithin};

/// A link across deployments.
pub fn links_examples()
    ensures right { IsPermittedFrom with_release links }
    ensures lawful { HasVerdict with_release links good }
    ensures exact_13 { IsExactAt with_release 13 1 links true }
    ensures calls_13 { AreCallsWithin with_release 1 13 1 3 36 links }
    ensures exact_27 { IsExactAt with_release 27 2 links true }
    ensures calls_27 { AreCallsWithin with_release 15 27 2 3 36 links }
    ensures exact_41 { IsExactAt with_release 41 3 links true }
    ensures exact_54 { IsExactAt with_release 54 4 links true }
    ensures offer_withdrawn { IsRefusedAt with_release 29 offer_withdrawn }
    ensures offer_withdrawn_breaks { HasVerdict with_release offer_withdrawn (record good { links = Some 30 }) }
    ensures offer_of_unfinished { IsRefusedAt with_release 13 offer_of_unfinished }
    ensures offer_of_unfinished_breaks { HasVerdict with_release offer_of_unfinished (record good { links = Some 13 }) }
{}
