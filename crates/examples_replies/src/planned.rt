ghost use Rattle.bosh_asks.specs.declared.ask.Deploy.{Deploy};
ghost use Rattle.bosh_asks.specs.declared.fault.BookFault.TheVariants as book;
ghost use Rattle.bosh_base.specs.declared.goal.Goal.{Goal};
ghost use Rattle.bosh_manifest.specs.declared.manifest.Contents.{Contents};
ghost use Rattle.examples_histories.specs.Links.{offer_withdrawn_goal};
ghost use Rattle.examples_histories.specs.Scenes.{Builder};
ghost use Rattle.examples_replies.specs.Planned.{HasGoal, IsRefused, Opens, Withdraws, consumer, differs, linked, of_dep};
ghost use Rattle.examples_replies.specs.Planned.{recording, with_faulty_release};
ghost use Rattle.examples_replies.specs.Unasked.{nothing_wanted};

/// Where the releases are no good, the last one is named, and no deploy opens.
pub fn releases_are_sound()
    ensures differs { (it : Deploy) → IsRefused with_faulty_release it differs }
    ensures not_opened { (it : Deploy) (goal : Goal) → Opens with_faulty_release it goal → ⊥ }
{}

/// A deploy does not withdraw a link that another deployment uses, which is named.
pub fn links_are_kept()
    ensures consumed { (built : Builder) (it : Deploy) → Withdraws built it offer_withdrawn_goal →
        IsRefused (linked built) it (book.Consumed consumer) }
    ensures not_opened { (built : Builder) (it : Deploy) → Opens (linked built) it offer_withdrawn_goal → ⊥ }
{}

/// A deploy of the sixty-fifth deployment does not open, and one of the sixty-fourth does.
pub fn deployments_are_few()
    ensures too_many { (manifest : Contents) → HasGoal 64 manifest →
        IsRefused (recording 64) (of_dep manifest) book.Limit }
    ensures not_opened { (manifest : Contents) → Opens (recording 64) (of_dep manifest) nothing_wanted → ⊥ }
    ensures opened { (manifest : Contents) → HasGoal 63 manifest →
        Opens (recording 63) (of_dep manifest) nothing_wanted }
{}
