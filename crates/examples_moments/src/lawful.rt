ghost use Rattle.examples_histories.specs.Canaries.{canaries, two_calls_of_a_worker};
ghost use Rattle.examples_histories.specs.Failed.{failed};
ghost use Rattle.examples_histories.specs.Silent.{silent};
ghost use Rattle.examples_histories.specs.Stopped.{stopped};
ghost use Rattle.examples_histories.specs.Together.{together};
ghost use Rattle.examples_histories.specs.Two.{two};
ghost use Rattle.examples_moments.specs.Lawful.{AreBounded, AreLawful, IsClean, IsUnclean, WorkApart, WorkAtOnce};

/// Histories that are lawful from nothing on.
pub fn histories_are_lawful()
    ensures two { AreLawful 24 two }
    ensures stopped { AreLawful 12 stopped }
{}

/// Deploys that nothing befell, and some that something did.
pub fn deploys_are_clean()
    ensures two { IsClean 24 two 1 }
    ensures before_a_failure { IsClean 21 failed 1 }
    ensures after_a_failure { IsUnclean 22 failed 1 }
    ensures the_next { IsClean 35 failed 2 }
    ensures a_fix_of_what_was_lost { IsClean 57 silent 3 }
    ensures never_opened { IsUnclean 24 two 2 }
    ensures bounded { AreBounded 24 two }
    ensures bounded_beside_a_failure { AreBounded 35 failed }
{}

/// Workers that do one call at a time, and one that does two.
pub fn workers_are_apart()
    ensures one { WorkApart 24 two }
    ensures several { WorkApart 46 canaries }
    ensures at_two_tasks { WorkApart 90 together }
    ensures two_at_once { WorkAtOnce 30 two_calls_of_a_worker }
{}
