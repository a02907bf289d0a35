ghost use Rattle.examples_facts.specs.Broken.{KeepsFacts};
ghost use Rattle.examples_histories.specs.Canaries.{canaries, two_calls_of_a_worker};
ghost use Rattle.examples_histories.specs.Drained.{drained};
ghost use Rattle.examples_histories.specs.Failed.{failed};
ghost use Rattle.examples_histories.specs.Flight.{flight, took_both};
ghost use Rattle.examples_histories.specs.Hard.{hard};
ghost use Rattle.examples_histories.specs.KeptBegin.{kept_begin};
ghost use Rattle.examples_histories.specs.KeptDone.{kept_done};
ghost use Rattle.examples_histories.specs.KeptError.{kept_error};
ghost use Rattle.examples_histories.specs.Late.{late};
ghost use Rattle.examples_histories.specs.Leftover.{leftover};
ghost use Rattle.examples_histories.specs.Links.{links};
ghost use Rattle.examples_histories.specs.Loaded.{loaded, loaded_on};
ghost use Rattle.examples_histories.specs.Lost.{lost, lost_after_ping};
ghost use Rattle.examples_histories.specs.Migrated.{migrated, wrote_unasked};
ghost use Rattle.examples_histories.specs.Orphan.{orphan};
ghost use Rattle.examples_histories.specs.Recreate.{not_renewed, recreate};
ghost use Rattle.examples_histories.specs.Replaced.{replaced};
ghost use Rattle.examples_histories.specs.Resolve.{resolve};
ghost use Rattle.examples_histories.specs.Silent.{silent};
ghost use Rattle.examples_histories.specs.Stopped.{stopped};
ghost use Rattle.examples_histories.specs.Swept.{swept};
ghost use Rattle.examples_histories.specs.Together.{together};
ghost use Rattle.examples_histories.specs.Two.{failed_for_nothing, goal_of_nobody, halt_for_nothing, two};
ghost use Rattle.examples_histories.specs.Unmigrated.{unmigrated};
ghost use Rattle.examples_histories.specs.Wrote.{wrote};
ghost use Rattle.examples_histories.specs.Scenes.{prepared, with_release};

/// Each fact holds at each place of the worked histories: of those that nothing stops.
pub fn histories_without_stops()
    ensures two { KeepsFacts prepared two }
    ensures recreate { KeepsFacts prepared recreate }
    ensures failed { KeepsFacts prepared failed }
    ensures late { KeepsFacts prepared late }
    ensures canaries { KeepsFacts prepared canaries }
    ensures replaced { KeepsFacts prepared replaced }
    ensures hard { KeepsFacts prepared hard }
{}

/// .. of those that are stopped.
pub fn histories_with_stops()
    ensures stopped { KeepsFacts prepared stopped }
    ensures kept_begin { KeepsFacts prepared kept_begin }
    ensures kept_done { KeepsFacts prepared kept_done }
    ensures kept_error { KeepsFacts prepared kept_error }
    ensures flight { KeepsFacts prepared flight }
    ensures drained { KeepsFacts prepared drained }
    ensures loaded { KeepsFacts loaded_on loaded }
{}

/// .. of those with disks.
pub fn histories_of_disks()
    ensures migrated { KeepsFacts prepared migrated }
    ensures unmigrated { KeepsFacts prepared unmigrated }
    ensures wrote { KeepsFacts prepared wrote }
    ensures orphan { KeepsFacts prepared orphan }
{}

/// .. of those in which a machine is lost.
pub fn histories_of_losses()
    ensures lost { KeepsFacts prepared lost }
    ensures silent { KeepsFacts prepared silent }
    ensures resolve { KeepsFacts prepared resolve }
{}

/// .. of those with packages and links.
pub fn histories_of_keys_and_links()
    ensures together { KeepsFacts with_release together }
    ensures leftover { KeepsFacts with_release leftover }
    ensures swept { KeepsFacts with_release swept }
    ensures links { KeepsFacts with_release links }
{}

/// .. and of versions of them that are permitted too.
pub fn other_histories()
    ensures took_both { KeepsFacts prepared took_both }
    ensures goal_of_nobody { KeepsFacts prepared goal_of_nobody }
    ensures failed_for_nothing { KeepsFacts prepared failed_for_nothing }
    ensures halt_for_nothing { KeepsFacts prepared halt_for_nothing }
    ensures lost_after_ping { KeepsFacts prepared lost_after_ping }
    ensures two_calls_of_a_worker { KeepsFacts prepared two_calls_of_a_worker }
    ensures wrote_unasked { KeepsFacts prepared wrote_unasked }
    ensures not_renewed { KeepsFacts prepared not_renewed }
{}
