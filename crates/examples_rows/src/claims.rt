ghost use Rattle.std.specs.Prelude.{◌∷◌, []};
ghost use Rattle.bosh_base.specs.declared.call.Call.TheVariants as calls;
ghost use Rattle.bosh_base.specs.declared.owner.Owner.TheVariants.{Instance};
ghost use Rattle.bosh_history.specs.Claim.{Noted, Over, Waits};
ghost use Rattle.examples_histories.specs.Scenes.{beginning_of, prepared, upd_begin, upd_done};
ghost use Rattle.examples_histories.specs.Values.{no_jobs, plain};
ghost use Rattle.examples_histories.specs.Scenes.{with_release};
ghost use Rattle.examples_histories.specs.Values.{web, z1, z2};
ghost use Rattle.examples_histories.specs.Canaries.{canaries, begins_beside_canaries, limit_exceeded};
ghost use Rattle.examples_histories.specs.Canaries.{two_calls_of_a_worker};
ghost use Rattle.examples_histories.specs.Drained.{drained};
ghost use Rattle.examples_histories.specs.Failed.{failed, work_after_failure};
ghost use Rattle.examples_histories.specs.Flight.{flight};
ghost use Rattle.examples_histories.specs.Hard.{hard};
ghost use Rattle.examples_histories.specs.KeptBegin.{kept_begin};
ghost use Rattle.examples_histories.specs.KeptDone.{kept_done};
ghost use Rattle.examples_histories.specs.KeptError.{kept_error};
ghost use Rattle.examples_histories.specs.Late.{late};
ghost use Rattle.examples_histories.specs.Leftover.{leftover};
ghost use Rattle.examples_histories.specs.Links.{links};
ghost use Rattle.examples_histories.specs.Loaded.{loaded, loaded_on};
ghost use Rattle.examples_histories.specs.Lost.{lost};
ghost use Rattle.examples_histories.specs.Migrated.{migrated};
ghost use Rattle.examples_histories.specs.Orphan.{orphan};
ghost use Rattle.examples_histories.specs.Recreate.{recreate};
ghost use Rattle.examples_histories.specs.Replaced.{replaced};
ghost use Rattle.examples_histories.specs.Resolve.{resolve};
ghost use Rattle.examples_histories.specs.Silent.{silent};
ghost use Rattle.examples_histories.specs.Stopped.{stopped};
ghost use Rattle.examples_histories.specs.Swept.{swept};
ghost use Rattle.examples_histories.specs.Together.{together};
ghost use Rattle.examples_histories.specs.Two.{two, begun_twice, done_too_early, not_begun, not_the_next_step};
ghost use Rattle.examples_histories.specs.Two.{number_skipped, owner_busy, task_done_too_early};
ghost use Rattle.examples_histories.specs.Unmigrated.{unmigrated};
ghost use Rattle.examples_histories.specs.Wrote.{wrote};
ghost use Rattle.examples_rows.specs.Claims.{EachClaimed, EachClaimedBut};
ghost use Rattle.examples_rows.specs.Orders.{begun_ahead, begun_out_of_order, done_late, failed_and_answered};
ghost use Rattle.examples_rows.specs.Orders.{failed_beside, Gives};
ghost use Rattle.examples_histories.specs.Verdicts.{IsPermittedFrom};

/// Each entry of these histories is the one that the claim gives, first part of the histories.
pub fn claims_first()
    ensures canaries { EachClaimed prepared canaries }
    ensures drained { EachClaimed prepared drained }
    ensures failed { EachClaimed prepared failed }
    ensures flight { EachClaimed prepared flight }
    ensures hard { EachClaimed prepared hard }
    ensures kept_begin { EachClaimed prepared kept_begin }
    ensures kept_done { EachClaimed prepared kept_done }
{}

/// Each entry of these histories is the one that the claim gives, second part of the histories.
pub fn claims_second()
    ensures kept_error { EachClaimed prepared kept_error }
    ensures late { EachClaimed prepared late }
    ensures leftover { EachClaimed with_release leftover }
    ensures links { EachClaimed with_release links }
    ensures loaded { EachClaimed loaded_on loaded }
    ensures lost { EachClaimed prepared lost }
{}

/// Each entry of these histories is the one that the claim gives, third part of the histories.
pub fn claims_third()
    ensures migrated { EachClaimed prepared migrated }
    ensures orphan { EachClaimed prepared orphan }
    ensures recreate { EachClaimed prepared recreate }
    ensures replaced { EachClaimed prepared replaced }
    ensures resolve { EachClaimed prepared resolve }
    ensures silent { EachClaimed prepared silent }
{}

/// Each entry of these histories is the one that the claim gives, fourth part of the histories.
pub fn claims_fourth()
    ensures stopped { EachClaimed prepared stopped }
    ensures swept { EachClaimed with_release swept }
    ensures together { EachClaimed with_release together }
    ensures two { EachClaimed prepared two }
    ensures unmigrated { EachClaimed prepared unmigrated }
    ensures wrote { EachClaimed prepared wrote }
{}

/// Where an entry is not permitted, the claim gives something else: these histories are wrong at these places.
pub fn claims_give_nothing_wrong()
    ensures not_the_next_step { EachClaimedBut (6 ∷ []) prepared not_the_next_step }
    ensures number_skipped { EachClaimedBut (6 ∷ []) prepared number_skipped }
    ensures owner_busy { EachClaimedBut (4 ∷ []) prepared owner_busy }
    ensures not_begun { EachClaimedBut (2 ∷ []) prepared not_begun }
    ensures begun_twice { EachClaimedBut (3 ∷ []) prepared begun_twice }
    ensures done_too_early { EachClaimedBut (9 ∷ []) prepared done_too_early }
    ensures task_done_too_early { EachClaimedBut (13 ∷ []) prepared task_done_too_early }
    ensures begins_beside_canaries { EachClaimedBut (4 ∷ []) prepared begins_beside_canaries }
    ensures limit_exceeded { EachClaimedBut (17 ∷ []) prepared limit_exceeded }
    ensures work_after_failure { EachClaimedBut (24 ∷ []) prepared work_after_failure }
{}

/// Permitted is more than what the claim gives: it keeps the order of the items, and begins one after the other.
pub fn claims_are_in_order()
    ensures out_of_order { IsPermittedFrom prepared begun_out_of_order }
    ensures out_of_order_claimed { EachClaimedBut (13 ∷ 14 ∷ []) prepared begun_out_of_order }
    ensures ahead { IsPermittedFrom prepared begun_ahead }
    ensures ahead_claimed { EachClaimedBut (14 ∷ []) prepared begun_ahead }
    ensures late { IsPermittedFrom prepared done_late }
    ensures late_claimed { EachClaimedBut (38 ∷ []) prepared done_late }
    ensures two_calls_of_a_worker { IsPermittedFrom prepared two_calls_of_a_worker }
    ensures two_calls_of_a_worker_claimed { EachClaimed prepared two_calls_of_a_worker }
{}

/// What a worker is given at single moments.
pub fn claims_at_moments()
    ensures first { Gives prepared 1 two 1 0 (Noted (upd_begin 1 (web 0))) }
    ensures then_its_call { Gives prepared 2 two 1 3
        (Noted (beginning_of 1 1 3 (Instance (web 0)) (calls.CreateVm (plain z1 10) []))) }
    ensures beside_open_call { Gives prepared 3 two 1 1 Waits }
    ensures update_done { Gives prepared 11 two 1 0 (Noted (upd_done 1 (web 0))) }
    ensures all_done { Gives prepared 23 two 1 0 Over }
    ensures ended { Gives prepared 24 two 1 0 Over }
    ensures beside_canary { Gives prepared 3 canaries 1 1 Waits }
    ensures second_in_flight { Gives prepared 14 canaries 1 1 (Noted (upd_begin 1 (web 2))) }
    ensures limit_reached { Gives prepared 16 canaries 1 2 Waits }
    ensures next_call_in_flight { Gives prepared 19 canaries 1 2
        (Noted (beginning_of 6 1 2 (Instance (web 2)) (calls.Apply 2 no_jobs))) }
    ensures key_in_the_making { Gives with_release 10 together 2 0 Waits }
    ensures failed_beside_open_call { Gives prepared 7 failed_beside 1 0 Waits }
    ensures failed_and_answered { Gives prepared 9 failed_and_answered 1 0 Over }
    ensures failed_alone { Gives prepared 23 failed 1 0 Over }
{}
