ghost use Rattle.examples_histories.specs.Scenes.{prepared, with_release};
ghost use Rattle.examples_histories.specs.Canaries.{canaries};
ghost use Rattle.examples_histories.specs.Canaries.{canaries};
ghost use Rattle.examples_histories.specs.Drained.{drained};
ghost use Rattle.examples_histories.specs.Failed.{failed};
ghost use Rattle.examples_histories.specs.Flight.{flight};
ghost use Rattle.examples_histories.specs.Hard.{hard};
ghost use Rattle.examples_histories.specs.KeptBegin.{kept_begin};
ghost use Rattle.examples_histories.specs.KeptDone.{kept_done};
ghost use Rattle.examples_histories.specs.KeptError.{kept_error};
ghost use Rattle.examples_histories.specs.Late.{late};
ghost use Rattle.examples_histories.specs.Leftover.{leftover};
ghost use Rattle.examples_histories.specs.Links.{links};
ghost use Rattle.examples_histories.specs.Loaded.{loaded, loaded_on};
ghost use Rattle.examples_histories.specs.Lost.{lost};
ghost use Rattle.examples_histories.specs.Migrated.{migrated};
ghost use Rattle.examples_histories.specs.Orphan.{orphan};
ghost use Rattle.examples_histories.specs.Recreate.{recreate};
ghost use Rattle.examples_histories.specs.Replaced.{replaced};
ghost use Rattle.examples_histories.specs.Resolve.{resolve};
ghost use Rattle.examples_histories.specs.Silent.{silent};
ghost use Rattle.examples_histories.specs.Stopped.{stopped};
ghost use Rattle.examples_histories.specs.Swept.{swept};
ghost use Rattle.examples_histories.specs.Together.{together};
ghost use Rattle.examples_histories.specs.Two.{two};
ghost use Rattle.examples_histories.specs.Two.{two};
ghost use Rattle.examples_histories.specs.Unmigrated.{unmigrated};
ghost use Rattle.examples_histories.specs.Wrote.{wrote};
ghost use Rattle.examples_rows.specs.Permitted.{AreClaimsPermitted};

/// What the claim gives at each moment is permitted, first part of the histories.
pub fn permitted_first()
    ensures canaries { AreClaimsPermitted prepared canaries }
    ensures drained { AreClaimsPermitted prepared drained }
    ensures failed { AreClaimsPermitted prepared failed }
    ensures flight { AreClaimsPermitted prepared flight }
    ensures hard { AreClaimsPermitted prepared hard }
    ensures kept_begin { AreClaimsPermitted prepared kept_begin }
    ensures kept_done { AreClaimsPermitted prepared kept_done }
{}

/// What the claim gives at each moment is permitted, second part of the histories.
pub fn permitted_second()
    ensures kept_error { AreClaimsPermitted prepared kept_error }
    ensures late { AreClaimsPermitted prepared late }
    ensures leftover { AreClaimsPermitted with_release leftover }
    ensures links { AreClaimsPermitted with_release links }
    ensures loaded { AreClaimsPermitted loaded_on loaded }
    ensures lost { AreClaimsPermitted prepared lost }
{}

/// What the claim gives at each moment is permitted, third part of the histories.
pub fn permitted_third()
    ensures migrated { AreClaimsPermitted prepared migrated }
    ensures orphan { AreClaimsPermitted prepared orphan }
    ensures recreate { AreClaimsPermitted prepared recreate }
    ensures replaced { AreClaimsPermitted prepared replaced }
    ensures resolve { AreClaimsPermitted prepared resolve }
    ensures silent { AreClaimsPermitted prepared silent }
{}

/// What the claim gives at each moment is permitted, fourth part of the histories.
pub fn permitted_fourth()
    ensures stopped { AreClaimsPermitted prepared stopped }
    ensures swept { AreClaimsPermitted with_release swept }
    ensures together { AreClaimsPermitted with_release together }
    ensures two { AreClaimsPermitted prepared two }
    ensures unmigrated { AreClaimsPermitted prepared unmigrated }
    ensures wrote { AreClaimsPermitted prepared wrote }
{}
