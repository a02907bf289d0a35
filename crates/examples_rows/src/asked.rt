ghost use Rattle.std.specs.Prelude.{◌∷◌, []};
ghost use Rattle.bosh_base.specs.declared.owner.Owner.TheVariants.{Instance};
ghost use Rattle.examples_histories.specs.Scenes.{prepared};
ghost use Rattle.examples_histories.specs.Verdicts.{IsPermittedFrom};
ghost use Rattle.examples_rows.specs.Asked.{HasItems, asked, first, second};
ghost use Rattle.examples_rows.specs.Claims.{EachClaimed};

/// Machines are asked in the order of their instances. Once they have answered, the instances that change are tried in
/// the order of the goal, each at one place.
pub fn what_was_asked_is_tried_as_it_changes()
    ensures right { IsPermittedFrom prepared asked }
    ensures claimed { EachClaimed prepared asked }
    ensures to_be_changed { HasItems prepared 31 asked 2 (Instance first ∷ Instance second ∷ []) }
    ensures one_to_be_changed { HasItems prepared 32 asked 2 (Instance second ∷ []) }
{}
