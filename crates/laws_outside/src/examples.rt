ghost use Rattle.std.specs.Prelude.{◌≡◌, ◌∷◌, [], codes, false, true};
ghost use Rattle.laws_outside.specs.Examples.{another, in_a_circle, in_a_row, lacking, of_itself, out_of_order, same_package, two_of_one_print};
ghost use Rattle.laws_outside.specs.Shipped.{shipped};

/// A small release goes with none, and with one that has a package of it.
pub fn releases_that_go_with_others()
    ensures alone { shipped.goes_with [] in_a_row ≡ true }
    ensures beside { shipped.goes_with (in_a_row ∷ []) same_package ≡ true }
{}

/// A release does not go with others where a package needs itself, at once or by others, or needs what is not there,
/// where packages are out of their order, and where two packages of one fingerprint are not one package; nor does any
/// where the recorded ones are not sound.
pub fn releases_that_do_not_go_with_others()
    ensures circle { shipped.goes_with [] in_a_circle ≡ false }
    ensures itself { shipped.goes_with [] of_itself ≡ false }
    ensures lacking { shipped.goes_with [] lacking ≡ false }
    ensures order { shipped.goes_with [] out_of_order ≡ false }
    ensures print { shipped.goes_with [] two_of_one_print ≡ false }
    ensures beside { shipped.goes_with (in_a_row ∷ []) another ≡ false }
    ensures recorded { shipped.goes_with (in_a_circle ∷ []) same_package ≡ false }
{}

/// An empty text is no cloud config, and neither is a list of zones alone.
pub fn texts_that_are_no_cloud_config()
    ensures empty { shipped.is_config [] ≡ false }
    ensures zones { shipped.is_config (codes "azs: []") ≡ false }
{}
