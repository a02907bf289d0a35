ghost use Rattle.std.specs.Prelude.{◌∷◌, [], Some, None, true, false};
ghost use Rattle.examples_histories.specs.Orphan.{orphan, orphan_g2};
ghost use Rattle.examples_histories.specs.Scenes.{prepared, with_release};
ghost use Rattle.examples_histories.specs.Swept.{swept, swept_g2};
ghost use Rattle.examples_histories.specs.Two.{two, two_g1};
ghost use Rattle.examples_histories.specs.Values.{web};
ghost use Rattle.examples_moments.specs.Left.{Counts, deploy};

/// 36 calls at most for each row and each obsolete one, 8 for each key and each compile machine that is left over.
pub fn calls_are_counted()
    ensures two_rows { Counts prepared 0 24 two (deploy 1 two_g1 []) (Some 72) true }
    ensures two_rows_exceeded { Counts prepared 0 24 two (deploy 1 two_g1 []) (Some 73) false }
    ensures obsolete_row { Counts prepared 23 41 orphan (deploy 2 orphan_g2 (web 0 ∷ [])) (Some 36) true }
    ensures obsolete_row_exceeded { Counts prepared 23 41 orphan (deploy 2 orphan_g2 (web 0 ∷ [])) (Some 37) false }
    ensures key_and_left_over { Counts with_release 8 25 swept (deploy 2 swept_g2 []) (Some 16) true }
    ensures key_and_left_over_exceeded { Counts with_release 8 25 swept (deploy 2 swept_g2 []) (Some 17) false }
    ensures not_counted { Counts prepared 0 24 two (deploy 1 two_g1 []) None false }
{}
