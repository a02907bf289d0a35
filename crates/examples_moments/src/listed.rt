ghost use Rattle.std.specs.Prelude.{◌∷◌, [], codes, false, true};
ghost use Rattle.examples_histories.specs.Migrated.{migrated};
ghost use Rattle.examples_histories.specs.Orphan.{orphan as orphaned};
ghost use Rattle.examples_histories.specs.Leftover.{leftover};
ghost use Rattle.examples_histories.specs.Scenes.{prepared, with_release};
ghost use Rattle.examples_histories.specs.Two.{two};
ghost use Rattle.examples_histories.specs.Values.{key_p, web};
ghost use Rattle.examples_moments.specs.Listed.{IsSoundSnapshot, LeavesSound, built_key, compile_row, dep_row};
ghost use Rattle.examples_moments.specs.Listed.{nothing, orphan, other_key, with_deployments, with_keys};
ghost use Rattle.examples_moments.specs.Listed.{with_machines, with_orphans, with_rows};
ghost use Rattle.bosh_rows.specs.After.{bare};

/// Snapshots with which a store may begin.
pub fn snapshots_are_sound()
    ensures nothing { IsSoundSnapshot nothing true }
    ensures of_a_deploy { LeavesSound prepared 14 two true }
    ensures of_a_migration { LeavesSound prepared 60 migrated true }
    ensures of_an_orphan { LeavesSound prepared 42 orphaned true }
    ensures of_a_compile_machine { LeavesSound with_release 8 leftover true }
    ensures rows { IsSoundSnapshot (with_rows (bare (web 0) ∷ bare (web 1) ∷ [])) true }
    ensures machines { IsSoundSnapshot (with_machines (compile_row 1 1 ∷ compile_row 2 0 ∷ [])) true }
    ensures orphans { IsSoundSnapshot (with_orphans (orphan 2 ∷ orphan 10 ∷ [])) true }
    ensures keys { IsSoundSnapshot
        (with_keys (built_key (codes "p") other_key ∷ built_key (codes "q") key_p ∷ [])) true }
    ensures deployments { IsSoundSnapshot (with_deployments (dep_row (codes "b") ∷ dep_row (codes "a") ∷ [])) true }
{}

/// Snapshots in which something stands twice, or out of its order.
pub fn snapshots_are_unsound()
    ensures row_twice { IsSoundSnapshot (with_rows (bare (web 0) ∷ bare (web 0) ∷ [])) false }
    ensures rows { IsSoundSnapshot (with_rows (bare (web 1) ∷ bare (web 0) ∷ [])) false }
    ensures machine_twice { IsSoundSnapshot (with_machines (compile_row 1 1 ∷ compile_row 1 1 ∷ [])) false }
    ensures machines { IsSoundSnapshot (with_machines (compile_row 2 0 ∷ compile_row 1 1 ∷ [])) false }
    ensures orphan_twice { IsSoundSnapshot (with_orphans (orphan 2 ∷ orphan 2 ∷ [])) false }
    ensures orphans { IsSoundSnapshot (with_orphans (orphan 10 ∷ orphan 2 ∷ [])) false }
    ensures key_twice { IsSoundSnapshot
        (with_keys (built_key (codes "p") key_p ∷ built_key (codes "q") key_p ∷ [])) false }
    ensures keys { IsSoundSnapshot
        (with_keys (built_key (codes "q") key_p ∷ built_key (codes "p") other_key ∷ [])) false }
    ensures deployment_twice { IsSoundSnapshot
        (with_deployments (dep_row (codes "a") ∷ dep_row (codes "a") ∷ [])) false }
{}
