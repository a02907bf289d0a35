ghost use Rattle.std.specs.Prelude.{◌≡◌, None, Some, true, List};
ghost use Rattle.std.specs.List.{list_all};
ghost use Rattle.bosh_base.specs.declared.entry.Entry.{Entry};
ghost use Rattle.bosh_base.specs.declared.goal.GoalRow.{GoalRow};
ghost use Rattle.bosh_base.specs.declared.row.Row.{Row};
ghost use Rattle.laws_effects.specs.Holders.{AreHeldByTheirOwn};
ghost use Rattle.laws_row_facts.specs.Rows.{RowFacts};
ghost use Rattle.bosh_rows.specs.After.{bare, left_behind, updated_row};
ghost use Rattle.bosh_rows.specs.NextStep.{next_step};
ghost use Rattle.laws_row_frames.specs.Updates.{is_let_go_of};

/// Where nothing is to be done for a row and its update is done, the row that stays has all facts, and the disks that
/// go are there, were made as the row has them, and are on no machine.
pub fn a_done_update_keeps_the_facts_of_a_row()
    ensures row { (effects : List Entry) (want : GoalRow) (row : Row) → RowFacts effects row →
        next_step (Some want) row ≡ None → RowFacts effects (updated_row want row) }
    ensures disks { (effects : List Entry) (want : GoalRow) (row : Row) → RowFacts effects row →
        AreHeldByTheirOwn effects → next_step (Some want) row ≡ None →
        list_all (is_let_go_of effects row) (left_behind want row) ≡ true }
{}

/// Where nothing is to be done for a row that nobody wants, the bare row has all facts, and all disks go so.
pub fn a_dropped_row_leaves_the_facts_of_a_bare_one()
    ensures row { (effects : List Entry) (row : Row) → RowFacts effects row → next_step None row ≡ None →
        RowFacts effects (bare row.inst) }
    ensures disks { (effects : List Entry) (row : Row) → RowFacts effects row → AreHeldByTheirOwn effects →
        next_step None row ≡ None → list_all (is_let_go_of effects row) row.disks ≡ true }
{}
