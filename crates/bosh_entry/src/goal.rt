ghost use Rattle.std.specs.Prelude.{◌≡◌};

use crate::coded::Coded;
use crate::fault::EntryFault;
use crate::format::Format;
use crate::later::before_later_list;
use crate::pair::{write_both, write_four, write_three};
use crate::source::Source;
use bosh_base::{Goal, GoalRow, GroupPlan, Seq};
use std::alloc::Global;

impl Coded for GoalRow {
    ghost use Rattle.bosh_entry.specs.Goal.{goal_row, is_goal_row, goal_row_at};

    ghost spelling = { λ _. goal_row };

    ghost fits = { λ _. is_goal_row };

    ghost reading = { λ _. goal_row_at };

    #[tactic(auto, unfolding(crate::specs::Goal::goal_row, crate::specs::Goal::is_goal_row))]
    fn write(&self, out: &mut Vec<u8>) -> Result<(), EntryFault> {
        write_four(&self.inst, &self.make, &self.spec, &self.disk, out)?;
        write_both(&self.state, &self.fresh_after, out)
    }

    #[tactic(auto, using(crate::proofs::StructLemmas::goal_row_parts))]
    fn read(alloc: Global, format: Format, from: &mut Source) -> Result<Self, EntryFault> {
        let fields = Coded::read(alloc, format, from)?;
        let (((inst, make), (spec, disk)), (state, fresh_after)) = fields;
        Ok(GoalRow {
            inst,
            make,
            spec,
            disk,
            state,
            fresh_after,
        })
    }
}

impl Coded for GroupPlan {
    ghost use Rattle.bosh_entry.specs.Goal.{group_plan, is_group_plan, group_plan_at};

    ghost spelling = { λ _. group_plan };

    ghost fits = { λ _. is_group_plan };

    ghost reading = { λ _. group_plan_at };

    #[tactic(auto, unfolding(crate::specs::Goal::group_plan, crate::specs::Goal::is_group_plan))]
    fn write(&self, out: &mut Vec<u8>) -> Result<(), EntryFault> {
        self.name.write(out)?;
        self.canaries.write(out)?;
        self.limit.write(out)?;
        self.stage.write(out)
    }

    #[tactic(auto, using(crate::proofs::StructLemmas::group_plan_parts))]
    fn read(alloc: Global, format: Format, from: &mut Source) -> Result<Self, EntryFault> {
        let fields = Coded::read(alloc, format, from)?;
        let ((name, canaries), (limit, stage)) = fields;
        Ok(GroupPlan {
            name,
            canaries,
            limit,
            stage,
        })
    }
}

impl Coded for Goal {
    ghost use Rattle.bosh_entry.specs.Goal.{goal, is_goal, goal_at};

    ghost spelling = { goal };

    ghost fits = { is_goal };

    ghost reading = { goal_at };

    #[tactic(auto, unfolding(crate::specs::Goal::goal, crate::specs::Goal::is_goal))]
    fn write(&self, out: &mut Vec<u8>) -> Result<(), EntryFault> {
        write_four(&self.dep, &self.rows, &self.groups, &self.ties, out)?;
        write_three(&self.keys, &self.slots, &self.offers, out)
    }

    #[tactic(auto, using(crate::proofs::StructLemmas::goal_parts))]
    fn read(alloc: Global, format: Format, from: &mut Source) -> Result<Self, EntryFault> {
        let (fields, offers) = before_later_list(alloc, format, from)?;
        let (((dep, rows), (groups, ties)), (keys, slots)) = fields;
        Ok(Goal {
            dep,
            rows,
            groups,
            ties,
            keys,
            slots,
            offers,
        })
    }
}
