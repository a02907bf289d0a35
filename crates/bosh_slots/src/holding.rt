//! The addresses that are held.
ghost use Rattle.std.specs.Prelude.{◌≡◌, ◌++◌, IfOk, OnOk, map};
ghost use Rattle.std.specs.List.{flat_map};
ghost use Rattle.bosh_slots.specs.Slots.{goal_addrs, goal_row_addrs, held_addr, held_addrs, net_addr, row_addrs};

use bosh_base::{Addr, Goal, GoalRow, Held, NetAddr, Row, View};
use std::alloc::{AllocError, Global};

fn add_held(held: &[Held], addrs: &mut Vec<Addr>) -> Result<(), AllocError>
    ensures { OnOk result (addrs.new.items ≡ addrs.old.items ++ map held_addr held.now) }
{
    for it in held {
        addrs.push(it.addr)?;
    }
    Ok(())
}

fn add_nets(nets: &[NetAddr], addrs: &mut Vec<Addr>) -> Result<(), AllocError>
    ensures { OnOk result (addrs.new.items ≡ addrs.old.items ++ map net_addr nets.now) }
{
    for net in nets {
        addrs.push(net.addr)?;
    }
    Ok(())
}

fn add_row(row: &Row, addrs: &mut Vec<Addr>) -> Result<(), AllocError>
    ensures { OnOk result (addrs.new.items ≡ addrs.old.items ++ row_addrs row.now) }
{
    match &row.make {
        None => Ok(()),
        Some(make) => add_nets(make.nets.as_slice(), addrs),
    }
}

fn add_rows(rows: &[Row], addrs: &mut Vec<Addr>) -> Result<(), AllocError>
    ensures { OnOk result (addrs.new.items ≡ addrs.old.items ++ flat_map row_addrs rows.now) }
{
    for row in rows {
        add_row(row, addrs)?;
    }
    Ok(())
}

fn add_goal_rows(rows: &[GoalRow], addrs: &mut Vec<Addr>) -> Result<(), AllocError>
    ensures { OnOk result (addrs.new.items ≡ addrs.old.items ++ flat_map goal_row_addrs rows.now) }
{
    for row in rows {
        add_nets(row.make.nets.as_slice(), addrs)?;
    }
    Ok(())
}

fn add_goal(goal: &Option<Goal>, addrs: &mut Vec<Addr>) -> Result<(), AllocError>
    ensures { OnOk result (addrs.new.items ≡ addrs.old.items ++ goal_addrs goal.now) }
{
    match goal {
        None => Ok(()),
        Some(goal) => add_goal_rows(goal.rows.as_slice(), addrs),
    }
}

/// The addresses that others hold, that the deployment's compile machines and recorded instances do, that its current goal
/// gives, and some more.
pub(crate) fn held_and(alloc: Global, view: &View, own: &[Addr]) -> Result<Vec<Addr>, AllocError>
    ensures { IfOk result (λ addrs. addrs.items ≡ held_addrs view.now ++ own.now) }
{
    let mut addrs = Vec::new(alloc);
    add_held(view.taken.as_slice(), &mut addrs)?;
    add_held(view.leftover.as_slice(), &mut addrs)?;
    add_rows(view.rows.as_slice(), &mut addrs)?;
    add_goal(&view.goal, &mut addrs)?;
    addrs.extend_from_slice(own)?;
    Ok(addrs)
}
