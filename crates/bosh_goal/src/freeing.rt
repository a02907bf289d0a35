//! Whether the addresses of an instance are free of those that stay taken.
ghost use Rattle.std.specs.Prelude.{◌≡◌, find, map, true};
ghost use Rattle.std.specs.List.{list_any};
ghost use Rattle.std.specs.Option.{option_copied};
ghost use Rattle.bosh_goal.specs.Anew.{addresses_free, all_free, is_in, is_row_of, keeps, needs_addrs, refusal_at};
ghost use Rattle.bosh_pool.specs.Fixed.{same_addr};
ghost use Rattle.bosh_slots.specs.Slots.{net_addr, row_addrs};
ghost use Rattle.bosh_manifest_names.specs.Answer.{IsAnswerSeen};

use crate::Change;
use bosh_base::{Addr, Copyable, GoalRow, Inst, NetAddr, Owner, Row, State};
use bosh_manifest_names::GoalFault;
use bosh_pool::PoolFault;
use std::alloc::Global;

fn needs_addrs(change: Change) -> bool
    ensures { result ≡ needs_addrs change }
{
    match change {
        Change::To(State::Detached) => false,
        Change::To(State::Running | State::Stopped) | Change::Fresh | Change::Same => true,
    }
}

fn row_of<'a>(rows: &'a [GoalRow], inst: &Inst) -> Option<&'a GoalRow>
    ensures { option_copied result ≡ find (is_row_of inst.now) rows.now }
{
    rows.iter().find(|row| row.inst == *inst)
}

fn is_in(rows: &[GoalRow], recorded: &Row) -> bool
    ensures { result ≡ is_in rows.now recorded.now }
{
    rows.iter().any(|row| row.inst == recorded.inst)
}

fn has_addr(nets: &[NetAddr], addr: Addr) -> bool
    ensures { result ≡ list_any (λ net. same_addr addr (net_addr net)) nets.now }
{
    nets.iter().any(|net| addr == net.addr)
}

fn has(recorded: &Row, addr: Addr) -> bool
    ensures { result ≡ list_any (same_addr addr) (row_addrs recorded.now) }
{
    match &recorded.make {
        None => false,
        Some(make) => has_addr(make.nets.as_slice(), addr),
    }
}

// A recorded instance that is not in the goal and has an address.
fn keeper<'a>(rows: &[GoalRow], recorded: &'a [Row], addr: Addr) -> Option<&'a Row>
    ensures { option_copied result ≡ find (keeps rows.now addr) recorded.now }
{
    recorded
        .iter()
        .find(|row| !is_in(rows, row) && has(row, addr))
}

fn check_free(
    alloc: Global,
    rows: &[GoalRow],
    recorded: &[Row],
    addr: Addr,
) -> Result<(), GoalFault>
    ensures { IsAnswerSeen (λ _. true) result (refusal_at addr (find (keeps rows.now addr) recorded.now)) }
{
    match keeper(rows, recorded, addr) {
        None => Ok(()),
        Some(row) => Err(GoalFault::Pool(PoolFault::Taken {
            addr,
            owner: Owner::Instance(row.inst.copy(alloc)?),
        })),
    }
}

fn check_all(
    alloc: Global,
    rows: &[GoalRow],
    recorded: &[Row],
    nets: &[NetAddr],
) -> Result<(), GoalFault>
    ensures { IsAnswerSeen (λ _. true) result (all_free rows.now recorded.now (map net_addr nets.now)) }
{
    for net in nets {
        check_free(alloc, rows, recorded, net.addr)?;
    }
    Ok(())
}

/// Refuses a change for which an instance needs addresses of which a recorded instance has one that is not in the goal: a
/// task of one instance deletes none. The refusal names the first such address, and its owner.
pub(crate) fn check_addresses(
    alloc: Global,
    inst: &Inst,
    change: Change,
    rows: &[GoalRow],
    recorded: &[Row],
) -> Result<(), GoalFault>
    ensures { IsAnswerSeen (λ _. true) result (addresses_free inst.now change rows.now recorded.now) }
{
    if !needs_addrs(change) {
        return Ok(());
    }
    match row_of(rows, inst) {
        None => Ok(()),
        Some(row) => check_all(alloc, rows, recorded, row.make.nets.as_slice()),
    }
}
