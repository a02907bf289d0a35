//! The words of a lock, and what is done on them.
ghost use Rattle.std.specs.Prelude.{◌≡◌, ◌≢◌, ◌≤◌, false, length, MatchBool};
ghost use Rattle.bosh_lock.specs.Gates.{IsGateOf};
ghost use Rattle.bosh_lock.specs.Steps.{Enters, Sees};

use crate::chronicle::Chronicle;
use crate::rule::{Growth, View};
use crate::steps::{Look, Take};
use atomic_table::{Seat, Shared};
use std::hint::spin_loop;
use std::snapshot::Snapshot;
use std::sync::Wait;

pub(crate) type Gate<S> = Shared<Option<S>, View<<S as Chronicle>::Item>, Snapshot<S>, Growth>;

pub(crate) type Place<S> = Seat<Option<S>, View<<S as Chronicle>::Item>>;

/// The word that says whether the slot may be taken.
pub(crate) const DOOR: usize = 0;

/// The word that has the length of the list.
pub(crate) const MOVES: usize = 1;

/// The word that counts who waits for a longer list.
pub(crate) const WATCHERS: usize = 2;

/// The slot may be taken.
pub(crate) const FREE: u64 = 0;

/// It is out.
pub(crate) const OUT: u64 = 1;

/// It is out, and somebody may wait for it.
pub(crate) const AWAITED: u64 = 2;

/// How often one looks whether the slot is home again before one sleeps.
const LOOKS: u32 = 100;

/// Takes the slot where it may be taken, and says whether it did.
fn try_take<S: Chronicle>(gate: &Gate<S>, seat: &mut Place<S>) -> bool
    requires gate { IsGateOf gate.now.table_id seat.old.table_id }
    requires share { 1 ≤ seat.old.me.0.share }
    ensures gate { seat.new.table_id ≡ seat.old.table_id }
    ensures enters { MatchBool result (Enters S.items seat.old.me seat.new.me) (seat.new.me ≡ seat.old.me) }
{
    gate.compare_exchange::<Take>(seat, DOOR, FREE, OUT) == FREE
}

/// Looks for a while, as long as the slot is out and nobody sleeps.
fn linger<S: Chronicle>(gate: &Gate<S>)
    requires { gate.now.table_id.words ≡ 3 }
{
    for _ in 0..LOOKS {
        if gate.peek(DOOR) != OUT {
            return;
        }
        spin_loop();
    }
}

/// Takes the slot, and sleeps where it is out.
fn take_in_turn<S: Chronicle, R: Wait>(rt: &R, gate: &Gate<S>, seat: &mut Place<S>)
    requires gate { IsGateOf gate.now.table_id seat.old.table_id }
    requires share { 1 ≤ seat.old.me.0.share }
    ensures gate { seat.new.table_id ≡ seat.old.table_id }
    ensures enters { Enters S.items seat.old.me seat.new.me }
{
    for _ in rt.forever() {
        if gate.swap::<Take>(seat, DOOR, AWAITED) == FREE {
            return;
        }
        gate.park(rt, DOOR, AWAITED as u32);
        linger(gate);
    }
    unreachable!()
}

/// Takes the slot, and waits where it is out.
pub(crate) fn take<S: Chronicle, R: Wait>(rt: &R, gate: &Gate<S>, seat: &mut Place<S>)
    requires gate { IsGateOf gate.now.table_id seat.old.table_id }
    requires share { 1 ≤ seat.old.me.0.share }
    ensures gate { seat.new.table_id ≡ seat.old.table_id }
    ensures enters { Enters S.items seat.old.me seat.new.me }
{
    if try_take(gate, seat) {
        return;
    }
    linger(gate);
    if try_take(gate, seat) {
        return;
    }
    take_in_turn(rt, gate, seat);
}

/// Waits until the list has another length than the one that was seen, and answers it.
pub(crate) fn watch<S: Chronicle, R: Wait>(
    rt: &R,
    gate: &Gate<S>,
    seat: &mut Place<S>,
    reached: u64,
) -> u64
    requires gate { IsGateOf gate.now.table_id seat.old.table_id }
    requires idle { seat.old.me.0.holds ≡ false }
    ensures gate { seat.new.table_id ≡ seat.old.table_id }
    ensures sees { Sees seat.old.me seat.new.me }
    ensures reached { (result ≡ length seat.new.me.0.seen) × (result ≢ reached) }
{
    for _ in rt.forever() {
        let found = gate.load::<Look>(seat, MOVES);
        if found != reached {
            return found;
        }
        gate.park(rt, MOVES, (found & 0xffff_ffff) as u32);
    }
    unreachable!()
}
