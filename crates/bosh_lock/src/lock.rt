ghost use Rattle.std.specs.Prelude.{◌≡◌, ◌+◌, ◌-◌, ◌/◌, ◌^◌, ◌≤◌, ◌<◌, ◌∷◌, [], length, IfOk, IfErr, Some, None};
ghost use Rattle.bosh_lock.specs.Extends.{Extends, longer};

use crate::chronicle::Chronicle;
use crate::fault::LockFault;
use crate::gate::{AWAITED, DOOR, FREE, MOVES, WATCHERS, take, watch};
use crate::pass::Pass;
use crate::rule::{Growth, View};
use crate::slots::{one_slot, value_of};
use crate::steps::{Both, Count, Give, Halves, Stay, Weigh};
use crate::turn::Turn;
use atomic_table::{Refused, Table};
use std::alloc::Global;
use std::marker::Model;
use std::snapshot::Snapshot;
use std::sync::Wait;

/// The share of the first pass.
const WHOLE: u64 = 1 << 32;

/// A value behind a lock. Who has a pass may enter, one at a time.
pub struct SiteLock<S: Chronicle> {
    table: Table<Option<S>, View<S::Item>, Snapshot<S>, Growth, Global>,
}

impl<S: Chronicle> Model for SiteLock<S> {
    ghost use Rattle.std.specs.Prelude.{◌≡◌};
    ghost use Rattle.atomic_table.specs.Seated.{TableId, table_id_coded};

    ghost Value = { TableId };

    ghost coded = { table_id_coded };

    ghost view = { λ l. l.table.shared.table_id };

    ghost invariant = { λ l. (l.table.shared.table_id.words ≡ 3) × (l.table.shared.table_id.slots ≡ 1) };
}

impl<S: Chronicle> SiteLock<S> {
    /// A lock round the value, and the first pass, which has all of the share and has seen the value's list. Want of
    /// memory hands the value back.
    pub fn new(alloc: Global, value: S) -> Result<(SiteLock<S>, Pass<S>), (S, LockFault)>
        ensures lock { IfOk result (λ made. made.1.lock ≡ made.0) }
        ensures share { IfOk result (λ made. made.1.share ≡ 2 ^ 32) }
        ensures seen { IfOk result (λ made. made.1.seen ≡ S.items value) }
        ensures refused { IfErr result (λ refused. refused.0 ≡ value) }
    {
        let about = Snapshot::of(&value);
        let reached = value.length();
        let slots = match one_slot(alloc, value) {
            Ok(slots) => slots,
            Err(value) => return Err((value, LockFault::Memory)),
        };
        match Table::new(alloc, &[FREE, reached, 0], slots, &about) {
            Ok((table, seat)) => {
                let pass = Pass {
                    seat,
                    share: WHOLE,
                    reached,
                };
                Ok((SiteLock { table }, pass))
            }
            Err(Refused { slots }) => Err((value_of(slots), LockFault::Memory)),
        }
    }

    /// Cuts a pass in two, the second of half its share, rounded down. Both have seen what it had seen.
    pub fn split(&self, pass: Pass<S>) -> (Pass<S>, Pass<S>)
        requires lock { pass.lock ≡ self.now }
        requires share { 2 ≤ pass.share }
        ensures first { result.0 ≡ record pass { share = pass.share - pass.share / 2 } }
        ensures second { result.1 ≡ record pass { share = pass.share / 2 } }
    {
        let Pass {
            mut seat,
            share,
            reached,
        } = pass;
        let given = self.table.shared.split_seat::<Halves>(&mut seat);
        let half = share / 2;
        let first = Pass {
            seat,
            share: share - half,
            reached,
        };
        let second = Pass {
            seat: given,
            share: half,
            reached,
        };
        (first, second)
    }

    /// Makes two passes one, which has both their shares and has seen the longer of what both have seen. As both are
    /// beginnings of one list, it extends either.
    pub fn join(&self, one: Pass<S>, other: Pass<S>) -> Pass<S>
        requires one { one.lock ≡ self.now }
        requires other { other.lock ≡ self.now }
        ensures joined { result ≡ record one { share = one.share + other.share; seen = longer one.seen other.seen } }
        ensures one { Extends one.seen result.seen }
        ensures other { Extends other.seen result.seen }
    {
        let Pass {
            mut seat,
            share,
            reached,
        } = one;
        let Pass {
            seat: given,
            share: more,
            reached: further,
        } = other;
        self.table.shared.join_seat::<Both>(&mut seat, given);
        self.table.shared.load::<Weigh>(&mut seat, WATCHERS);
        Pass {
            seat,
            share: share + more,
            reached: if reached < further { further } else { reached },
        }
    }

    /// Enters, once nobody else is in. The value's list then extends what the pass has seen.
    pub fn enter<R: Wait>(&self, rt: &R, pass: Pass<S>) -> Turn<S>
        requires lock { pass.lock ≡ self.now }
        ensures lock { result.lock ≡ self.now }
        ensures share { result.share ≡ pass.share }
        ensures entered { result.entered ≡ S.items result.value }
        ensures extends { Extends pass.seen result.entered }
    {
        let Pass {
            mut seat,
            share,
            reached: _,
        } = pass;
        let gate = &self.table.shared;
        take(rt, gate, &mut seat);
        let Some(value) = gate.exchange(&mut seat, 0, None) else {
            unreachable!()
        };
        Turn { seat, share, value }
    }

    /// Leaves, and wakes who waits. The value's list has to extend that at `enter`; the pass has seen it.
    pub fn leave(&self, turn: Turn<S>) -> Pass<S>
        requires lock { turn.lock ≡ self.now }
        requires extends { Extends turn.entered (S.items turn.value) }
        ensures lock { result.lock ≡ self.now }
        ensures share { result.share ≡ turn.share }
        ensures seen { result.seen ≡ S.items turn.value }
    {
        let Turn {
            mut seat,
            share,
            value,
        } = turn;
        let gate = &self.table.shared;
        let reached = value.length();
        let before = gate.exchange(&mut seat, 0, Some(value));
        let None = before else { unreachable!() };
        gate.store::<Count>(&mut seat, MOVES, reached);
        if gate.swap::<Give>(&mut seat, DOOR, FREE) == AWAITED {
            gate.wake_one(DOOR);
        }
        if gate.peek(WATCHERS) > 0 {
            gate.wake_all(MOVES);
        }
        Pass {
            seat,
            share,
            reached,
        }
    }

    /// Waits until the list is longer than what the pass has seen. What it has seen then extends that.
    pub fn await_change<R: Wait>(&self, rt: &R, pass: Pass<S>) -> Pass<S>
        requires lock { pass.lock ≡ self.now }
        ensures lock { result.lock ≡ self.now }
        ensures share { result.share ≡ pass.share }
        ensures extends { Extends pass.seen result.seen }
        ensures longer { length pass.seen < length result.seen }
    {
        let Pass {
            mut seat,
            share,
            reached,
        } = pass;
        let gate = &self.table.shared;
        gate.fetch_add::<Stay>(&mut seat, WATCHERS, 1);
        let reached = watch(rt, gate, &mut seat, reached);
        gate.fetch_sub::<Stay>(&mut seat, WATCHERS, 1);
        Pass {
            seat,
            share,
            reached,
        }
    }

    /// Ends the lock, and gives the value back. No other pass or turn is left, since this one has all of the share.
    pub fn close(self, pass: Pass<S>) -> S
        requires lock { pass.lock ≡ self }
        requires share { pass.share ≡ 2 ^ 32 }
        ensures { Extends pass.seen (S.items result) }
    {
        let SiteLock { table } = self;
        let Pass {
            seat,
            share: _,
            reached: _,
        } = pass;
        let mut closed = table.close_with(seat);
        let slot = closed.take(0);
        closed.free();
        let Some(value) = slot else { unreachable!() };
        value
    }
}
