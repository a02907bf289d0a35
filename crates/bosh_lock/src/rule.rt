use crate::chronicle::Chronicle;
use atomic_table::TableRule;
use std::collections::LinkedList;
use std::snapshot::Snapshot;

/// What a pass or a turn knows of its lock. No value of it is made.
pub struct View<I> {
    /// How much it has of 2^32.
    pub share: u64,
    /// The list that it has seen.
    pub seen: LinkedList<I>,
    /// The shorter of the two lists that were seen before the last join.
    pub joined: LinkedList<I>,
    /// Whether the slot is out with it.
    pub holds: bool,
}

/// The rule of a lock: one list grows, and all have seen beginnings of it.
pub struct Growth;

impl<S: Chronicle> TableRule<Option<S>, View<S::Item>, Snapshot<S>> for Growth {
    ghost use Rattle.bosh_lock.specs.Grows.{first_view, Grows};

    ghost holds = { λ _. Grows S.items };

    ghost first = { λ value. first_view (S.items value.value) };
}
