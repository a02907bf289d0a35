use crate::{Addr, DepOffers, Goal, Key, Name, Owner, Row, Seq};

/// An address, and who holds it.
#[derive(PartialEq, Eq, Drop)]
pub struct Held {
    pub owner: Owner,
    pub net: Name,
    pub addr: Addr,
}

/// What the goal of a deployment depends on beside its manifest.
#[derive(Drop)]
pub struct View {
    /// Its current goal.
    pub goal: Option<Goal>,
    pub rows: Seq<Row>,
    /// The addresses that all others hold.
    pub taken: Seq<Held>,
    /// Those of its own leftover compile machines.
    pub leftover: Seq<Held>,
    pub compiled: Seq<Key>,
    /// The number of the last call.
    pub last_call: u64,
    /// One a recorded deployment.
    pub known: Seq<DepOffers>,
}
