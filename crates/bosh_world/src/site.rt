ghost use Rattle.bosh_book.specs.Running.{is_stopped};
ghost use Rattle.bosh_world.specs.IsSite.{IsSite};

use crate::Armed;
use bosh_book::Book;
use bosh_calls::Calls;
use bosh_cloud::SimCloud;
use bosh_moves::History;
use bosh_ports::{Keeper, Rigged};
use std::alloc::Global;

/// What the director knows, the simulated cloud, and the history of their moves.
#[derive(Drop)]
pub struct Site<K: Keeper, L: Keeper> {
    pub(crate) alloc: Global,
    pub(crate) book: Book<Rigged<K>>,
    pub(crate) cloud: SimCloud<L>,
    pub(crate) history: History,
    /// The calls that are open.
    pub(crate) calls: Calls,
    /// The traps that stop the director and have not fired.
    pub(crate) traps: Vec<Armed>,
    /// How many entries and effects there were before the first move.
    pub(crate) opening: (u64, u64),
    /// The moves tell no more entries than there are, and a site that has not halted goes on.
    ghost is_site: { IsSite book.journal.entries (is_stopped book) cloud.is_stale history },
}
