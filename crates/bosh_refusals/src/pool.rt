ghost use Rattle.bosh_refusals.specs.Told.{pool_told};

use crate::Refuses;
use crate::refusal::{refused_both, refused_with};
use bosh_base::Refusal;
use bosh_pool::PoolFault;
use bosh_report::ReportFault;
use std::alloc::Global;

impl Refuses for PoolFault {
    ghost told = { pool_told };

    fn refusal(&self, alloc: Global) -> Result<Refusal, ReportFault> {
        match self {
            PoolFault::StaticCount { group } => refused_with(alloc, b"pool", b"StaticCount", group),
            PoolFault::NotStatic { addr } => refused_with(alloc, b"pool", b"NotStatic", addr),
            PoolFault::StaticNotInAz { addr } => {
                refused_with(alloc, b"pool", b"StaticNotInAz", addr)
            }
            PoolFault::Taken { addr, owner } => refused_both(alloc, b"pool", b"Taken", addr, owner),
            PoolFault::Empty { net } => refused_with(alloc, b"pool", b"Empty", net),
            PoolFault::Memory => Err(ReportFault::Memory),
        }
    }
}
