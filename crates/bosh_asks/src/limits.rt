ghost use Rattle.std.specs.Prelude.{◌≡◌, IfErr, OnOk, false, true};
ghost use Rattle.bosh_asks.specs.Known.{is_recorded, lacks_room};
ghost use Rattle.bosh_asks.specs.Recorded.{is_full};
ghost use Rattle.bosh_asks.specs.declared.fault.BookFault.TheVariants.{Limit};

use crate::BookFault;
use bosh_base::{DepRow, Name};
use bosh_records::{Records, Since};
use std::collections::btree_map::Iter;

// The most deployments that may be recorded.
const MOST_DEPLOYMENTS: usize = 64;

fn is_full(rows: Iter<'_, Since, Option<DepRow>>) -> bool
    ensures { result ≡ is_full rows.entry }
{
    let mut count = 0usize;
    for (_, row) in rows {
        if row.is_some() {
            count += 1;
        }
        if count == MOST_DEPLOYMENTS {
            return true;
        }
    }
    false
}

fn is_recorded(records: &Records, dep: &Name) -> bool
    ensures { result ≡ is_recorded records.now dep.now }
{
    records.deployment(dep).is_some()
}

/// That a deployment is recorded already, or that there may be one more.
pub(crate) fn check_limit(records: &Records, dep: &Name) -> Result<(), BookFault>
    ensures room { OnOk result (lacks_room records.now dep.now ≡ false) }
    ensures full { IfErr result (λ fault. (fault ≡ Limit) × (lacks_room records.now dep.now ≡ true)) }
{
    if !is_recorded(records, dep) && is_full(records.deployments()) {
        return Err(BookFault::Limit);
    }
    Ok(())
}
