ghost use Rattle.std.specs.Prelude.{◌≡◌, ◌||◌, IfOk};
ghost use Rattle.std.specs.Option.{option_copied};
ghost use Rattle.bosh_asks.specs.Changed.{AreChanged, changed_of, does_not_stand};
ghost use Rattle.bosh_asks.specs.Known.{rows_at};

use crate::pushing::push_where;
use bosh_base::{CopyFault, GoalRow, Inst, Row, Seq, State};
use bosh_records::Records;
use bosh_rows::stands;
use std::alloc::Global;

// An instance of which nothing is recorded stands only where it is to be detached.
fn does_not_stand(row: Option<&Row>, want: &GoalRow) -> bool
    ensures { result ≡ does_not_stand want.now (option_copied row.entry) }
{
    match row {
        Some(row) => !stands(Some(want), row),
        None => want.state != State::Detached,
    }
}

fn is_changed(row: Option<&Row>, want: &GoalRow, all: bool) -> bool
    ensures { result ≡ (all || does_not_stand want.now (option_copied row.entry)) }
{
    all || does_not_stand(row, want)
}

/// Of the instances that a goal wants, those that do not stand as it wants them, or all.
pub(crate) fn changed_of(
    alloc: Global,
    records: &Records,
    wants: &[GoalRow],
    all: bool,
) -> Result<Seq<Inst>, CopyFault>
    ensures over { IfOk result (λ changed. changed ≡ changed_of all wants.now (rows_at records.now wants.now)) }
    ensures ok { IfOk result (AreChanged all wants.now) }
{
    let mut changed = Vec::new(alloc);
    for want in wants {
        let row = records.row(&want.inst);
        let is_changed = is_changed(row, want, all);
        push_where(alloc, is_changed, &want.inst, &mut changed)?;
    }
    Ok(Seq::from(changed))
}
