ghost use Rattle.std.specs.Prelude.{◌≡◌, false, IsOk, OnOk, OnErr};
ghost use Rattle.bosh_rows.specs.After.{bare, begun_row, leaves_doubt};

use crate::RowFault;
use crate::place::put;
use bosh_base::{Call, Copyable, Doubt, Inst, Row, Seq, copy_both};
use std::alloc::Global;

/// What is recorded of an instance of which no entry tells. It takes no memory.
pub fn bare(alloc: Global, inst: Inst) -> Row
    ensures { result ≡ bare inst }
{
    Row {
        inst,
        make: None,
        vm: None,
        spec: None,
        running: false,
        drained: false,
        disks: Seq::new(alloc),
        doubt: None,
        lost: false,
    }
}

/// What is recorded of an instance, once the call `n` began: a changing call is in doubt until it is answered, but for
/// a migration, and the creation of a machine tells what it is made from.
pub fn begin(alloc: Global, row: &mut Row, n: u64, call: &Call) -> Result<(), RowFault>
    ensures ok { OnOk result (row.new ≡ begun_row n call.now row.old) }
    ensures err { OnErr result (row.new ≡ row.old) }
    ensures succeeds { leaves_doubt call.now ≡ false → IsOk result }
{
    match call {
        Call::CreateVm { make, .. } => {
            let (make, call) = copy_both(make, call, alloc)?;
            put(&mut row.make, Some(make));
            put(&mut row.doubt, Some(Doubt { n, call }));
        }
        Call::MigrateDisk { .. } => {}
        _ if call.method().is_changing() => {
            let call = call.copy(alloc)?;
            put(&mut row.doubt, Some(Doubt { n, call }));
        }
        _ => {}
    }
    Ok(())
}
