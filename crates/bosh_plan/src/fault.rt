ghost use Rattle.std.specs.Prelude.{◌≡◌, IfOk, Ok};

use bosh_records::RecordsFault;
use bosh_rows::RowFault;

/// What was made of a row, or that there was no memory for it.
pub(crate) fn recorded<T: Drop>(made: Result<T, RowFault>) -> Result<T, RecordsFault>
    ensures { IfOk result (λ it. made ≡ Ok it) }
{
    match made {
        Ok(made) => Ok(made),
        Err(RowFault::Memory) => Err(RecordsFault::Memory),
    }
}
