//! Bands in the order of their first addresses.
ghost use Rattle.std.specs.Prelude.{IfOk};
ghost use Rattle.std.specs.List.Sorted.{IsPermutation};
ghost use Rattle.bosh_bands.specs.Order.{IsInOrder};

use bosh_base::Band;
use std::alloc::AllocError;

/// The bands in the order of their first addresses.
pub fn in_order(bands: Vec<Band>) -> Result<Vec<Band>, AllocError>
    ensures order { IfOk result (λ ordered. IsInOrder ordered.items) }
    ensures same { IfOk result (λ ordered. IsPermutation bands.items ordered.items) }
{
    let mut ordered = bands;
    ordered.sort_by_key(|band| band.first.0)?;
    Ok(ordered)
}
