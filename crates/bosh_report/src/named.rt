ghost use Rattle.std.specs.Prelude.{◌≡◌, IfOk};
ghost use Rattle.bosh_report.specs.Owner.{disk_name};

use crate::ReportFault;
use crate::owner::add_disk;
use crate::piece::Piece;
use bosh_base::Text;
use std::alloc::Global;

/// A disk, by its number: `disk-N`.
#[derive(Clone, Copy, Debug, PartialEq, Eq)]
pub struct DiskNumber(pub u64);

impl Piece for DiskNumber {
    ghost text = { λ disk. disk_name disk.0 };

    fn add_to(&self, out: &mut Vec<u8>) -> Result<(), ReportFault> {
        add_disk(out, self.0)
    }
}

/// How replies name a value.
pub fn text_of<T: Piece>(alloc: Global, named: &T) -> Result<Text, ReportFault>
    ensures { IfOk result (λ text. text ≡ T.text named.now) }
{
    let mut out = Vec::new(alloc);
    named.add_to(&mut out)?;
    Ok(Text::from(out))
}
