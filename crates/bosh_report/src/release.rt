ghost use Rattle.std.specs.Prelude.{◌≡◌, ◌++◌, OnOk};
ghost use Rattle.bosh_report.specs.Release.{compiled_line, mark_line, release_added, release_lines, release_there, stemcell_added, stemcell_there, versioned};

use crate::ReportFault;
use crate::piece::{Piece, add, add_each_after, add_number};
use bosh_base::{BuiltKey, Mark, Name, ReleaseAdded, ReleaseLine, ReleaseThere, Stemcell, Text};

/// `NAME/VERSION`
fn add_versioned(out: &mut Vec<u8>, name: &[u8], version: &Text) -> Result<(), ReportFault>
    ensures { OnOk result (out.new.items ≡ out.old.items ++ versioned name.now version.now) }
{
    add(out, name)?;
    add(out, b"/")?;
    version.add_to(out)
}

impl Piece for ReleaseAdded {
    ghost text = { release_added };

    fn add_to(&self, out: &mut Vec<u8>) -> Result<(), ReportFault> {
        add(out, b"release ")?;
        add_versioned(out, self.name.as_bytes(), &self.version)?;
        add(out, b": ")?;
        add_number(out, self.jobs)?;
        add(out, b" jobs, ")?;
        add_number(out, self.packages)?;
        add(out, b" packages\n")
    }
}

impl Piece for ReleaseThere {
    ghost text = { release_there };

    fn add_to(&self, out: &mut Vec<u8>) -> Result<(), ReportFault> {
        add(out, b"release ")?;
        add_versioned(out, self.name.as_bytes(), &self.version)?;
        add(out, b" already there\n")
    }
}

pub(crate) fn add_stemcell(out: &mut Vec<u8>, stemcell: &Stemcell) -> Result<(), ReportFault>
    ensures { OnOk result (out.new.items ≡ out.old.items ++ stemcell_added stemcell.now) }
{
    add(out, b"stemcell ")?;
    add_versioned(out, stemcell.os.as_bytes(), &stemcell.version)?;
    add(out, b"\n")
}

pub(crate) fn add_stemcell_there(out: &mut Vec<u8>, stemcell: &Stemcell) -> Result<(), ReportFault>
    ensures { OnOk result (out.new.items ≡ out.old.items ++ stemcell_there stemcell.now) }
{
    add(out, b"stemcell ")?;
    add_versioned(out, stemcell.os.as_bytes(), &stemcell.version)?;
    add(out, b" already there\n")
}

/// A job or a package, after the word for which of the two it is.
impl Piece for Mark {
    ghost text = { mark_line };

    fn add_to(&self, out: &mut Vec<u8>) -> Result<(), ReportFault> {
        self.name.add_to(out)?;
        add(out, b" ")?;
        self.fingerprint.add_to(out)?;
        add(out, b"\n")
    }
}

/// A release, and then its jobs and packages.
impl Piece for ReleaseLine {
    ghost text = { release_lines };

    fn add_to(&self, out: &mut Vec<u8>) -> Result<(), ReportFault> {
        add(out, b"release ")?;
        add_versioned(out, self.name.as_bytes(), &self.version)?;
        add(out, b"\n")?;
        add_each_after(out, b"job ", self.jobs.as_slice())?;
        add_each_after(out, b"package ", self.packages.as_slice())
    }
}

/// A compiled package.
impl Piece for BuiltKey {
    ghost text = { compiled_line };

    fn add_to(&self, out: &mut Vec<u8>) -> Result<(), ReportFault> {
        self.name.add_to(out)?;
        add(out, b" ")?;
        self.key.fingerprint.add_to(out)?;
        add(out, b" ")?;
        add_versioned(out, self.key.os.as_slice(), &self.key.version)?;
        add(out, b" ")?;
        self.digest.add_to(out)?;
        add(out, b"\n")
    }
}
