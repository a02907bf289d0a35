use crate::{CopyFault, Copyable, Digest, Name, Seq, Text, copy_both, copy_three};
use std::alloc::Global;

/// A job or package with the fingerprint of its contents.
#[derive(PartialEq, Eq, Drop)]
pub struct Mark {
    pub name: Name,
    pub fingerprint: Digest,
}

impl Copyable for Mark {
    fn copy(&self, alloc: Global) -> Result<Self, CopyFault> {
        Ok(Mark {
            name: self.name.copy(alloc)?,
            fingerprint: self.fingerprint,
        })
    }
}

/// A rendered file, and where it lies on the machine.
#[derive(PartialEq, Eq, Drop)]
pub struct Placed {
    pub path: Text,
    pub text: Text,
}

impl Copyable for Placed {
    fn copy(&self, alloc: Global) -> Result<Self, CopyFault> {
        let (path, text) = copy_both(&self.path, &self.text, alloc)?;
        Ok(Placed { path, text })
    }
}

/// What is applied to a machine.
#[derive(PartialEq, Eq, Drop)]
pub struct Spec {
    /// In the order of the manifest.
    pub jobs: Seq<Mark>,
    /// The jobs' own packages, without repeats.
    pub packages: Seq<Mark>,
    /// By job, and then by the path of the template.
    pub files: Seq<Placed>,
}

impl Copyable for Spec {
    fn copy(&self, alloc: Global) -> Result<Self, CopyFault> {
        let (jobs, packages, files) = copy_three(&self.jobs, &self.packages, &self.files, alloc)?;
        Ok(Spec {
            jobs,
            packages,
            files,
        })
    }
}
