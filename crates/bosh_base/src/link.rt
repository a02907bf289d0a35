use crate::{CopyFault, Copyable, Name, Text, copy_four, copy_three};
use std::alloc::Global;

/// A link of a job of an instance group.
#[derive(PartialEq, Eq, Drop)]
pub struct Joint {
    pub dep: Name,
    pub group: Name,
    pub job: Name,
    pub link: Name,
}

impl Copyable for Joint {
    fn copy(&self, alloc: Global) -> Result<Self, CopyFault> {
        let (dep, group, job, link) = copy_four(
            &self.dep,
            &self.group,
            &self.job,
            &self.link,
            alloc,
        )?;
        Ok(Joint {
            dep,
            group,
            job,
            link,
        })
    }
}

/// A consumed link and the one that provides it.
#[derive(PartialEq, Eq, Drop)]
pub struct Tie {
    pub consumer: Joint,
    pub provider: Joint,
    /// The type of the link.
    pub kind: Text,
}

impl Copyable for Tie {
    fn copy(&self, alloc: Global) -> Result<Self, CopyFault> {
        let (consumer, provider, kind) = copy_three(
            &self.consumer,
            &self.provider,
            &self.kind,
            alloc,
        )?;
        Ok(Tie {
            consumer,
            provider,
            kind,
        })
    }
}
