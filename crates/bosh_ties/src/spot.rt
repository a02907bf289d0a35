ghost use Rattle.std.specs.Prelude.{◌≡◌, IfOk};
ghost use Rattle.bosh_ties.specs.Links.{joint_of};
ghost use Rattle.bosh_ties.specs.Spot.{spot_joint};

use bosh_base::{CopyFault, Joint, LinkSpec, Name, copy_four};
use bosh_manifest_names::UsedJob;
use std::alloc::Global;

/// Where a link stands: of which deployment, group and job it is.
#[derive(Clone, Copy)]
pub struct Spot<'a> {
    pub dep: &'a Name,
    pub group: &'a Name,
    pub job: &'a Name,
    pub link: &'a LinkSpec,
}

impl<'a> Spot<'a> {
    pub fn of(dep: &'a Name, group: &'a Name, job: &UsedJob<'a>, link: &'a LinkSpec) -> Spot<'a>
        ensures joint { spot_joint result ≡ joint_of dep.now group.now job.now link.now }
        ensures link { result.link.now ≡ link.now }
    {
        Spot {
            dep,
            group,
            job: &job.job().name,
            link,
        }
    }

    pub(crate) fn joint(self, alloc: Global) -> Result<Joint, CopyFault>
        ensures { IfOk result (λ joint. joint ≡ spot_joint self.entry) }
    {
        let (dep, group, job, link) = copy_four(
            self.dep,
            self.group,
            self.job,
            &self.link.name,
            alloc,
        )?;
        Ok(Joint {
            dep,
            group,
            job,
            link,
        })
    }
}
