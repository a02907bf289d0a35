//! A link that another deployment is to provide.
ghost use Rattle.std.specs.Prelude.{◌≡◌, IfOk};
ghost use Rattle.bosh_share.specs.Shared.{consumer_of, source_of};

use bosh_base::{CopyFault, Copyable, Joint, Name, Text, copy_both};
use bosh_links::{Consumer, Source};
use std::alloc::Global;

/// A link that a job of an instance group consumes from another deployment.
#[derive(Drop)]
pub struct Across {
    pub consumer: Joint,
    /// The type of the link.
    pub kind: Text,
    pub optional: bool,
    /// The deployment that is to provide it.
    pub dep: Name,
    /// The public name that `from` gives.
    pub from: Option<Text>,
}

fn source_of(alloc: Global, from: &Option<Text>) -> Result<Source, CopyFault>
    ensures { IfOk result (λ source. source ≡ source_of from.now) }
{
    match from {
        None => Ok(Source::Implicit),
        Some(name) => Ok(Source::Named(name.copy(alloc)?)),
    }
}

impl Across {
    /// The consumer as one of a deployment of its own.
    pub(crate) fn consumer(&self, alloc: Global) -> Result<Consumer, CopyFault>
        ensures { IfOk result (λ consumer. consumer ≡ consumer_of self.now) }
    {
        let from = source_of(alloc, &self.from)?;
        let (joint, kind) = copy_both(&self.consumer, &self.kind, alloc)?;
        Ok(Consumer {
            joint,
            kind,
            optional: self.optional,
            from,
        })
    }
}
