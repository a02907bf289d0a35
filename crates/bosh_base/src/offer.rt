use crate::{Addr, CopyFault, Copyable, Joint, Name, Prop, Seq, Text, both, copy_both, copy_three};
use std::alloc::Global;

/// A link that its deployment shares with others.
#[derive(Drop)]
pub struct Offer {
    pub joint: Joint,
    /// The type of the link.
    pub kind: Text,
    pub public_name: Text,
    /// Of the provider's instances, by index.
    pub addrs: Seq<Addr>,
    /// The properties that the job lists for the link.
    pub listed: Seq<Text>,
    /// Those of them that have a value.
    pub properties: Seq<Prop>,
}

impl Copyable for Offer {
    fn copy(&self, alloc: Global) -> Result<Self, CopyFault> {
        let ((joint, kind, public_name), (addrs, listed, properties)) = both(
            copy_three(&self.joint, &self.kind, &self.public_name, alloc),
            copy_three(&self.addrs, &self.listed, &self.properties, alloc),
        )?;
        Ok(Offer {
            joint,
            kind,
            public_name,
            addrs,
            listed,
            properties,
        })
    }
}

/// What a recorded deployment offers to others.
#[derive(Drop)]
pub struct DepOffers {
    pub dep: Name,
    pub offers: Seq<Offer>,
}

impl Copyable for DepOffers {
    fn copy(&self, alloc: Global) -> Result<Self, CopyFault> {
        let (dep, offers) = copy_both(&self.dep, &self.offers, alloc)?;
        Ok(DepOffers { dep, offers })
    }
}
