use bosh_base::{Addr, Inst, Name};

/// An address that an instance needs on a network.
#[derive(Drop)]
pub struct Want {
    pub inst: Inst,
    pub net: Name,
    /// The availability zone of the instance.
    pub az: Name,
    /// The address that the manifest gives, where it gives one.
    pub fixed: Option<Addr>,
}
