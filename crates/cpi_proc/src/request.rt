use bosh_base::{Call, Name, Owner};

/// A call that a program is asked to perform.
#[derive(Drop)]
pub struct Request {
    /// The number of the call.
    pub n: u64,
    /// Whom the call is for.
    pub owner: Owner,
    /// The deployment.
    pub dep: Name,
    pub call: Call,
}
