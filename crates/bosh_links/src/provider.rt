use bosh_base::{Joint, Text};

/// A link that a job of an instance group provides.
#[derive(PartialEq, Eq, Drop)]
pub struct Provider {
    pub joint: Joint,
    /// The type of the link.
    pub kind: Text,
    /// The alias that `as` gives, or the link's own name where there is none.
    pub public_name: Text,
}
