use bosh_base::{Joint, Text};

/// Where a consumer's provider is sought.
#[derive(PartialEq, Eq, Drop)]
pub enum Source {
    /// Among the providers of the consumer's type.
    Implicit,
    /// Under the public name that `from` gives.
    Named(Text),
    /// Nowhere: the manifest gives `nil`.
    Blocked,
}

/// A link that a job of an instance group consumes.
#[derive(PartialEq, Eq, Drop)]
pub struct Consumer {
    pub joint: Joint,
    /// The type of the link.
    pub kind: Text,
    pub optional: bool,
    pub from: Source,
}
