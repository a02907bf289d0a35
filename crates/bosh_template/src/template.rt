use bosh_base::{Seq, Text};

/// A word that stands behind `spec.`.
#[derive(Clone, Copy, Debug, PartialEq, Eq)]
pub enum SpecWord {
    /// The instance group.
    Name,
    /// The place of the instance in its group, from 0.
    Index,
    /// The availability zone.
    Az,
    /// The address on the gateway's network.
    Address,
    Deployment,
    /// Whether the index is 0.
    Bootstrap,
}

/// A part of a template. A `fallback` is the text of the literal that the lookup gives, if it gives one.
#[derive(PartialEq, Eq, Drop)]
pub enum Part {
    /// Text that stands as it is written.
    Literal(Text),
    /// A property of the job.
    Own {
        name: Text,
        fallback: Option<Text>,
    },
    /// A property that the provider of a link lists.
    Linked {
        link: Text,
        name: Text,
        fallback: Option<Text>,
    },
    /// The address of one instance of a link's provider.
    OneAddr {
        link: Text,
        index: u32,
    },
    /// The addresses of all instances of a link's provider, with a text between any two.
    AllAddrs {
        link: Text,
        between: Text,
    },
    /// A fact of the instance itself.
    Word(SpecWord),
}

/// A template: literal text and lookups.
#[derive(PartialEq, Eq, Drop)]
pub struct Template {
    /// No two literals stand side by side, and none is empty.
    pub parts: Seq<Part>,
}
