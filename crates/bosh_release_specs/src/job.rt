use bosh_base::{LinkSpec, Name, PropSpec, Seq, Text};

/// Where a template lies, and where its text goes.
#[derive(Drop)]
pub struct TemplatePlace {
    /// Its path below the job's folder of templates.
    pub source: Text,
    /// Its path below the job's folder on a machine.
    pub destination: Text,
}

/// What the spec of a job says.
#[derive(Drop)]
pub struct JobDescription {
    pub name: Name,
    /// By source.
    pub templates: Seq<TemplatePlace>,
    pub packages: Seq<Name>,
    /// By name.
    pub properties: Seq<PropSpec>,
    pub provides: Seq<LinkSpec>,
    pub consumes: Seq<LinkSpec>,
}
