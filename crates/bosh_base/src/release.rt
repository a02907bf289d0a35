use crate::{CopyFault, Copyable, Digest, Name, Seq, Text, both, copy_both, copy_four, copy_three};
use std::alloc::Global;

/// The value of a property.
#[derive(PartialEq, Eq, Drop)]
pub enum Setting {
    /// The text that a lookup gives.
    Scalar(Text),
    /// A list or a mapping.
    Compound,
}

impl Copyable for Setting {
    fn copy(&self, alloc: Global) -> Result<Self, CopyFault> {
        match self {
            Setting::Scalar(text) => Ok(Setting::Scalar(text.copy(alloc)?)),
            Setting::Compound => Ok(Setting::Compound),
        }
    }
}

/// A property that has a value.
#[derive(PartialEq, Eq, Drop)]
pub struct Prop {
    pub name: Text,
    pub value: Setting,
}

impl Copyable for Prop {
    fn copy(&self, alloc: Global) -> Result<Self, CopyFault> {
        let (name, value) = copy_both(&self.name, &self.value, alloc)?;
        Ok(Prop { name, value })
    }
}

/// A property that a job declares.
#[derive(PartialEq, Eq, Drop)]
pub struct PropSpec {
    /// Dotted.
    pub name: Text,
    /// Its default.
    pub fallback: Option<Setting>,
}

impl Copyable for PropSpec {
    fn copy(&self, alloc: Global) -> Result<Self, CopyFault> {
        let (name, fallback) = copy_both(&self.name, &self.fallback, alloc)?;
        Ok(PropSpec { name, fallback })
    }
}

/// A link that a job provides or consumes.
#[derive(PartialEq, Eq, Drop)]
pub struct LinkSpec {
    pub name: Name,
    /// The type of the link.
    pub kind: Text,
    pub optional: bool,
    /// Those that a provider lists.
    pub properties: Seq<Text>,
}

impl Copyable for LinkSpec {
    fn copy(&self, alloc: Global) -> Result<Self, CopyFault> {
        let (name, kind, properties) = copy_three(&self.name, &self.kind, &self.properties, alloc)?;
        Ok(LinkSpec {
            name,
            kind,
            optional: self.optional,
            properties,
        })
    }
}

/// A template of a job.
#[derive(PartialEq, Eq, Drop)]
pub struct TemplateSpec {
    /// Its path below the folder of templates.
    pub source: Text,
    /// Its path below the job's folder on a machine.
    pub destination: Text,
    pub text: Text,
}

impl Copyable for TemplateSpec {
    fn copy(&self, alloc: Global) -> Result<Self, CopyFault> {
        let (source, destination, text) = copy_three(
            &self.source,
            &self.destination,
            &self.text,
            alloc,
        )?;
        Ok(TemplateSpec {
            source,
            destination,
            text,
        })
    }
}

/// A job of a release.
#[derive(PartialEq, Eq, Drop)]
pub struct JobSpec {
    pub name: Name,
    pub fingerprint: Digest,
    /// By source.
    pub templates: Seq<TemplateSpec>,
    pub packages: Seq<Name>,
    /// By name.
    pub properties: Seq<PropSpec>,
    pub provides: Seq<LinkSpec>,
    pub consumes: Seq<LinkSpec>,
}

impl Copyable for JobSpec {
    fn copy(&self, alloc: Global) -> Result<Self, CopyFault> {
        let ((name, templates, packages), (properties, provides, consumes)) = both(
            copy_three(&self.name, &self.templates, &self.packages, alloc),
            copy_three(&self.properties, &self.provides, &self.consumes, alloc),
        )?;
        Ok(JobSpec {
            name,
            fingerprint: self.fingerprint,
            templates,
            packages,
            properties,
            provides,
            consumes,
        })
    }
}

/// A package of a release.
#[derive(PartialEq, Eq, Drop)]
pub struct PackageSpec {
    pub name: Name,
    pub fingerprint: Digest,
    /// The packages of the release that it needs compiled.
    pub deps: Seq<Name>,
}

impl Copyable for PackageSpec {
    fn copy(&self, alloc: Global) -> Result<Self, CopyFault> {
        let (name, deps) = copy_both(&self.name, &self.deps, alloc)?;
        Ok(PackageSpec {
            name,
            fingerprint: self.fingerprint,
            deps,
        })
    }
}

/// A release: jobs and packages under one name and version.
#[derive(Drop)]
pub struct Release {
    pub name: Name,
    pub version: Text,
    /// By name.
    pub jobs: Seq<JobSpec>,
    /// By name.
    pub packages: Seq<PackageSpec>,
}

impl Copyable for Release {
    fn copy(&self, alloc: Global) -> Result<Self, CopyFault> {
        let (name, version, jobs, packages) = copy_four(
            &self.name,
            &self.version,
            &self.jobs,
            &self.packages,
            alloc,
        )?;
        Ok(Release {
            name,
            version,
            jobs,
            packages,
        })
    }
}
