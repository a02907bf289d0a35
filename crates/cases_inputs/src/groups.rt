//! Groups, their jobs and the links of these, in words.
use crate::configs::{add_bands, add_names};
use bosh_base::{Count, Seq};
use bosh_manifest::Group;
use bosh_manifest_parts::{Consume, DiskUse, JobUse, NetUse, Offering, Origin, Provide};
use bosh_manifest_update::Update;
use bosh_yaml::canon;
use cases_given::CaseFault;
use cases_words::{Flag, Told, push};
use std::alloc::Global;
use std::fmt;

#[derive(Clone, Copy)]
struct Counted(Count);

#[derive(Clone, Copy)]
struct Title<'a>(&'a Group);

#[derive(Clone, Copy)]
struct Links<'a>(&'a JobUse);

impl fmt::Display for Counted {
    fn fmt<W: fmt::Write>(&self, f: &mut fmt::Formatter<W>) -> fmt::Result {
        match self.0 {
            Count::Whole(number) => write!(f, "{number}"),
            Count::Percent(share) => write!(f, "{share}%"),
        }
    }
}

fn add_update<W: fmt::Write>(f: &mut fmt::Formatter<W>, update: Update) -> fmt::Result {
    let (canaries, limit) = (Counted(update.canaries), Counted(update.limit));
    write!(
        f,
        " canaries {canaries} limit {limit}{}",
        Flag(update.serial, "serial")
    )
}

fn add_disk<W: fmt::Write>(f: &mut fmt::Formatter<W>, disk: &Option<DiskUse>) -> fmt::Result {
    match disk {
        Some(DiskUse::Size(size)) => write!(f, " disk {size}"),
        Some(DiskUse::Kind(kind)) => write!(f, " disk of {}", Told(kind)),
        None => Ok(()),
    }
}

fn add_networks<W: fmt::Write>(f: &mut fmt::Formatter<W>, networks: &Seq<NetUse>) -> fmt::Result {
    for network in networks {
        write!(f, "network {}", Told(&network.net))?;
        add_bands(f, "", &network.fixed)?;
        write!(f, "{}\n", Flag(network.gateway, "gateway"))?;
    }
    Ok(())
}

/// The line of a group, and those of its networks.
impl fmt::Display for Title<'_> {
    fn fmt<W: fmt::Write>(&self, f: &mut fmt::Formatter<W>) -> fmt::Result {
        let (name, instances) = (Told(&self.0.name), self.0.instances);
        let (vm_type, stemcell) = (Told(&self.0.vm_type), Told(&self.0.stemcell));
        write!(f, "group {name} {instances} {vm_type} {stemcell}")?;
        add_disk(f, &self.0.disk)?;
        add_update(f, self.0.update)?;
        f.write_str(" in")?;
        add_names(f, &self.0.azs)?;
        f.write_str("\n")?;
        add_networks(f, &self.0.networks)
    }
}

fn add_offering<W: fmt::Write>(f: &mut fmt::Formatter<W>, offering: &Offering) -> fmt::Result {
    if let Some(alias) = &offering.alias {
        write!(f, " as {}", Told(alias))?;
    }
    write!(f, "{}", Flag(offering.shared, "shared"))
}

fn add_origin<W: fmt::Write>(f: &mut fmt::Formatter<W>, origin: &Origin) -> fmt::Result {
    if let Some(from) = &origin.from {
        write!(f, " from {}", Told(from))?;
    }
    match &origin.deployment {
        Some(deployment) => write!(f, " of {}", Told(deployment)),
        None => Ok(()),
    }
}

fn add_provides<W: fmt::Write>(f: &mut fmt::Formatter<W>, provides: &Seq<Provide>) -> fmt::Result {
    for provide in provides {
        write!(f, "\nprovides {}", Told(&provide.link))?;
        match &provide.offering {
            Some(offering) => add_offering(f, offering)?,
            None => f.write_str(" nil")?,
        }
    }
    Ok(())
}

fn add_consumes<W: fmt::Write>(f: &mut fmt::Formatter<W>, consumes: &Seq<Consume>) -> fmt::Result {
    for consume in consumes {
        write!(f, "\nconsumes {}", Told(&consume.link))?;
        match &consume.origin {
            Some(origin) => add_origin(f, origin)?,
            None => f.write_str(" nil")?,
        }
    }
    Ok(())
}

/// The lines of what a job provides and consumes.
impl fmt::Display for Links<'_> {
    fn fmt<W: fmt::Write>(&self, f: &mut fmt::Formatter<W>) -> fmt::Result {
        add_provides(f, &self.0.provides)?;
        add_consumes(f, &self.0.consumes)?;
        f.write_str("\n")
    }
}

fn push_properties(alloc: Global, text: &mut Vec<u8>, job: &JobUse) -> Result<(), CaseFault> {
    let properties = canon(alloc, job.properties.as_node())?;
    Ok(text.extend_from_slice(properties.as_slice())?)
}

fn push_job(alloc: Global, text: &mut Vec<u8>, job: &JobUse) -> Result<(), CaseFault> {
    let title = format!(in alloc; "job {} {} ", Told(&job.name), Told(&job.release))?;
    text.extend_from_slice(title.as_bytes())?;
    push_properties(alloc, text, job)?;
    Ok(push(alloc, text, &Links(job))?)
}

/// Adds the lines of a group: its own, and those of its networks, of its jobs and of their links.
pub(crate) fn push_group(
    alloc: Global,
    text: &mut Vec<u8>,
    group: &Group,
) -> Result<(), CaseFault> {
    push(alloc, text, &Title(group))?;
    for job in &group.jobs {
        push_job(alloc, text, job)?;
    }
    Ok(())
}
