//! Cloud configs.
use crate::networks::use_of;
use bosh_base::{Band, Name, Seq, Subnet};
use bosh_cloudcfg::{Compilation, Config, check};
use bosh_yaml::Node;
use cases_files::{config, node_of, outcome};
use cases_given::{CaseFault, Outcome, timed};
use cases_words::Told;
use std::alloc::Global;
use std::fmt;
use std::rt::Clock;
use std::time::Duration;

// A cloud config in words: a line for each of its parts.
#[derive(Clone, Copy)]
struct ConfigTold<'a>(&'a Config);

/// Adds a blank and a name for each of some names.
pub(crate) fn add_names<W: fmt::Write>(
    f: &mut fmt::Formatter<W>,
    names: &Seq<Name>,
) -> fmt::Result {
    for name in names {
        write!(f, " {}", Told(name))?;
    }
    Ok(())
}

/// Adds each of some bands behind a word.
pub(crate) fn add_bands<W: fmt::Write>(
    f: &mut fmt::Formatter<W>,
    word: &str,
    bands: &Seq<Band>,
) -> fmt::Result {
    for band in bands {
        write!(f, "{word} {}", Told(band))?;
    }
    Ok(())
}

fn add_subnet<W: fmt::Write>(f: &mut fmt::Formatter<W>, subnet: &Subnet) -> fmt::Result {
    write!(f, "\nsubnet {} {}", Told(&subnet.net), Told(&subnet.range))?;
    if let Some(gateway) = subnet.gateway {
        write!(f, " gateway {}", Told(&gateway))?;
    }
    add_bands(f, " reserved", &subnet.reserved)?;
    add_bands(f, " static", &subnet.fixed)?;
    f.write_str(" in")?;
    add_names(f, &subnet.azs)
}

fn add_subnets<W: fmt::Write>(f: &mut fmt::Formatter<W>, config: &Config) -> fmt::Result {
    for subnet in &config.plan.subnets {
        add_subnet(f, subnet)?;
    }
    Ok(())
}

fn add_kinds<W: fmt::Write>(f: &mut fmt::Formatter<W>, config: &Config) -> fmt::Result {
    for kind in &config.vm_types {
        write!(f, "\nvm {} {}", Told(&kind.name), Told(&kind.properties))?;
    }
    for kind in &config.disk_types {
        let (name, size) = (Told(&kind.name), kind.want.size);
        write!(f, "\ndisk {name} {size} {}", Told(&kind.want.properties))?;
    }
    Ok(())
}

fn add_compilation<W: fmt::Write>(f: &mut fmt::Formatter<W>, it: &Compilation) -> fmt::Result {
    let (workers, az) = (it.workers, Told(&it.az));
    let (vm_type, network) = (Told(&it.vm_type), Told(&it.network));
    write!(f, "\ncompilation {workers} {az} {vm_type} {network}\n")
}

impl fmt::Display for ConfigTold<'_> {
    fn fmt<W: fmt::Write>(&self, f: &mut fmt::Formatter<W>) -> fmt::Result {
        f.write_str("azs")?;
        add_names(f, &self.0.azs)?;
        f.write_str("\nnetworks")?;
        add_names(f, &self.0.networks)?;
        add_subnets(f, self.0)?;
        add_kinds(f, self.0)?;
        add_compilation(f, &self.0.compilation)
    }
}

fn told(alloc: Global, config: &Config) -> Result<Vec<u8>, CaseFault> {
    Ok(format!(in alloc; "{}", ConfigTold(config))?.into_bytes())
}

/// What a text is checked as.
pub(crate) fn checked(alloc: Global, given: &Node) -> Result<Outcome, CaseFault> {
    let node = node_of(alloc, given)?;
    outcome(alloc, check(alloc, &node), told)
}

/// To whom the config of the setting gives an address of a network in a zone.
pub(crate) fn address(alloc: Global, setting: &Node, given: &Node) -> Result<Outcome, CaseFault> {
    let config = config(alloc, setting)?;
    use_of(alloc, &config.plan, given)
}

/// The time to check a config.
pub(crate) fn time_of_check(
    clock: &impl Clock,
    alloc: Global,
    given: &Node,
    rounds: u32,
) -> Result<Duration, CaseFault> {
    let node = node_of(alloc, given)?;
    timed(clock, rounds, || check(alloc, &node).is_ok())
}
