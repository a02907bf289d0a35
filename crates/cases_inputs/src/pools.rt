//! Addresses of instances.
use bosh_base::{Addr, Held, NetPlan, Seq};
use bosh_pool::{PoolFault, Want, assign};
use bosh_yaml::Node;
use cases_files::{config, outcome};
use cases_given::{CaseFault, Outcome, all, both, field, timed, two};
use cases_words::Told;
use std::alloc::Global;
use std::fmt;
use std::rt::Clock;
use std::time::Duration;

// Who asks for addresses, what others hold, and what those that ask hold.
#[derive(Drop)]
struct Asked {
    wants: Seq<Want>,
    taken: Seq<Held>,
    kept: Seq<Held>,
}

#[derive(Clone, Copy)]
struct Addrs<'a>(&'a Seq<Addr>);

impl fmt::Display for Addrs<'_> {
    fn fmt<W: fmt::Write>(&self, f: &mut fmt::Formatter<W>) -> fmt::Result {
        for addr in self.0 {
            write!(f, " {}", Told(addr))?;
        }
        Ok(())
    }
}

fn want(alloc: Global, node: &Node) -> Result<Want, CaseFault> {
    let fixed = field(alloc, node, "fixed")?;
    let place = two(alloc, node, ["net", "zone"]);
    let (inst, (net, az)) = both(field(alloc, node, "inst"), place)?;
    Ok(Want {
        inst,
        net,
        az,
        fixed,
    })
}

fn held(alloc: Global, node: &Node) -> Result<Held, CaseFault> {
    let addr = field(alloc, node, "addr")?;
    let (owner, net) = two(alloc, node, ["owner", "net"])?;
    Ok(Held { owner, net, addr })
}

fn asked_of(alloc: Global, given: &Node) -> Result<Asked, CaseFault> {
    let holders = both(
        all(alloc, given, "taken", held),
        all(alloc, given, "kept", held),
    );
    let (wants, (taken, kept)) = both(all(alloc, given, "wants", want), holders)?;
    Ok(Asked { wants, taken, kept })
}

fn told(alloc: Global, addrs: &Seq<Addr>) -> Result<Vec<u8>, CaseFault> {
    Ok(format!(in alloc; "{}", Addrs(addrs))?.into_bytes())
}

fn addrs_of(alloc: Global, asked: &Asked, plan: &NetPlan) -> Result<Seq<Addr>, PoolFault> {
    let (taken, kept) = (asked.taken.as_slice(), asked.kept.as_slice());
    assign(alloc, asked.wants.as_slice(), plan, taken, kept)
}

/// The addresses of wants, under the config of the setting.
pub(crate) fn assigned(alloc: Global, setting: &Node, given: &Node) -> Result<Outcome, CaseFault> {
    let (config, asked) = both(config(alloc, setting), asked_of(alloc, given))?;
    outcome(alloc, addrs_of(alloc, &asked, &config.plan), told)
}

/// The time to assign them.
pub(crate) fn time_of_assign(
    clock: &impl Clock,
    alloc: Global,
    setting: &Node,
    given: &Node,
    rounds: u32,
) -> Result<Duration, CaseFault> {
    let (config, asked) = both(config(alloc, setting), asked_of(alloc, given))?;
    timed(
        clock,
        rounds,
        || addrs_of(alloc, &asked, &config.plan).is_ok(),
    )
}
