//! What cases tell of what is recorded.
use bosh_base::{
    Addr, DepOffers, DiskRow, GoalRow, Held, Joint, Make, NetAddr, Offer, Prop, Row, Seq, Spec,
    State, Text,
};
use bosh_yaml::Node;
use cases_given::{CaseFault, all, both, field, four, pair, two, word_of};
use cases_words::of_words;
use std::alloc::Global;

/// `[NETWORK, ADDRESS]`.
fn net_addr(alloc: Global, node: &Node) -> Result<NetAddr, CaseFault> {
    let (net, addr) = pair(alloc, node)?;
    Ok(NetAddr { net, addr })
}

/// As `2 of 5 10 active mounted`.
fn disk_row(alloc: Global, node: &Node) -> Result<DiskRow, CaseFault> {
    of_words(alloc, node)
}

// The zone and the addresses of a machine. Nothing looks at what else it was made from.
fn make(alloc: Global, node: &Node) -> Result<Make, CaseFault> {
    let (az, nets) = both(
        field(alloc, node, "zone"),
        all(alloc, node, "nets", net_addr),
    )?;
    Ok(Make {
        os: Seq::new(alloc),
        version: Seq::new(alloc),
        az,
        vm: Seq::new(alloc),
        nets,
    })
}

fn last_make(alloc: Global, node: &Node) -> Result<Option<Make>, CaseFault> {
    match node.find(b"zone") {
        None => Ok(None),
        Some(_) => Ok(Some(make(alloc, node)?)),
    }
}

/// A recorded instance: `inst`, and `zone`, `nets` and `disks` where it has them.
pub(crate) fn row(alloc: Global, node: &Node) -> Result<Row, CaseFault> {
    let held = both(last_make(alloc, node), all(alloc, node, "disks", disk_row));
    let (inst, (make, disks)) = both(field(alloc, node, "inst"), held)?;
    Ok(Row {
        inst,
        make,
        vm: None,
        spec: None,
        running: false,
        drained: false,
        disks,
        doubt: None,
        lost: false,
    })
}

/// A state by its word.
pub(crate) fn state(word: &str) -> Result<State, CaseFault> {
    match word {
        "running" => Ok(State::Running),
        "stopped" => Ok(State::Stopped),
        "detached" => Ok(State::Detached),
        _ => Err(CaseFault::Form),
    }
}

fn state_at(node: &Node) -> Result<State, CaseFault> {
    match node.find(b"state") {
        None => Ok(State::Running),
        Some(node) => state(word_of(node)?),
    }
}

fn no_spec(alloc: Global) -> Spec {
    Spec {
        jobs: Seq::new(alloc),
        packages: Seq::new(alloc),
        files: Seq::new(alloc),
    }
}

/// An instance of the current goal: `inst`, `zone`, `nets`, and `state` where it is to be other than running.
pub(crate) fn goal_row(alloc: Global, node: &Node) -> Result<GoalRow, CaseFault> {
    let state = state_at(node)?;
    let (inst, make) = both(field(alloc, node, "inst"), make(alloc, node))?;
    Ok(GoalRow {
        inst,
        make,
        spec: no_spec(alloc),
        disk: None,
        state,
        fresh_after: 0,
    })
}

/// `owner`, `net` and `addr`.
pub(crate) fn held(alloc: Global, node: &Node) -> Result<Held, CaseFault> {
    let addr = field(alloc, node, "addr")?;
    let (owner, net) = two(alloc, node, ["owner", "net"])?;
    Ok(Held { owner, net, addr })
}

/// `link`, `type`, `as`, `addrs`, `listed` and `props`.
fn offer(alloc: Global, node: &Node) -> Result<Offer, CaseFault> {
    let given: Result<(Text, Seq<Addr>, Seq<Text>, Seq<Prop>), CaseFault> = four(
        alloc,
        node,
        ["as", "addrs", "listed", "props"],
    );
    let link: Result<(Joint, Text), CaseFault> = two(alloc, node, ["link", "type"]);
    let ((joint, kind), (public_name, addrs, listed, properties)) = both(link, given)?;
    Ok(Offer {
        joint,
        kind,
        public_name,
        addrs,
        listed,
        properties,
    })
}

/// `dep`, and the `offers` that it shares.
pub(crate) fn dep_offers(alloc: Global, node: &Node) -> Result<DepOffers, CaseFault> {
    let (dep, offers) = both(field(alloc, node, "dep"), all(alloc, node, "offers", offer))?;
    Ok(DepOffers { dep, offers })
}
