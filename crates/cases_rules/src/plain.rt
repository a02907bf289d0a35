//! Addresses, names, versions and lists.
use bosh_base::{Inst, Name, OfFault, Seq, Text, is_version, version_order};
use bosh_ip::{IpFault, parse_addr, parse_cidr, show_addr};
use bosh_yaml::Node;
use cases_given::{CaseFault, Given, Outcome, field, named, pair, refused, told, two, words_of};
use std::alloc::Global;
use std::fmt;

/// What a text of an address, a network or a range is.
pub(crate) fn parsed<T: fmt::Debug + Drop, F>(
    alloc: Global,
    given: &Node,
    parse: F,
) -> Result<Outcome, CaseFault>
where
    F: FnOnce(&[u8]) -> Result<T, IpFault> + Drop,
    requires { F.IsAlwaysCallable parse }
{
    let text = Text::of(alloc, given)?;
    told(alloc, parse(text.as_slice()), words_of)
}

/// The text of the address of a number.
pub(crate) fn shown(alloc: Global, given: &Node) -> Result<Outcome, CaseFault> {
    let number = u32::of(alloc, given)?;
    told(alloc, show_addr(alloc, number), |alloc, it| {
        Ok(Vec::from_slice(alloc, it.as_slice())?)
    })
}

/// Whether an address is in a network.
pub(crate) fn contains(alloc: Global, given: &Node) -> Result<Outcome, CaseFault> {
    let (net, addr): (Text, Text) = pair(alloc, given)?;
    match (parse_cidr(net.as_slice()), parse_addr(addr.as_slice())) {
        (Ok(net), Ok(addr)) => named(alloc, &bosh_ip::contains(net, addr)),
        _ => Err(CaseFault::Form),
    }
}

/// The name that bytes are.
pub(crate) fn name(alloc: Global, given: &Node) -> Result<Outcome, CaseFault> {
    let bytes = Text::of(alloc, given)?;
    told(alloc, Name::of(alloc, bytes.as_slice()), |alloc, name| {
        Ok(Vec::from_slice(alloc, name.as_bytes())?)
    })
}

/// Whether a text is a version.
pub(crate) fn is_one(alloc: Global, given: &Node) -> Result<Outcome, CaseFault> {
    let text = Text::of(alloc, given)?;
    named(alloc, &is_version(text.as_slice()))
}

/// How one version stands to another.
pub(crate) fn versions(alloc: Global, given: &Node) -> Result<Outcome, CaseFault> {
    let (first, second): (Text, Text) = pair(alloc, given)?;
    match version_order(first.as_slice(), second.as_slice()) {
        Some(order) => named(alloc, &order),
        None => refused(alloc, &OfFault::NotOne),
    }
}

/// How one instance stands to another.
pub(crate) fn instances(alloc: Global, given: &Node) -> Result<Outcome, CaseFault> {
    let (first, second): (Inst, Inst) = pair(alloc, given)?;
    named(alloc, &first.cmp(&second))
}

/// A list in which an item takes the place of another, and that one.
pub(crate) fn set(alloc: Global, given: &Node) -> Result<Outcome, CaseFault> {
    let (place, item): (u32, u64) = two(alloc, given, ["place", "item"])?;
    let mut items: Seq<u64> = field(alloc, given, "list")?;
    if place as usize >= items.len() {
        return Err(CaseFault::Form);
    }
    let old = items.set(place as usize, item);
    let new = items.as_slice();
    Ok(Outcome::gives(format!(in alloc; "{new:?}, not {old}")?.into_bytes()))
}
