//! Links within a deployment.
use bosh_base::{Seq, Text, Tie};
use bosh_links::{Consumer, Provider, Source, resolve};
use bosh_yaml::Node;
use cases_files::outcome;
use cases_given::{CaseFault, Given, Outcome, all, both, field, there, two};
use cases_words::Told;
use std::alloc::Global;
use std::fmt;

fn provider(alloc: Global, node: &Node) -> Result<Provider, CaseFault> {
    let names = two(alloc, node, ["type", "as"]);
    let ((kind, public_name), joint) = both(names, field(alloc, node, "link"))?;
    Ok(Provider {
        joint,
        kind,
        public_name,
    })
}

// A name, false for none, or nothing.
fn source(alloc: Global, node: Option<&Node>) -> Result<Source, CaseFault> {
    match node {
        None => Ok(Source::Implicit),
        Some(Node::Bool(false)) => Ok(Source::Blocked),
        Some(node) => Ok(Source::Named(Text::of(alloc, node)?)),
    }
}

fn consumer(alloc: Global, node: &Node) -> Result<Consumer, CaseFault> {
    let optional = field(alloc, node, "optional")?;
    let link = two(alloc, node, ["link", "type"]);
    let ((joint, kind), from) = both(link, source(alloc, node.find(b"from")))?;
    Ok(Consumer {
        joint,
        kind,
        optional,
        from,
    })
}

// A line for each tie: the consumer, the provider, and the type.
#[derive(Clone, Copy)]
struct Ties<'a>(&'a Seq<Tie>);

impl fmt::Display for Ties<'_> {
    fn fmt<W: fmt::Write>(&self, f: &mut fmt::Formatter<W>) -> fmt::Result {
        for tie in self.0 {
            write!(f, "{}\n", Told(tie))?;
        }
        Ok(())
    }
}

fn told(alloc: Global, ties: &Seq<Tie>) -> Result<Vec<u8>, CaseFault> {
    Ok(format!(in alloc; "{}", Ties(ties))?.into_bytes())
}

/// The ties of a consumer to some of the providers.
pub(crate) fn resolved(alloc: Global, given: &Node) -> Result<Outcome, CaseFault> {
    let providers = all(alloc, given, "providers", provider);
    let (consumer, providers) = both(consumer(alloc, there(given, "consumer")?), providers)?;
    outcome(
        alloc,
        resolve(alloc, providers.as_slice(), &[consumer]),
        told,
    )
}
