//! The manifest that a text is, with the values of variables in their places, and what a deploy of it asks for.
ghost use Rattle.std.specs.Prelude.{◌≡◌, IfErr, IfOk, map};
ghost use Rattle.std.specs.Result.{result_map_both};
ghost use Rattle.bosh_answers.specs.Deploys.{IsMemory, Reads, deploy_in, deploy_of, digest_of, filled_in, filled_with, given_value, read_value};
ghost use Rattle.bosh_asks.specs.declared.ask.Ask.TheVariants as asks;
ghost use Rattle.bosh_answers.specs.declared.text_fault.TextFault.TheVariants.{Unfilled};
ghost use Rattle.bosh_vars.specs.Filled.{filled, values_of};
ghost use Rattle.bosh_yaml.specs.View.{tree_of};

use crate::text_fault::TextFault;
use bosh_asks::{Ask, Deploy};
use bosh_base::{Digest, Name};
use bosh_lines::Variable;
use bosh_manifest::{Manifest, check};
use bosh_vars::{Var, fill};
use bosh_yaml::{Copied, Node, canon, read, scalar};
use sha2::{Digest as Hasher, Sha256};
use std::alloc::Global;

/// How the machines of a deployment are deployed.
#[derive(Clone, Copy, Debug, PartialEq, Eq)]
pub struct How {
    /// All are made anew.
    pub recreate: bool,
    /// Each is asked first whether it answers.
    pub fix: bool,
}

/// What a deploy of a text asks for.
pub fn deploy_of(
    alloc: Global,
    dep: &Name,
    vars: &[Variable],
    how: How,
    text: &[u8],
) -> Result<Ask, TextFault>
    ensures { Reads (λ ask. ask) result (deploy_of dep.now vars.now how text.now) }
{
    let node = filled(alloc, vars, text)?;
    deploy_in(alloc, dep, how, &node)
}

// What a deploy of a node asks for.
fn deploy_in(alloc: Global, dep: &Name, how: How, node: &Node) -> Result<Ask, TextFault>
    ensures { Reads (λ ask. ask) result (deploy_in dep.now how (tree_of node.now)) }
{
    let source = digest_of(alloc, node)?;
    Ok(asked(check(alloc, node, dep)?, how, source))
}

fn asked(manifest: Manifest, how: How, source: Digest) -> Ask
    ensures { result ≡ asks.Deploy (record { manifest = manifest; recreate = how.recreate; fix = how.fix; source = source }) }
{
    Ask::Deploy(Deploy {
        manifest,
        recreate: how.recreate,
        fix: how.fix,
        source,
    })
}

// The digest of a manifest is that of its canonical text.
fn digest_of(alloc: Global, node: &Node) -> Result<Digest, TextFault>
    ensures digest { IfOk result (λ digest. digest ≡ digest_of (tree_of node.now)) }
    ensures fault { IfErr result IsMemory }
{
    let text = canon(alloc, node)?;
    let mut hasher = Sha256::new();
    hasher.update(text.as_slice());
    Ok(Digest(hasher.finalize()))
}

// The node that a text spells, with the values of the variables in the places of their names.
fn filled(alloc: Global, vars: &[Variable], text: &[u8]) -> Result<Node, TextFault>
    ensures { Reads tree_of result (filled_in vars.now text.now) }
{
    let node = read(alloc, text)?;
    filled_with(alloc, vars, &node)
}

// A node with the values of the variables in the places of their names.
fn filled_with(alloc: Global, vars: &[Variable], node: &Node) -> Result<Node, TextFault>
    ensures { Reads tree_of result (filled_with vars.now (tree_of node.now)) }
{
    let values = values(alloc, vars)?;
    filled_by(alloc, values.as_slice(), node)
}

// A node with values in the places of their names.
fn filled_by(alloc: Global, values: &[Var], node: &Node) -> Result<Node, TextFault>
    ensures { Reads tree_of result (result_map_both (λ t. t) Unfilled (filled (values_of values.now) (tree_of node.now))) }
{
    Ok(fill(alloc, node, values)?)
}

// The variables with their values.
fn values(alloc: Global, vars: &[Variable]) -> Result<Vec<Var>, TextFault>
    ensures values { IfOk result (λ read. map read_value read.items ≡ map given_value vars.now) }
    ensures fault { IfErr result IsMemory }
{
    let mut values = Vec::new(alloc);
    for var in vars {
        values.push(value(alloc, var)?)?;
    }
    Ok(values)
}

// A variable with its value, which its text is as a plain scalar.
fn value(alloc: Global, var: &Variable) -> Result<Var, TextFault>
    ensures value { IfOk result (λ read. read_value read ≡ given_value var.now) }
    ensures fault { IfErr result IsMemory }
{
    Ok(Var {
        name: var.name.copy(alloc)?,
        value: scalar(alloc, var.value.as_bytes())?,
    })
}
