//! Variables.
use bosh_base::Text;
use bosh_vars::{Var, fill};
use bosh_yaml::{Node, Str, canon, read};
use cases_files::{node_of, outcome};
use cases_given::{CaseFault, Outcome, both, pair};
use std::alloc::Global;

// A variable: its name, and the text of its value.
fn variable(alloc: Global, node: &Node) -> Result<Var, CaseFault> {
    let (name, value): (Text, Text) = pair(alloc, node)?;
    let name = Str::of(alloc, name.as_slice())?;
    let value = read(alloc, value.as_slice())?;
    Ok(Var { name, value })
}

fn variables(alloc: Global, setting: &Node) -> Result<Vec<Var>, CaseFault> {
    let Node::List(items) = setting else {
        return Err(CaseFault::Form);
    };
    let mut vars = Vec::new(alloc);
    for item in items.as_slice() {
        vars.push(variable(alloc, item)?)?;
    }
    Ok(vars)
}

fn told(alloc: Global, node: &Node) -> Result<Vec<u8>, CaseFault> {
    Ok(canon(alloc, node)?)
}

/// The canonical text of the node of a text, with the variables of the setting in the places of their names.
pub(crate) fn filled(alloc: Global, setting: &Node, given: &Node) -> Result<Outcome, CaseFault> {
    let (node, vars) = both(node_of(alloc, given), variables(alloc, setting))?;
    outcome(alloc, fill(alloc, &node, vars.as_slice()), told)
}
