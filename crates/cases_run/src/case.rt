//! Cases: `{"call": NAME, "given": .., "gives": ..}`, or with `refuses` in the place of `gives`.
use bosh_yaml::Node;
use cases_given::{Calls, Case, CaseFault, Outcome, characters};
use std::alloc::Global;

/// The name of the call of a case.
pub(crate) fn call_of(case: &Node) -> Result<&str, CaseFault> {
    match case.find(b"call") {
        Some(Node::Text(name)) => characters(name),
        _ => Err(CaseFault::NoCase),
    }
}

// Whether a node has the three keys of a case, and no other.
fn is_case(node: &Node) -> bool {
    let Node::Map(pairs) = node else {
        return false;
    };
    pairs.len() == 3 && (pairs.has(b"gives") || pairs.has(b"refuses"))
}

/// What the call of a case comes to.
pub(crate) fn outcome_of<C: Calls>(
    alloc: Global,
    calls: &C,
    setting: &Node,
    case: &Node,
) -> Result<Outcome, CaseFault> {
    let call = call_of(case)?;
    match case.find(b"given") {
        Some(given) if is_case(case) => calls.answer(&Case {
            alloc,
            call,
            setting,
            given,
        }),
        _ => Err(CaseFault::NoCase),
    }
}
