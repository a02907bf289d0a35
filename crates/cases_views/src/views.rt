//! What is recorded of a deployment.
use crate::told::{dep_offers, goal_row, held, row};
use crate::uploads::{Uploads, key};
use bosh_base::{Goal, GoalRow, Key, Name, Seq, View};
use bosh_yaml::Node;
use cases_given::{CaseFault, all, both, field};
use std::alloc::Global;

fn goal_of(alloc: Global, dep: Name, rows: Seq<GoalRow>) -> Goal {
    Goal {
        dep,
        rows,
        groups: Seq::new(alloc),
        ties: Seq::new(alloc),
        keys: Seq::new(alloc),
        slots: Seq::new(alloc),
        offers: Seq::new(alloc),
    }
}

// The current goal, of which cases give the instances.
fn current(alloc: Global, dep: &Name, node: &Node) -> Result<Option<Goal>, CaseFault> {
    if node.find(b"goal").is_none() {
        return Ok(None);
    }
    let name = Name::of(alloc, dep.as_bytes())?;
    Ok(Some(goal_of(alloc, name, all(alloc, node, "goal", goal_row)?)))
}

fn compiled(alloc: Global, uploads: &Uploads, node: &Node) -> Result<Seq<Key>, CaseFault> {
    all(
        alloc,
        node,
        "compiled",
        |alloc, node| key(alloc, uploads, node),
    )
}

/// `goal`, `rows`, `taken`, `leftover`, `compiled`, `last_call` and `known`, as far as they are there.
pub(crate) fn view(
    alloc: Global,
    dep: &Name,
    uploads: &Uploads,
    node: &Node,
) -> Result<View, CaseFault> {
    let last_call: Option<u64> = field(alloc, node, "last_call")?;
    let held = both(
        all(alloc, node, "taken", held),
        all(alloc, node, "leftover", held),
    );
    let recorded = both(all(alloc, node, "rows", row), current(alloc, dep, node));
    let shared = both(
        compiled(alloc, uploads, node),
        all(alloc, node, "known", dep_offers),
    );
    let ((taken, leftover), ((rows, goal), (compiled, known))) = both(
        held,
        both(recorded, shared),
    )?;
    Ok(View {
        goal,
        rows,
        taken,
        leftover,
        compiled,
        last_call: last_call.unwrap_or(0),
        known,
    })
}
