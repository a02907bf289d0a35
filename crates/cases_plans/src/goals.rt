//! Goals.
use crate::links::{add_offer, add_ties};
use crate::rows::{Print, add_make, add_row};
use bosh_base::{Goal, GroupPlan, Key, KeyWork, Seq};
use cases_words::Told;
use std::fmt;

/// The lines of a goal.
#[derive(Clone, Copy)]
pub struct GoalTold<'a>(pub &'a Goal);

fn add_plans<W: fmt::Write>(f: &mut fmt::Formatter<W>, plans: &Seq<GroupPlan>) -> fmt::Result {
    for plan in plans {
        let (name, canaries) = (Told(&plan.name), plan.canaries);
        let (limit, stage) = (plan.limit, plan.stage);
        write!(
            f,
            "group {name} canaries {canaries} limit {limit} stage {stage}\n"
        )?;
    }
    Ok(())
}

fn add_key<W: fmt::Write>(f: &mut fmt::Formatter<W>, key: &Key) -> fmt::Result {
    let print = Print(&key.fingerprint);
    write!(f, " {print} {}/{}", Told(&key.os), Told(&key.version))
}

fn add_work<W: fmt::Write>(f: &mut fmt::Formatter<W>, work: &KeyWork) -> fmt::Result {
    write!(f, "key {}", Told(&work.name))?;
    add_key(f, &work.key)?;
    for key in &work.deps {
        f.write_str(" needs")?;
        add_key(f, key)?;
    }
    f.write_str("\n")
}

fn add_instances<W: fmt::Write>(f: &mut fmt::Formatter<W>, goal: &Goal) -> fmt::Result {
    write!(f, "deployment {}\n", Told(&goal.dep))?;
    for row in &goal.rows {
        add_row(f, row)?;
    }
    add_plans(f, &goal.groups)
}

fn add_compilation<W: fmt::Write>(f: &mut fmt::Formatter<W>, goal: &Goal) -> fmt::Result {
    for work in &goal.keys {
        add_work(f, work)?;
    }
    for slot in &goal.slots {
        f.write_str("slot ")?;
        add_make(f, slot)?;
        f.write_str("\n")?;
    }
    Ok(())
}

fn add_links<W: fmt::Write>(f: &mut fmt::Formatter<W>, goal: &Goal) -> fmt::Result {
    add_ties(f, &goal.ties)?;
    for offer in &goal.offers {
        add_offer(f, offer)?;
    }
    Ok(())
}

impl fmt::Display for GoalTold<'_> {
    fn fmt<W: fmt::Write>(&self, f: &mut fmt::Formatter<W>) -> fmt::Result {
        add_instances(f, self.0)?;
        add_compilation(f, self.0)?;
        add_links(f, self.0)
    }
}
