//! Goals in words.
use crate::links::{push_offers, push_ties};
use crate::pieces::push_count;
use crate::rows::{push_make, push_rows};
use bosh_base::{Digest, Goal, GroupPlan, Key, KeyWork, Make, Seq};
use bosh_cases::push_parts;
use std::alloc::{AllocError, Global};

/// Adds a word, and the first eight digits of a fingerprint.
pub(crate) fn push_print(
    text: &mut Vec<u8>,
    word: &[u8],
    print: &Digest,
) -> Result<(), AllocError> {
    let mut digits = [0u8; 64];
    let _ = hex::encode_to_slice(&print.0, &mut digits);
    push_parts(text, &[word, &digits[..8]])
}

fn push_plan(text: &mut Vec<u8>, plan: &GroupPlan) -> Result<(), AllocError> {
    push_parts(text, &[b"group ", plan.name.as_bytes()])?;
    push_count(text, b" canaries ", u64::from(plan.canaries))?;
    push_count(text, b" limit ", u64::from(plan.limit))?;
    push_count(text, b" stage ", u64::from(plan.stage))
}

fn push_plans(text: &mut Vec<u8>, plans: &Seq<GroupPlan>) -> Result<(), AllocError> {
    for plan in plans {
        push_plan(text, plan)?;
        text.push(b'\n')?;
    }
    Ok(())
}

fn push_key(text: &mut Vec<u8>, word: &[u8], key: &Key) -> Result<(), AllocError> {
    push_print(text, word, &key.fingerprint)?;
    push_parts(
        text,
        &[b" ", key.os.as_slice(), b"/", key.version.as_slice()],
    )
}

fn push_needs(text: &mut Vec<u8>, keys: &Seq<Key>) -> Result<(), AllocError> {
    for key in keys {
        push_key(text, b" needs ", key)?;
    }
    text.extend_from_slice(b"\n")
}

fn push_work(text: &mut Vec<u8>, work: &KeyWork) -> Result<(), AllocError> {
    push_parts(text, &[b"key ", work.name.as_bytes()])?;
    push_key(text, b" ", &work.key)?;
    push_needs(text, &work.deps)
}

fn push_works(text: &mut Vec<u8>, works: &Seq<KeyWork>) -> Result<(), AllocError> {
    for work in works {
        push_work(text, work)?;
    }
    Ok(())
}

fn push_slots(text: &mut Vec<u8>, slots: &Seq<Make>) -> Result<(), AllocError> {
    for slot in slots {
        push_make(text, b"slot ", slot)?;
        text.push(b'\n')?;
    }
    Ok(())
}

fn push_instances(text: &mut Vec<u8>, goal: &Goal) -> Result<(), AllocError> {
    push_parts(text, &[b"deployment ", goal.dep.as_bytes(), b"\n"])?;
    push_rows(text, &goal.rows)?;
    push_plans(text, &goal.groups)
}

fn push_others(text: &mut Vec<u8>, goal: &Goal) -> Result<(), AllocError> {
    push_works(text, &goal.keys)?;
    push_slots(text, &goal.slots)?;
    push_ties(text, &goal.ties)?;
    push_offers(text, &goal.offers)
}

/// The lines of a goal: its instances with their specs, how its groups are updated, what is to be compiled and by which
/// machines, its ties, and its offers.
pub fn goal_text(alloc: Global, goal: &Goal) -> Result<Vec<u8>, AllocError> {
    let mut text = Vec::new(alloc);
    push_instances(&mut text, goal)?;
    push_others(&mut text, goal)?;
    Ok(text)
}
