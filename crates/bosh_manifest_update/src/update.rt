//! How instances are updated.
ghost use Rattle.std.specs.Prelude.{◌≡◌, unwrap_or};
ghost use Rattle.bosh_yaml.specs.View.{tree_of};
ghost use Rattle.bosh_fields.specs.Answer.{IsAnswer};
ghost use Rattle.bosh_fields.specs.Field.{optional};
ghost use Rattle.bosh_manifest_update.specs.Amount.{an_amount};
ghost use Rattle.bosh_manifest_update.specs.Update.{an_own_update, group_update, optional_amounts, optional_times, required_amounts, required_times, serial};

use crate::amount::Amount;
use crate::watch_time::WatchTime;
use bosh_base::{Count, Text};
use bosh_fields::{
    FieldFault, FromField, check_mapping, optional, required, required_both, unsupported, value_at,
};
use bosh_yaml::Node;
use std::alloc::Global;

/// How the instances of a group are updated.
#[derive(Clone, Copy)]
pub struct Update {
    /// How many are updated before the others.
    pub canaries: Count,
    /// How many are updated at once.
    pub limit: Count,
    /// Whether the group is updated apart from its neighbours.
    pub serial: bool,
}

/// A way to replace a machine.
#[derive(Clone, Copy)]
enum Strategy {
    /// The old one is deleted, and then the new one created.
    DeleteCreate,
}

impl FromField for Strategy {
    ghost use Rattle.bosh_manifest_update.specs.Update.{a_strategy};

    ghost kind = { a_strategy };

    fn from_field(alloc: Global, key: &[u8], node: &Node) -> Result<Self, FieldFault> {
        if Text::from_field(alloc, key, node)?.as_slice() == b"delete-create".as_slice() {
            Ok(Strategy::DeleteCreate)
        } else {
            unsupported(alloc, key)
        }
    }
}

fn serial(alloc: Global, node: &Node) -> Result<Option<bool>, FieldFault>
    ensures { IsAnswer result (serial (tree_of node.now)) }
{
    let flag = optional(alloc, node, b"serial")?;
    let _strategy = optional::<Strategy>(alloc, node, b"vm_strategy")?;
    Ok(flag)
}

fn required_amounts(alloc: Global, node: &Node) -> Result<(Count, Count), FieldFault>
    ensures { IsAnswer result (required_amounts (tree_of node.now)) }
{
    let (canaries, limit) = required_both::<Amount<0>, Amount<1>>(
        alloc,
        node,
        b"canaries",
        b"max_in_flight",
    )?;
    Ok((canaries.count(), limit.count()))
}

fn optional_amount<const LEAST: u32>(
    alloc: Global,
    node: &Node,
    key: &[u8],
) -> Result<Option<Count>, FieldFault>
    ensures { IsAnswer result (optional (an_amount LEAST) key.now (tree_of node.now)) }
{
    match optional::<Amount<LEAST>>(alloc, node, key)? {
        Some(amount) => Ok(Some(amount.count())),
        None => Ok(None),
    }
}

fn optional_amounts(
    alloc: Global,
    node: &Node,
) -> Result<(Option<Count>, Option<Count>), FieldFault>
    ensures { IsAnswer result (optional_amounts (tree_of node.now)) }
{
    let canaries = optional_amount::<0>(alloc, node, b"canaries")?;
    Ok((
        canaries,
        optional_amount::<1>(alloc, node, b"max_in_flight")?,
    ))
}

fn required_times(alloc: Global, node: &Node) -> Result<(WatchTime, WatchTime), FieldFault>
    ensures { IsAnswer result (required_times (tree_of node.now)) }
{
    required_both(alloc, node, b"canary_watch_time", b"update_watch_time")
}

fn optional_times(
    alloc: Global,
    node: &Node,
) -> Result<(Option<WatchTime>, Option<WatchTime>), FieldFault>
    ensures { IsAnswer result (optional_times (tree_of node.now)) }
{
    let canary = optional(alloc, node, b"canary_watch_time")?;
    Ok((canary, optional(alloc, node, b"update_watch_time")?))
}

/// The rules of a deployment.
impl FromField for Update {
    ghost use Rattle.bosh_manifest_update.specs.Update.{an_update};

    ghost kind = { an_update };

    fn from_field(alloc: Global, key: &[u8], node: &Node) -> Result<Self, FieldFault> {
        check_mapping(alloc, key, node)?;
        let (canaries, limit) = required_amounts(alloc, node)?;
        let _times = required_times(alloc, node)?;
        let flag = serial(alloc, node)?;
        Ok(Update {
            canaries,
            limit,
            serial: flag.unwrap_or(true),
        })
    }
}

fn own_update(alloc: Global, common: Update, key: &[u8], node: &Node) -> Result<Update, FieldFault>
    ensures { IsAnswer result (an_own_update common key.now (tree_of node.now)) }
{
    check_mapping(alloc, key, node)?;
    let (canaries, limit) = optional_amounts(alloc, node)?;
    let _times = optional_times(alloc, node)?;
    let flag = serial(alloc, node)?;
    Ok(Update {
        canaries: canaries.unwrap_or(common.canaries),
        limit: limit.unwrap_or(common.limit),
        serial: flag.unwrap_or(common.serial),
    })
}

/// The rules of a group: each that it gives is in place of that of its deployment.
pub fn group_update(alloc: Global, common: Update, node: &Node) -> Result<Update, FieldFault>
    ensures { IsAnswer result (group_update common (tree_of node.now)) }
{
    match value_at(node, b"update") {
        Some(given) => own_update(alloc, common, b"update", given),
        None => Ok(common),
    }
}
