//! In which zone an instance stands.
ghost use Rattle.std.specs.Prelude.{◌≡◌, ◌≤◌, Some, find, length};
ghost use Rattle.std.specs.Option.{option_copied};
ghost use Rattle.bosh_base.specs.Plan.{is_listed};
ghost use Rattle.bosh_wants.specs.Zones.{inst_of, new_zone, recorded_zone, row_of, zone_by, zone_in_row, zone_of};
ghost use Rattle.bosh_pool.specs.Fixed.{same_inst};

use bosh_base::{Inst, Name, Row, Seq};
use bosh_manifest::Group;

fn is_inst(inst: &Inst, dep: &Name, group: &Group, index: u32) -> bool
    ensures { result ≡ same_inst inst.now (inst_of dep.now group.now index) }
{
    inst.dep == *dep && inst.group == group.name && inst.index == index
}

/// What is recorded of an instance.
pub fn row_of<'a>(rows: &'a [Row], dep: &Name, group: &Group, index: u32) -> Option<&'a Row>
    ensures { option_copied result ≡ row_of rows.now (inst_of dep.now group.now index) }
{
    rows.iter()
        .find(|row| is_inst(&row.inst, dep, group, index))
}

fn zone_in_row(row: &Row) -> Option<&Name>
    ensures { option_copied result ≡ zone_in_row (Some row.now) }
{
    match &row.make {
        Some(make) => Some(&make.az),
        None => None,
    }
}

/// The zone that the last machine of an instance was made for.
pub(crate) fn recorded_zone<'a>(
    rows: &'a [Row],
    dep: &Name,
    group: &Group,
    index: u32,
) -> Option<&'a Name>
    ensures { option_copied result ≡ recorded_zone rows.now (inst_of dep.now group.now index) }
{
    match row_of(rows, dep, group, index) {
        Some(row) => zone_in_row(row),
        None => None,
    }
}

fn new_zone(group: &Group, index: u32) -> &Name
    requires { 1 ≤ length group.now.azs }
    ensures { result.now ≡ new_zone group.now index }
{
    let azs = group.azs.as_slice();
    &azs[index as usize % azs.len()]
}

fn is_listed(name: &Name, names: &Seq<Name>) -> bool
    ensures { result ≡ is_listed name.now names.now }
{
    names.iter().any(|listed| *listed == *name)
}

fn zone_by<'a>(group: &'a Group, index: u32, recorded: Option<&'a Name>) -> &'a Name
    requires { 1 ≤ length group.now.azs }
    ensures { result.now ≡ zone_by group.now index (option_copied recorded.entry) }
{
    match recorded {
        None => new_zone(group, index),
        Some(zone) => {
            if is_listed(zone, &group.azs) {
                zone
            } else {
                new_zone(group, index)
            }
        }
    }
}

/// The zone of an instance: that of its last machine while its group lists it, and else the next of its group's zones, round
/// and round by index.
pub fn zone_of<'a>(rows: &'a [Row], dep: &Name, group: &'a Group, index: u32) -> &'a Name
    requires { 1 ≤ length group.now.azs }
    ensures { result.now ≡ zone_of dep.now rows.now group.now index }
{
    zone_by(group, index, recorded_zone(rows, dep, group, index))
}
