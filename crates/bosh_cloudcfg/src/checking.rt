ghost use Rattle.std.specs.Prelude.{Ok};
ghost use Rattle.bosh_yaml.specs.View.{tree_of};
ghost use Rattle.bosh_cloudcfg.specs.Answer.{IsAnswer};
ghost use Rattle.bosh_cloudcfg.specs.Check.{config_of_tables, config_of_tree};

use crate::assembly::config_of;
use crate::passes::check_config;
use crate::tables::{Tables, read_tables};
use crate::{Config, ConfigFault};
use bosh_yaml::Node;
use std::alloc::Global;

fn checked(alloc: Global, tables: Tables) -> Result<Config, ConfigFault>
    ensures { IsAnswer result (config_of_tables (Ok tables)) }
{
    let config = config_of(alloc, tables)?;
    check_config(alloc, &config)?;
    Ok(config)
}

/// The config that a node is, or its first fault. First the tables are read in their order: zones, networks, types of
/// machines and of disks, and the compilation. Then come the names that the config does not have, then the addresses
/// that are out of place, subnet by subnet, and last the subnets that overlap. Other keys are not looked at.
pub fn check(alloc: Global, node: &Node) -> Result<Config, ConfigFault>
    ensures { IsAnswer result (config_of_tree (tree_of node.now)) }
{
    checked(alloc, read_tables(alloc, node)?)
}
