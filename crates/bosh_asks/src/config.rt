ghost use Rattle.std.specs.Prelude.{◌≡◌, IfErr, IfOk, false, true};
ghost use Rattle.std.specs.Result.{result_ok};
ghost use Rattle.std.specs.Option.{option_copied};
ghost use Rattle.bosh_asks.specs.Goals.{config_in, if_checked, is_memory, recorded_config};
ghost use Rattle.bosh_asks.specs.declared.fault.BookFault.TheVariants.{Memory};
ghost use Rattle.bosh_cloudcfg.specs.Check.{config_of_tree};
ghost use Rattle.bosh_yaml.specs.View.{tree_of};

use crate::BookFault;
use bosh_cloudcfg::{Config, ConfigFault, check};
use bosh_yaml::{Node, ReadFault, read};
use std::alloc::Global;

// What an answer has, unless it lacked memory. Generic, since to let a config or its fault go is dear to prove in the
// body that does it.
fn value_of<A: Drop, F: Drop>(
    lacks_memory: bool,
    answer: Result<A, F>,
) -> Result<Option<A>, BookFault>
    ensures value { IfOk result (λ value. (value ≡ result_ok answer) × (lacks_memory ≡ false)) }
    ensures memory { IfErr result (λ fault. (fault ≡ Memory) × (lacks_memory ≡ true)) }
{
    if lacks_memory {
        return Err(BookFault::Memory);
    }
    Ok(answer.ok())
}

fn lacks_memory(answer: &Result<Config, ConfigFault>) -> bool
    ensures { result ≡ is_memory answer.now }
{
    matches!(answer, Err(ConfigFault::Memory))
}

fn checked(alloc: Global, node: &Node) -> Result<Option<Config>, BookFault>
    ensures config { IfOk result (λ config. config ≡ if_checked (config_of_tree (tree_of node.now))) }
    ensures err { IfErr result (λ fault. fault ≡ Memory) }
{
    let answer = check(alloc, node);
    value_of(lacks_memory(&answer), answer)
}

/// The cloud config that the bytes of a file spell, where they spell one.
pub fn config_in(alloc: Global, file: &[u8]) -> Result<Option<Config>, BookFault>
    ensures config { IfOk result (λ config. config ≡ config_in file.now) }
    ensures err { IfErr result (λ fault. fault ≡ Memory) }
{
    match read(alloc, file) {
        Ok(node) => checked(alloc, &node),
        Err(ReadFault::Memory) => Err(BookFault::Memory),
        Err(_) => Ok(None),
    }
}

/// The cloud config that is recorded.
pub(crate) fn recorded_config(
    alloc: Global,
    file: Option<&[u8]>,
) -> Result<Option<Config>, BookFault>
    ensures config { IfOk result (λ config. config ≡ recorded_config (option_copied file.entry)) }
    ensures err { IfErr result (λ fault. fault ≡ Memory) }
{
    match file {
        Some(file) => config_in(alloc, file),
        None => Ok(None),
    }
}
