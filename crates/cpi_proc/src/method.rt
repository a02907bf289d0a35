ghost use Rattle.std.specs.Prelude.{◌≡◌};
ghost use Rattle.serde_json.specs.View.{view};
ghost use Rattle.cpi_wire.specs.Reading.{Gives};
ghost use Rattle.cpi_proc.specs.Method.{method_from, named, named_of};

use bosh_base::{METHODS, Method};
use cpi_wire::WireFault;
use serde_json::Value;

// The first of these methods that has this name.
fn named_of(methods: &[Method], name: &str) -> Option<Method>
    ensures { result ≡ named_of methods.now name.now }
{
    for method in methods {
        if method.name() == name {
            return Some(*method);
        }
    }
    None
}

#[tactic(auto, unfolding(crate::specs::Method::named))]
fn named(name: &str) -> Option<Method>
    ensures { result ≡ named name.now }
{
    named_of(&METHODS, name)
}

/// The method that a JSON value names.
pub(crate) fn read_method(value: &Value) -> Result<Method, WireFault>
    ensures { Gives result (method_from (view value.now)) }
{
    let Some(name) = value.as_str() else {
        return Err(WireFault::NotAValue);
    };
    match named(name) {
        Some(method) => Ok(method),
        None => Err(WireFault::NotAValue),
    }
}
