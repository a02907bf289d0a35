ghost use Rattle.std.specs.Prelude.{◌≡◌, IfNone, IfSome, false, true};
ghost use Rattle.std.specs.Str.{is_utf8};
ghost use Rattle.cpi_proc.specs.Json.{json_of, GivesValue};

use cpi_wire::WireFault;
use serde_json::Value;
use serde_json::error::Category;
use std::alloc::Global;
use std::str;

#[tactic(auto, using(crate::proofs::TextLemmas::tests_text))]
fn as_text(bytes: &[u8]) -> Option<&str>
    ensures some { IfSome result (λ text. (text.now ≡ bytes.now) × (is_utf8 bytes.now ≡ true)) }
    ensures none { IfNone result (is_utf8 bytes.now ≡ false) }
{
    match str::from_utf8(bytes) {
        Ok(text) => Some(text),
        Err(_) => None,
    }
}

/// The JSON value of a text.
#[tactic(auto, unfolding(crate::specs::Json::json_of))]
pub(crate) fn value_of(alloc: Global, bytes: &[u8]) -> Result<Value, WireFault>
    ensures { GivesValue result (json_of bytes.now) }
{
    let Some(text) = as_text(bytes) else {
        return Err(WireFault::NotAValue);
    };
    match Value::from_str(alloc, text) {
        Ok(value) => Ok(value),
        Err(e) => match e.classify() {
            Category::Memory => Err(WireFault::Memory),
            _ => Err(WireFault::NotAValue),
        },
    }
}
