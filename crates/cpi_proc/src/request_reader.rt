ghost use Rattle.std.specs.Prelude.{◌≡◌, Err, IfOk, option_map};
ghost use Rattle.serde_json.specs.View.{view};
ghost use Rattle.cpi_wire.specs.Reading.{Gives};
ghost use Rattle.cpi_proc.specs.Request.{IsRequest, request_from, request_of, request_parts, wire};
ghost use Rattle.cpi_proc.specs.Fault.{GivesRequest};
ghost use Rattle.cpi_proc.specs.Json.{json_of};
ghost use Rattle.cpi_proc.specs.declared.fault.PortFault.TheVariants.{NotAReply};
ghost use Rattle.cpi_proc.specs.declared.request.Request.{Request};

use crate::arguments::read_call;
use crate::context::read_context;
use crate::fault::PortFault;
use crate::json_value::value_of;
use crate::method::read_method;
use crate::object::{is_last, next_two, next_value};
use crate::request::Request;
use cpi_wire::WireFault;
use serde_json::Value;
use std::alloc::Global;

// The values of `arguments`, `context` and `method`, where these are all keys. Dear to prove, since the members are gone over.
fn request_parts(value: &Value) -> Option<(&Value, &Value, &Value)>
    ensures { option_map (λ p. (view p.0.now, view p.1.now, view p.2.now)) result ≡ request_parts (view value.now) }
{
    let mut members = value.as_object()?.iter();
    let (arguments, context) = next_two(&mut members, "arguments", "context")?;
    let method = next_value(&mut members, "method")?;
    if !is_last(&mut members) {
        return None;
    }
    Some((arguments, context, method))
}

// Dear to prove: what was read is alive where the rest may be refused.
#[tactic(auto, unfolding(crate::specs::Request::request_from))]
fn request_in(alloc: Global, value: &Value) -> Result<Request, WireFault>
    ensures { Gives result (request_from (view value.now)) }
{
    let Some((arguments, context, method)) = request_parts(value) else {
        return Err(WireFault::NotAValue);
    };
    let method = read_method(method)?;
    let (n, dep, owner) = read_context(alloc, context)?;
    let call = read_call(alloc, method, arguments)?;
    Ok(Request {
        n,
        owner,
        dep,
        call,
    })
}

#[tactic(auto, unfolding(crate::specs::Request::request_of))]
fn request_of(alloc: Global, bytes: &[u8]) -> Result<Request, WireFault>
    ensures { Gives result (request_of bytes.now) }
{
    let value = value_of(alloc, bytes)?;
    request_in(alloc, &value)
}

fn request_or_fault(alloc: Global, bytes: &[u8]) -> Result<Request, PortFault>
    ensures { GivesRequest result (request_of bytes.now) }
{
    Ok(request_of(alloc, bytes)?)
}

/// The request that a text spells, however it is spelled: `NotAReply` where its JSON value is that of no request's text.
pub fn read_request(alloc: Global, bytes: &[u8]) -> Result<Request, PortFault>
    ensures found { IfOk result (λ r. IsRequest r × (json_of bytes.now ≡ json_of (wire r))) }
    ensures none { result ≡ Err NotAReply → (r : Request) → IsRequest r → json_of bytes.now ≡ json_of (wire r) → ⊥ }
    ensures exact { GivesRequest result (request_of bytes.now) }
{
    request_or_fault(alloc, bytes)
}
