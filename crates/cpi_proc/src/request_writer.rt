ghost use Rattle.std.specs.Prelude.{◌≡◌, ◌++◌, true, OnOk, IfOk, IfErr};
ghost use Rattle.cpi_proc.specs.Call.{is_call};
ghost use Rattle.serde_json.specs.Written.{compact_text};
ghost use Rattle.cpi_proc.specs.Request.{IsRequest, is_request, request_back, request_data, request_front, wire};
ghost use Rattle.cpi_proc.specs.declared.fault.PortFault.TheVariants.{Memory};

use crate::arguments::write_arguments;
use crate::context::{open_member, write_context};
use crate::fault::PortFault;
use crate::request::Request;
use bosh_base::{Call, Method};
use cpi_wire::{WireFault, add, write_quoted};
use std::alloc::Global;

// The brace, and the member of the arguments.
fn open_request(call: &Call, out: &mut Vec<u8>) -> Result<(), WireFault>
    ensures ok { OnOk result (out.new.items ≡ out.old.items ++ request_front call.now) }
    ensures fits { OnOk result (is_call call.now ≡ true) }
    ensures err { IfErr result (λ fault. fault ≡ WireFault.Memory) }
{
    open_member("{", "arguments", out)?;
    write_arguments(call, out)
}

// The member of the method, and the brace.
fn close_request(method: Method, out: &mut Vec<u8>) -> Result<(), WireFault>
    ensures ok { OnOk result (out.new.items ≡ out.old.items ++ request_back method) }
    ensures err { IfErr result (λ fault. fault ≡ WireFault.Memory) }
{
    open_member(",", "method", out)?;
    write_quoted(method.name().as_bytes(), out)?;
    add(b"}", out)
}

#[tactic(auto, unfolding(crate::specs::Request::is_request))]
fn add_request(alloc: Global, request: &Request, out: &mut Vec<u8>) -> Result<(), WireFault>
    ensures ok { OnOk result (out.new.items ≡ out.old.items ++ compact_text (request_data request.now)) }
    ensures fits { OnOk result (is_request request.now ≡ true) }
    ensures err { IfErr result (λ fault. fault ≡ WireFault.Memory) }
{
    open_request(&request.call, out)?;
    open_member(",", "context", out)?;
    write_context(alloc, &request.dep, &request.owner, request.n, out)?;
    close_request(request.call.method(), out)
}

/// The text of a request. The only refusal is `Memory`.
pub fn write_request(alloc: Global, request: &Request) -> Result<Vec<u8>, PortFault>
    ensures text { IfOk result (λ text. text.items ≡ wire request.now) }
    ensures fits { OnOk result (IsRequest request.now) }
    ensures err { IfErr result (λ fault. fault ≡ Memory) }
{
    let mut out = Vec::new(alloc);
    add_request(alloc, request, &mut out)?;
    Ok(out)
}
