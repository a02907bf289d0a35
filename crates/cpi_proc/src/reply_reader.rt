ghost use Rattle.std.specs.Prelude.{◌≡◌, List, ℕ, Err, IfOk, option_map};
ghost use Rattle.bosh_base.specs.Call.{method_of};
ghost use Rattle.bosh_base.specs.declared.answer.Answer.{Answer};
ghost use Rattle.serde_json.specs.Data.{null};
ghost use Rattle.serde_json.specs.View.{view};
ghost use Rattle.cpi_wire.specs.Choice.{is_option};
ghost use Rattle.cpi_wire.specs.Reading.{Gives};
ghost use Rattle.cpi_proc.specs.Object.{value_at};
ghost use Rattle.cpi_proc.specs.Reply.{GivesReply, Refuses, Replies, answer_from, built_from, by_error, by_type, cid_from, disks_from, done_from, facts_from, flag_answer_from, found_from, is_count, or_refused, reply_from, reply_of, type_of};
ghost use Rattle.cpi_proc.specs.declared.fault.PortFault.TheVariants.{NotAReply, Refused};

use crate::fault::PortFault;
use crate::json_value::value_of;
use crate::reply_writer::{are_counts, is_cid, is_count};
use bosh_base::{Answer, Call, Digest, Method, Seq, Text};
use cpi_wire::{WireFault, Wired, read_three};
use serde_json::Value;
use std::alloc::Global;

fn done(value: &Value) -> Result<Answer, WireFault>
    ensures { Gives result (done_from (view value.now)) }
{
    match value {
        Value::Null => Ok(Answer::Done),
        _ => Err(WireFault::NotAValue),
    }
}

fn cid(alloc: Global, value: &Value) -> Result<Answer, WireFault>
    ensures { Gives result (cid_from (view value.now)) }
{
    let n = u64::read(alloc, value)?;
    if !is_cid(n) {
        return Err(WireFault::NotAValue);
    }
    Ok(Answer::Cid(n))
}

fn flag(alloc: Global, value: &Value) -> Result<Answer, WireFault>
    ensures { Gives result (flag_answer_from (view value.now)) }
{
    match bool::read(alloc, value)? {
        true => Ok(Answer::Yes),
        false => Ok(Answer::No),
    }
}

fn is_found(found: Option<u64>) -> bool
    ensures { result ≡ is_option is_count found }
{
    match found {
        Some(n) => is_count(n),
        None => true,
    }
}

fn found(alloc: Global, value: &Value) -> Result<Answer, WireFault>
    ensures { Gives result (found_from (view value.now)) }
{
    let found = Option::read(alloc, value)?;
    if !is_found(found) {
        return Err(WireFault::NotAValue);
    }
    Ok(Answer::Found(found))
}

fn disks(alloc: Global, value: &Value) -> Result<Answer, WireFault>
    ensures { Gives result (disks_from (view value.now)) }
{
    let disks = Seq::read(alloc, value)?;
    if !are_counts(disks.as_slice()) {
        return Err(WireFault::NotAValue);
    }
    Ok(Answer::Disks(disks))
}

fn facts(alloc: Global, value: &Value) -> Result<Answer, WireFault>
    ensures { Gives result (facts_from (view value.now)) }
{
    let (spec, running, drained) = read_three(alloc, value)?;
    Ok(Answer::Facts {
        spec,
        running,
        drained,
    })
}

fn built(alloc: Global, value: &Value) -> Result<Answer, WireFault>
    ensures { Gives result (built_from (view value.now)) }
{
    Ok(Answer::Built(Digest::read(alloc, value)?))
}

// The answer of a result.
#[tactic(auto, unfolding(crate::specs::Reply::answer_from))]
fn read_answer(alloc: Global, method: Method, value: &Value) -> Result<Answer, WireFault>
    ensures { Gives result (answer_from method (view value.now)) }
{
    match method {
        Method::CreateVm => cid(alloc, value),
        Method::DeleteVm => done(value),
        Method::HasVm => flag(alloc, value),
        Method::FindVm => found(alloc, value),
        Method::CreateDisk => cid(alloc, value),
        Method::DeleteDisk => done(value),
        Method::HasDisk => flag(alloc, value),
        Method::FindDisk => found(alloc, value),
        Method::AttachDisk => done(value),
        Method::DetachDisk => done(value),
        Method::GetDisks => disks(alloc, value),
        Method::Ping => done(value),
        Method::GetState => facts(alloc, value),
        Method::Apply => done(value),
        Method::Start => done(value),
        Method::Drain => done(value),
        Method::Stop => done(value),
        Method::MountDisk => done(value),
        Method::UnmountDisk => done(value),
        Method::ListDisk => disks(alloc, value),
        Method::MigrateDisk => done(value),
        Method::CompilePackage => built(alloc, value),
    }
}

// The text at `type` of an error.
fn type_of(error: &Value) -> Option<&str>
    ensures { option_map (λ kind. kind.now) result ≡ type_of (view error.now) }
{
    error.get("type")?.as_str()
}

fn refused(alloc: Global, kind: &str) -> Result<Answer, PortFault>
    ensures { GivesReply result (Err (PortFault.Refused kind.now)) }
{
    let kind = Text::from(Vec::from_slice(alloc, kind.as_bytes())?);
    Err(PortFault::Refused { kind })
}

// What an error says.
fn by_type(alloc: Global, error: &Value) -> Result<Answer, PortFault>
    ensures { GivesReply result (by_type (type_of (view error.now))) }
{
    match type_of(error) {
        None => Err(PortFault::NotAReply),
        Some(kind) if kind == "Gone" => Ok(Answer::Gone),
        Some(kind) => refused(alloc, kind),
    }
}

// The value at a key, or null where it is absent.
fn value_at<'a>(value: &'a Value, key: &str, absent: &'a Value) -> &'a Value
    requires { view absent.now ≡ null }
    ensures { view result.now ≡ value_at key.now (view value.now) }
{
    match value.get(key) {
        Some(found) => found,
        None => absent,
    }
}

fn answered(alloc: Global, method: Method, value: &Value) -> Result<Answer, PortFault>
    ensures { GivesReply result (or_refused (answer_from method (view value.now))) }
{
    match read_answer(alloc, method, value) {
        Ok(answer) => Ok(answer),
        Err(WireFault::NotAValue) => Err(PortFault::NotAReply),
        Err(WireFault::Memory) => Err(PortFault::Memory),
    }
}

fn by_error(
    alloc: Global,
    method: Method,
    error: &Value,
    value: &Value,
) -> Result<Answer, PortFault>
    ensures { GivesReply result (by_error method (view error.now) (view value.now)) }
{
    match error {
        Value::Null => answered(alloc, method, value),
        _ => by_type(alloc, error),
    }
}

#[tactic(auto, unfolding(crate::specs::Reply::reply_from))]
fn reply_in(alloc: Global, method: Method, reply: &Value) -> Result<Answer, PortFault>
    ensures { GivesReply result (reply_from method (view reply.now)) }
{
    if !reply.is_object() {
        return Err(PortFault::NotAReply);
    }
    let absent = Value::Null;
    let error = value_at(reply, "error", &absent);
    let value = value_at(reply, "result", &absent);
    by_error(alloc, method, error, value)
}

#[tactic(auto, unfolding(crate::specs::Reply::reply_of))]
fn reply_of(alloc: Global, method: Method, bytes: &[u8]) -> Result<Answer, PortFault>
    ensures { GivesReply result (reply_of method bytes.now) }
{
    match value_of(alloc, bytes) {
        Ok(value) => reply_in(alloc, method, &value),
        Err(WireFault::NotAValue) => Err(PortFault::NotAReply),
        Err(WireFault::Memory) => Err(PortFault::Memory),
    }
}

/// What a text says as a reply to a call: an answer of the call's kind; `Refused` where it has an error of another type than
/// `Gone`; `NotAReply` where it says neither.
pub fn read_reply(alloc: Global, call: &Call, bytes: &[u8]) -> Result<Answer, PortFault>
    ensures answers { IfOk result (λ answer. Replies (method_of call.now) bytes.now answer) }
    ensures refuses { (kind : List ℕ) → result ≡ Err (Refused kind) → Refuses bytes.now kind }
    ensures none { result ≡ Err NotAReply
        → ((answer : Answer) → Replies (method_of call.now) bytes.now answer → ⊥) × ((kind : List ℕ) → Refuses bytes.now kind → ⊥) }
    ensures exact { GivesReply result (reply_of (method_of call.now) bytes.now) }
{
    reply_of(alloc, call.method(), bytes)
}
