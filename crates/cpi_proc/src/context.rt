ghost use Rattle.std.specs.Prelude.{◌≡◌, ◌++◌, ◌∷◌, [], ◌&&◌, true, OnOk, IfErr, option_map, is_some};
ghost use Rattle.bosh_base.specs.Name.{is_name};
ghost use Rattle.serde_json.specs.View.{view};
ghost use Rattle.serde_json.specs.Written.{compact_text};
ghost use Rattle.cpi_wire.specs.Reading.{Gives};
ghost use Rattle.cpi_wire.specs.declared.fault.WireFault.TheVariants.{Memory};
ghost use Rattle.cpi_proc.specs.Owner.{is_owner, owner_data, owner_from};
ghost use Rattle.cpi_proc.specs.Request.{context, context_back, context_from, context_front, context_parts, director, director_from, id_data, id_from, opened};
ghost use Rattle.cpi_wire.specs.Number.{is_number};

use crate::decimal::number_in;
use crate::object::{is_last, next_two};
use crate::owner::{add_owner, owner_in};
use bosh_base::{Name, Owner};
use cpi_wire::{WireFault, Wired, add, write_quoted};
use serde_json::Value;
use std::alloc::Global;

/// Adds what stands before the value of a member: a sign, the key and a colon.
#[tactic(auto, unfolding(crate::specs::Request::opened))]
pub(crate) fn open_member(sign: &str, key: &str, out: &mut Vec<u8>) -> Result<(), WireFault>
    ensures ok { OnOk result (out.new.items ≡ out.old.items ++ opened sign.now key.now) }
    ensures err { IfErr result (λ fault. fault ≡ Memory) }
{
    add(sign.as_bytes(), out)?;
    write_quoted(key.as_bytes(), out)?;
    add(b":", out)
}

// Adds an owner as a string.
fn write_owner(alloc: Global, owner: &Owner, out: &mut Vec<u8>) -> Result<(), WireFault>
    ensures ok { OnOk result (out.new.items ≡ out.old.items ++ compact_text (owner_data owner.now)) }
    ensures fits { OnOk result (is_owner owner.now ≡ true) }
    ensures err { IfErr result (λ fault. fault ≡ Memory) }
{
    let mut text = Vec::new(alloc);
    add_owner(owner, &mut text)?;
    write_quoted(text.as_slice(), out)
}

// Adds a number as a string.
fn write_id(n: u64, out: &mut Vec<u8>) -> Result<(), WireFault>
    ensures ok { OnOk result (out.new.items ≡ out.old.items ++ compact_text (id_data n)) }
    ensures err { IfErr result (λ fault. fault ≡ Memory) }
{
    let mut digits = itoa::Buffer::new();
    write_quoted(digits.format(n).as_bytes(), out)
}

// Adds the name of the director.
#[tactic(auto, unfolding(crate::specs::Request::director))]
fn write_director(out: &mut Vec<u8>) -> Result<(), WireFault>
    ensures ok { OnOk result (out.new.items ≡ out.old.items ++ director) }
    ensures err { IfErr result (λ fault. fault ≡ Memory) }
{
    write_quoted(b"boshd", out)
}

// The brace and the members of the deployment and the director.
fn open_context(dep: &Name, out: &mut Vec<u8>) -> Result<(), WireFault>
    ensures ok { OnOk result (out.new.items ≡ out.old.items ++ context_front dep.now) }
    ensures fits { OnOk result (is_name dep.now ≡ true) }
    ensures err { IfErr result (λ fault. fault ≡ Memory) }
{
    open_member("{", "deployment", out)?;
    dep.write(out)?;
    open_member(",", "director_uuid", out)?;
    write_director(out)
}

// The members of the owner and the number, and the brace.
fn close_context(alloc: Global, owner: &Owner, n: u64, out: &mut Vec<u8>) -> Result<(), WireFault>
    ensures ok { OnOk result (out.new.items ≡ out.old.items ++ context_back owner.now n) }
    ensures fits { OnOk result ((is_number n && is_owner owner.now) ≡ true) }
    ensures err { IfErr result (λ fault. fault ≡ Memory) }
{
    open_member(",", "owner", out)?;
    write_owner(alloc, owner, out)?;
    open_member(",", "request_id", out)?;
    write_id(n, out)?;
    add(b"}", out)
}

/// Adds the context of a call.
pub(crate) fn write_context(
    alloc: Global,
    dep: &Name,
    owner: &Owner,
    n: u64,
    out: &mut Vec<u8>,
) -> Result<(), WireFault>
    ensures ok { OnOk result (out.new.items ≡ out.old.items ++ compact_text (context dep.now owner.now n)) }
    ensures fits { OnOk result ((is_number n && is_owner owner.now && is_name dep.now) ≡ true) }
    ensures err { IfErr result (λ fault. fault ≡ Memory) }
{
    open_context(dep, out)?;
    close_context(alloc, owner, n, out)
}

// The values of `deployment`, `director_uuid`, `owner` and `request_id`, where these are all keys. Dear to prove, since the
// members are gone over.
fn context_parts(value: &Value) -> Option<(&Value, &Value, &Value, &Value)>
    ensures { option_map (λ p. (view p.0.now, view p.1.now, view p.2.now, view p.3.now)) result ≡ context_parts (view value.now) }
{
    let mut members = value.as_object()?.iter();
    let (dep, director) = next_two(&mut members, "deployment", "director_uuid")?;
    let (owner, id) = next_two(&mut members, "owner", "request_id")?;
    if !is_last(&mut members) {
        return None;
    }
    Some((dep, director, owner, id))
}

fn read_id(value: &Value) -> Result<u64, WireFault>
    ensures { Gives result (id_from (view value.now)) }
{
    match value.as_str() {
        Some(text) => number_in(text),
        None => Err(WireFault::NotAValue),
    }
}

fn read_owner(alloc: Global, value: &Value) -> Result<Owner, WireFault>
    ensures { Gives result (owner_from (view value.now)) }
{
    match value.as_str() {
        Some(text) => owner_in(alloc, text),
        None => Err(WireFault::NotAValue),
    }
}

fn is_director(value: &Value) -> bool
    ensures { result ≡ is_some (director_from (view value.now)) }
{
    match value.as_str() {
        Some(text) => text == "boshd",
        None => false,
    }
}

/// The number, the deployment and the owner of a context.
#[tactic(auto, unfolding(crate::specs::Request::context_from))]
pub(crate) fn read_context(alloc: Global, value: &Value) -> Result<(u64, Name, Owner), WireFault>
    ensures { Gives result (context_from (view value.now)) }
{
    let Some((dep, director, owner, id)) = context_parts(value) else {
        return Err(WireFault::NotAValue);
    };
    if !is_director(director) {
        return Err(WireFault::NotAValue);
    }
    let n = read_id(id)?;
    let dep = Name::read(alloc, dep)?;
    let owner = read_owner(alloc, owner)?;
    Ok((n, dep, owner))
}
