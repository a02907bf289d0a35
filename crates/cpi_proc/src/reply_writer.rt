ghost use Rattle.std.specs.Prelude.{◌≡◌, ◌++◌, ◌&&◌, true, OnOk, IfOk, IfErr};
ghost use Rattle.std.specs.List.{list_all};
ghost use Rattle.bosh_base.specs.Answer.{is_kind};
ghost use Rattle.bosh_base.specs.Call.{method_of};
ghost use Rattle.serde_json.specs.Written.{compact_text};
ghost use Rattle.cpi_proc.specs.Reply.{Replies, can_reply, error_data, has_numbers, has_parts, is_cid, is_count, no_log, reply_data, reply_front, reply_middle, reply_text, result_data};
ghost use Rattle.cpi_proc.specs.declared.fault.PortFault.TheVariants.{Memory};

use crate::context::open_member;
use crate::fault::PortFault;
use bosh_base::{Answer, Call};
use cpi_wire::{WireFault, Wired, add, write_quoted, write_three};
use std::alloc::Global;

pub(crate) fn is_count(n: u64) -> bool
    ensures { result ≡ is_count n }
{
    n < 1 << 63
}

pub(crate) fn is_cid(n: u64) -> bool
    ensures { result ≡ is_cid n }
{
    0 < n && is_count(n)
}

pub(crate) fn are_counts(numbers: &[u64]) -> bool
    ensures { result ≡ list_all is_count numbers.now }
{
    numbers.iter().all(|n| is_count(*n))
}

#[tactic(auto, unfolding(crate::specs::Reply::has_numbers))]
fn has_numbers(answer: &Answer) -> bool
    ensures { result ≡ has_numbers answer.now }
{
    match answer {
        Answer::Cid(n) => is_cid(*n),
        Answer::Found(Some(n)) => is_count(*n),
        Answer::Found(None) => true,
        Answer::Disks(disks) => are_counts(disks.as_slice()),
        Answer::Failed => false,
        Answer::Done => true,
        Answer::Yes => true,
        Answer::No => true,
        Answer::Facts { .. } => true,
        Answer::Built(_) => true,
        Answer::Gone => true,
    }
}

/// Whether an answer can be replied to a call: it is of the call's kind, no failure, its numbers are below 2^63, and that of what
/// was created is not 0.
pub fn can_reply(call: &Call, answer: &Answer) -> bool
    ensures { result ≡ can_reply (method_of call.now) answer.now }
{
    answer.is_kind(call.method()) && has_numbers(answer)
}

#[tactic(auto, unfolding(crate::specs::Reply::result_data, crate::specs::Reply::has_parts))]
fn write_result(answer: &Answer, out: &mut Vec<u8>) -> Result<(), WireFault>
    ensures ok { OnOk result (out.new.items ≡ out.old.items ++ compact_text (result_data answer.now)) }
    ensures fits { OnOk result (has_parts answer.now ≡ true) }
    ensures err { IfErr result (λ fault. fault ≡ WireFault.Memory) }
{
    match answer {
        Answer::Cid(n) => n.write(out),
        Answer::Found(found) => found.write(out),
        Answer::Yes => add(b"true", out),
        Answer::No => add(b"false", out),
        Answer::Disks(disks) => disks.write(out),
        Answer::Facts {
            spec,
            running,
            drained,
        } => write_three(spec, running, drained, out),
        Answer::Built(digest) => digest.write(out),
        Answer::Done => add(b"null", out),
        Answer::Gone => add(b"null", out),
        Answer::Failed => add(b"null", out),
    }
}

fn add_gone(out: &mut Vec<u8>) -> Result<(), WireFault>
    ensures ok { OnOk result (out.new.items ≡ out.old.items ++ compact_text (error_data Answer.Gone)) }
    ensures err { IfErr result (λ fault. fault ≡ WireFault.Memory) }
{
    open_member("{", "type", out)?;
    write_quoted(b"Gone", out)?;
    add(b"}", out)
}

#[tactic(auto, unfolding(crate::specs::Reply::error_data))]
fn write_error(answer: &Answer, out: &mut Vec<u8>) -> Result<(), WireFault>
    ensures ok { OnOk result (out.new.items ≡ out.old.items ++ compact_text (error_data answer.now)) }
    ensures err { IfErr result (λ fault. fault ≡ WireFault.Memory) }
{
    match answer {
        Answer::Gone => add_gone(out),
        _ => add(b"null", out),
    }
}

// The brace, and the member of the error.
fn open_reply(answer: &Answer, out: &mut Vec<u8>) -> Result<(), WireFault>
    ensures ok { OnOk result (out.new.items ≡ out.old.items ++ reply_front answer.now) }
    ensures err { IfErr result (λ fault. fault ≡ WireFault.Memory) }
{
    open_member("{", "error", out)?;
    write_error(answer, out)
}

#[tactic(auto, unfolding(crate::specs::Reply::no_log))]
fn add_no_log(out: &mut Vec<u8>) -> Result<(), WireFault>
    ensures ok { OnOk result (out.new.items ≡ out.old.items ++ no_log) }
    ensures err { IfErr result (λ fault. fault ≡ WireFault.Memory) }
{
    write_quoted(b"", out)
}

// The member of the log, which is empty, and the key of the result.
fn add_middle(out: &mut Vec<u8>) -> Result<(), WireFault>
    ensures ok { OnOk result (out.new.items ≡ out.old.items ++ reply_middle) }
    ensures err { IfErr result (λ fault. fault ≡ WireFault.Memory) }
{
    open_member(",", "log", out)?;
    add_no_log(out)?;
    open_member(",", "result", out)
}

fn add_reply(answer: &Answer, out: &mut Vec<u8>) -> Result<(), WireFault>
    ensures ok { OnOk result (out.new.items ≡ out.old.items ++ compact_text (reply_data answer.now)) }
    ensures fits { OnOk result (has_parts answer.now ≡ true) }
    ensures err { IfErr result (λ fault. fault ≡ WireFault.Memory) }
{
    open_reply(answer, out)?;
    add_middle(out)?;
    write_result(answer, out)?;
    add(b"}", out)
}

/// The text of a reply to a call. The only refusal is `Memory`.
pub fn write_reply(alloc: Global, call: &Call, answer: &Answer) -> Result<Vec<u8>, PortFault>
    requires { can_reply (method_of call.now) answer.now ≡ true }
    ensures text { IfOk result (λ text. text.items ≡ reply_text answer.now) }
    ensures replies { IfOk result (λ text. Replies (method_of call.now) text.items answer.now) }
    ensures err { IfErr result (λ fault. fault ≡ Memory) }
{
    let mut out = Vec::new(alloc);
    add_reply(answer, &mut out)?;
    Ok(out)
}
