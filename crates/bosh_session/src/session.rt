ghost use Rattle.std.specs.Prelude.{◌≡◌, ◌∷◌, [], IfErr, IfOk, OnErr, OnOk};
ghost use Rattle.bosh_report.specs.Reply.{text_of};
ghost use Rattle.bosh_transcript.specs.Carried.{Answers, AnswersUpTo, Carries, CarriesUpTo};
ghost use Rattle.bosh_transcript.specs.Extents.{extent_of};
ghost use Rattle.bosh_transcript.specs.Past.{Continues};
ghost use Rattle.bosh_transcript.specs.Replies.{is_error};
ghost use Rattle.bosh_transcript.specs.Segments.{AreAnswered, AreAnsweredUpTo, AreTold, AreToldUpTo, IsReply};
ghost use Rattle.bosh_transcript.specs.Segments.{IsReplyUpTo, said_reply};
ghost use Rattle.bosh_transcript.specs.Sessions.{IsSession};
ghost use Rattle.bosh_transcript.specs.Status.{at_end};
ghost use Rattle.bosh_transcript.specs.declared.status.Status.TheVariants as statuses;
ghost use Rattle.bosh_transcript.specs.Writing.{WritesAll, WritesPart};

use crate::generate::generate;
use crate::together::together;
use bosh_answers::{AnswerFault, Files};
use bosh_base::Reply;
use bosh_director::Director;
use bosh_input::{Input, Request};
use bosh_ports::{Shelf, Sink, Source};
use bosh_report::say;
use bosh_transcript::{Extent, Numbered, Status, extent_of, next, write_all};
use std::alloc::Global;

/// Carries out the commands of an input, one after the other, and writes what each is answered: to the end of the input, or
/// to an event that ends the session.
pub fn carry_out_all<I: Source, O: Sink, F: Shelf, D: Director>(
    alloc: Global,
    source: &mut I,
    out: &mut O,
    shelf: &mut F,
    director: &mut D,
) -> Status
    ensures session { IsSession I.left I.faults O.written O.faults source.old source.new out.old out.new result
        (D.past director.old) (D.past director.new) }
    ensures kept { D.is_good director.old → D.is_good director.new }
{
    match carry_out_each(alloc, source, out, shelf, director) {
        Ok(false) => Status::Good,
        Ok(true) => Status::Failed,
        Err(event) => event,
    }
}

// Whether a command was answered with an error, at the end of the input; or the event that ends the session.
fn carry_out_each<I: Source, O: Sink, F: Shelf, D: Director>(
    alloc: Global,
    source: &mut I,
    out: &mut O,
    shelf: &mut F,
    director: &mut D,
) -> Result<bool, Status>
    ensures complete { IfOk result (λ fails. IsSession I.left I.faults O.written O.faults
        source.old source.new out.old out.new (at_end fails) (D.past director.old) (D.past director.new)) }
    ensures event { IfErr result (λ status. IsSession I.left I.faults O.written O.faults
        source.old source.new out.old out.new status (D.past director.old) (D.past director.new)) }
    ensures kept { D.is_good director.old → D.is_good director.new }
{
    let mut input = Input::new(alloc)?;
    let mut files = Files::new(alloc);
    let mut fails = false;
    while let Some(command) = next(&mut input, source)? {
        let failed = carry_out(
            alloc, command, &mut input, source, &mut files, shelf, out, director,
        )?;
        fails |= failed;
    }
    Ok(fails)
}

// Carries out a command with those that belong to it. Whether one was answered with an error.
fn carry_out<I: Source, O: Sink, F: Shelf, D: Director>(
    alloc: Global,
    command: Numbered,
    input: &mut Input,
    source: &mut I,
    files: &mut Files,
    shelf: &mut F,
    out: &mut O,
    director: &mut D,
) -> Result<bool, Status>
    requires { command.number ≡ input.old.reader.given }
    ensures carries { IfOk result (Carries I.left I.faults O.written O.faults (extent_of command.request.asked)
        command.number input.old input.new source.old source.new (D.past director.old) (D.past director.new)
        out.old out.new) }
    ensures cut { IfErr result (CarriesUpTo I.left I.faults O.written O.faults (extent_of command.request.asked)
        command.number input.old input.new source.old source.new (D.past director.old) (D.past director.new)
        out.old out.new) }
    ensures kept { D.is_good director.old → D.is_good director.new }
{
    let Numbered { number, request } = command;
    match extent_of(&request.asked) {
        Extent::Together { count } => {
            drop(request);
            together(
                alloc, count, number, input, source, files, shelf, out, director,
            )
        }
        Extent::Generated { instances } => {
            drop(request);
            generate(alloc, instances, number, out, director)
        }
        Extent::Single => carry_out_one(alloc, request, number, files, shelf, out, director),
    }
}

fn carry_out_one<O: Sink, F: Shelf, D: Director>(
    alloc: Global,
    request: Request,
    number: u32,
    files: &mut Files,
    shelf: &mut F,
    out: &mut O,
    director: &mut D,
) -> Result<bool, Status>
    ensures answers { IfOk result (Answers O.written O.faults (AreAnswered (number ∷ []))
        (D.past director.old) (D.past director.new) out.old out.new) }
    ensures cut { IfErr result (AnswersUpTo O.written O.faults (AreAnsweredUpTo (number ∷ []))
        (D.past director.old) (D.past director.new) out.old out.new) }
    ensures kept { D.is_good director.old → D.is_good director.new }
{
    let reply = director.answer(alloc, request, files, shelf);
    tell_answer(alloc, number, reply, out, director)
}

/// Notes the reply of a command in the history, where there is one, and writes its text. Whether it is an error.
pub(crate) fn tell_answer<O: Sink, D: Director>(
    alloc: Global,
    number: u32,
    reply: Result<Reply, AnswerFault>,
    out: &mut O,
    director: &mut D,
) -> Result<bool, Status>
    ensures answers { IfOk result (Answers O.written O.faults (AreTold (number ∷ []))
        (D.past director.old) (D.past director.new) out.old out.new) }
    ensures cut { IfErr result (AnswersUpTo O.written O.faults (AreToldUpTo (number ∷ []))
        (D.past director.old) (D.past director.new) out.old out.new) }
    ensures kept { D.is_good director.old → D.is_good director.new }
{
    match reply {
        Ok(reply) => tell(alloc, number, reply, out, director),
        Err(AnswerFault::Memory) => Err(Status::Memory),
    }
}

// Whether a reply is not good.
fn is_error(reply: &Reply) -> bool
    ensures { result ≡ is_error reply.now }
{
    matches!(
        reply,
        Reply::TaskFailed(_) | Reply::TaskGone(_) | Reply::Refused(_)
    )
}

/// Notes the reply of a command in the history, and writes its text. Whether it is an error.
pub(crate) fn tell<O: Sink, D: Director>(
    alloc: Global,
    number: u32,
    reply: Reply,
    out: &mut O,
    director: &mut D,
) -> Result<bool, Status>
    ensures answers { IfOk result (Answers O.written O.faults (IsReply number reply)
        (D.past director.old) (D.past director.new) out.old out.new) }
    ensures fails { IfOk result (λ fails. fails ≡ is_error reply) }
    ensures cut { IfErr result (AnswersUpTo O.written O.faults (IsReplyUpTo number reply)
        (D.past director.old) (D.past director.new) out.old out.new) }
    ensures kept { D.is_good director.old → D.is_good director.new }
{
    let fails = is_error(&reply);
    match said(alloc, number, reply, director) {
        Ok(text) => write_told(text, fails, out),
        Err(AnswerFault::Memory) => Err(Status::Memory),
    }
}

// Writes the text of a reply that is an error or none.
fn write_told<O: Sink>(text: Vec<u8>, fails: bool, out: &mut O) -> Result<bool, Status>
    ensures told { IfOk result (λ told. told ≡ fails) }
    ensures whole { OnOk result (WritesAll O.written O.faults text.items out.old out.new) }
    ensures cut { IfErr result (λ status. (status ≡ statuses.Sink) × WritesPart O.written O.faults text.items out.old out.new) }
{
    match write_all(out, text.as_slice()) {
        Ok(()) => Ok(fails),
        Err(status) => Err(status),
    }
}

// The text of a reply, which is noted.
fn said<D: Director>(
    alloc: Global,
    number: u32,
    reply: Reply,
    director: &mut D,
) -> Result<Vec<u8>, AnswerFault>
    ensures text { IfOk result (λ text. text.items ≡ text_of reply) }
    ensures said { OnOk result (Continues (D.past director.old) (said_reply number reply ∷ []) (D.past director.new)) }
    ensures refused { OnErr result (Continues (D.past director.old) [] (D.past director.new)) }
    ensures kept { D.is_good director.old → D.is_good director.new }
{
    match say(alloc, &reply) {
        Ok(text) => noted(number, reply, text, director),
        Err(_) => {
            drop(reply);
            Err(AnswerFault::Memory)
        }
    }
}

fn noted<D: Director>(
    number: u32,
    reply: Reply,
    text: Vec<u8>,
    director: &mut D,
) -> Result<Vec<u8>, AnswerFault>
    ensures text { IfOk result (λ noted. noted.items ≡ text.items) }
    ensures said { OnOk result (Continues (D.past director.old) (said_reply number reply ∷ []) (D.past director.new)) }
    ensures refused { OnErr result (Continues (D.past director.old) [] (D.past director.new)) }
    ensures kept { D.is_good director.old → D.is_good director.new }
{
    match director.say(number, reply) {
        Ok(()) => Ok(text),
        Err(fault) => {
            drop(text);
            Err(fault)
        }
    }
}
