//! A large deployment is made from a number and deployed, as if by four commands.
ghost use Rattle.std.specs.Prelude.{◌∷◌, ◌≤◌, [], IfErr, IfOk};
ghost use Rattle.bosh_transcript.specs.Carried.{Answers, AnswersUpTo};
ghost use Rattle.bosh_transcript.specs.Past.{Proceeds};
ghost use Rattle.bosh_transcript.specs.Segments.{AreAnswered, AreAnsweredUpTo};

use crate::session::{tell, tell_answer};
use bosh_answers::AnswerFault;
use bosh_base::{Generated, Move, Name, Reply, Stemcell, Text};
use bosh_director::Director;
use bosh_generator::{cloud_config, groups, manifest, release};
use bosh_ports::Sink;
use bosh_transcript::Status;
use std::alloc::Global;

/// The most instances that are made.
const MOST_INSTANCES: u64 = 512;

/// The instances of a deployment that is made, at most 512.
#[derive(Clone, Copy)]
struct Fleet {
    instances: u64,
    ghost is_made: { instances ≤ 512 },
}

/// A command that the making of a deployment stands for.
#[derive(Clone, Copy)]
enum Step {
    Stemcell,
    Release,
    CloudConfig,
    Deploy(Fleet),
}

/// Makes so many instances. Whether one of the commands that it stands for was answered with an error.
pub(crate) fn generate<O: Sink, D: Director>(
    alloc: Global,
    instances: u64,
    number: u32,
    out: &mut O,
    director: &mut D,
) -> Result<bool, Status>
    ensures answers { IfOk result (Answers O.written O.faults
        (AreAnswered (number ∷ number ∷ number ∷ number ∷ number ∷ []))
        (D.past director.old) (D.past director.new) out.old out.new) }
    ensures cut { IfErr result (AnswersUpTo O.written O.faults
        (AreAnsweredUpTo (number ∷ number ∷ number ∷ number ∷ number ∷ []))
        (D.past director.old) (D.past director.new) out.old out.new) }
    ensures kept { D.is_good director.old → D.is_good director.new }
{
    let fleet = Fleet {
        instances: instances.min(MOST_INSTANCES),
    };
    let before = director.moves().len();
    let prepared = prepare(alloc, number, out, director)?;
    let deployed = step_told(alloc, Step::Deploy(fleet), number, out, director)?;
    let generated = Reply::Generated(Generated {
        instances: fleet.instances,
        groups: groups(fleet.instances),
        calls: calls_since(director.moves(), before),
    });
    tell(alloc, number, generated, out, director)?;
    Ok(prepared | deployed)
}

fn is_call(step: &Move) -> bool {
    matches!(step, Move::Did(_))
}

// How many calls were performed after so many moves.
fn calls_since(moves: &[Move], before: usize) -> u64 {
    moves
        .iter()
        .skip(before)
        .filter(|step| is_call(step))
        .count() as u64
}

// Uploads what the deployment needs.
fn prepare<O: Sink, D: Director>(
    alloc: Global,
    number: u32,
    out: &mut O,
    director: &mut D,
) -> Result<bool, Status>
    ensures answers { IfOk result (Answers O.written O.faults (AreAnswered (number ∷ number ∷ number ∷ []))
        (D.past director.old) (D.past director.new) out.old out.new) }
    ensures cut { IfErr result (AnswersUpTo O.written O.faults (AreAnsweredUpTo (number ∷ number ∷ number ∷ []))
        (D.past director.old) (D.past director.new) out.old out.new) }
    ensures kept { D.is_good director.old → D.is_good director.new }
{
    let stemcell = step_told(alloc, Step::Stemcell, number, out, director)?;
    let release = step_told(alloc, Step::Release, number, out, director)?;
    let config = step_told(alloc, Step::CloudConfig, number, out, director)?;
    Ok(stemcell | release | config)
}

// Takes a step, and tells what came of it. Whether it was answered with an error.
fn step_told<O: Sink, D: Director>(
    alloc: Global,
    step: Step,
    number: u32,
    out: &mut O,
    director: &mut D,
) -> Result<bool, Status>
    ensures answers { IfOk result (Answers O.written O.faults (AreAnswered (number ∷ []))
        (D.past director.old) (D.past director.new) out.old out.new) }
    ensures cut { IfErr result (AnswersUpTo O.written O.faults (AreAnsweredUpTo (number ∷ []))
        (D.past director.old) (D.past director.new) out.old out.new) }
    ensures kept { D.is_good director.old → D.is_good director.new }
{
    let reply = take_step(alloc, step, director);
    tell_answer(alloc, number, reply, out, director)
}

fn take_step<D: Director>(alloc: Global, step: Step, director: &mut D) -> Result<Reply, AnswerFault>
    ensures proceeds { Proceeds (D.past director.old) (D.past director.new) }
    ensures kept { D.is_good director.old → D.is_good director.new }
{
    match step {
        Step::Stemcell => add_stemcell(alloc, director),
        Step::Release => add_release(alloc, director),
        Step::CloudConfig => director.set_config(alloc, cloud_config()),
        Step::Deploy(fleet) => deploy(alloc, fleet, director),
    }
}

fn name(alloc: Global) -> Result<Name, AnswerFault> {
    match Name::of(alloc, b"gen") {
        Ok(name) => Ok(name),
        Err(_) => Err(AnswerFault::Memory),
    }
}

fn stemcell(alloc: Global) -> Result<Stemcell, AnswerFault> {
    let os = name(alloc)?;
    Ok(Stemcell {
        os,
        version: Text::from(Vec::from_slice(alloc, b"1")?),
    })
}

fn add_stemcell<D: Director>(alloc: Global, director: &mut D) -> Result<Reply, AnswerFault>
    ensures proceeds { Proceeds (D.past director.old) (D.past director.new) }
    ensures kept { D.is_good director.old → D.is_good director.new }
{
    match stemcell(alloc) {
        Ok(stemcell) => director.upload_stemcell(alloc, &stemcell),
        Err(fault) => Err(fault),
    }
}

fn add_release<D: Director>(alloc: Global, director: &mut D) -> Result<Reply, AnswerFault>
    ensures proceeds { Proceeds (D.past director.old) (D.past director.new) }
    ensures kept { D.is_good director.old → D.is_good director.new }
{
    let files = release(alloc)?;
    director.upload_files(alloc, files.as_slice(), b"1")
}

fn deploy<D: Director>(alloc: Global, fleet: Fleet, director: &mut D) -> Result<Reply, AnswerFault>
    ensures proceeds { Proceeds (D.past director.old) (D.past director.new) }
    ensures kept { D.is_good director.old → D.is_good director.new }
{
    let dep = name(alloc)?;
    let text = manifest(alloc, fleet.instances)?;
    director.deploy_text(alloc, &dep, text.as_slice())
}
