//! Commands that are carried out at once: they are read first, their tasks are opened in order, and then run together.
ghost use Rattle.std.specs.Prelude.{◌≡◌, ◌∷◌, ◌++◌, [], false, IfErr, IfOk, OnOk, map};
ghost use Rattle.std.specs.List.Sorted.{IsPermutation};
ghost use Rattle.bosh_session.specs.Running.{ended_by, halt_of, number_in, number_of, running_in};
ghost use Rattle.bosh_transcript.specs.Carried.{Answers, AnswersUpTo, Carries, CarriesUpTo};
ghost use Rattle.bosh_transcript.specs.Past.{Proceeds};
ghost use Rattle.bosh_transcript.specs.Segments.{AreAnsweredUpTo, AreOpenedUpTo, AreRun, AreRunUpTo, AreTogether};
ghost use Rattle.bosh_transcript.specs.Segments.{AreTogetherUpTo, AreTold, AreToldUpTo, OpensMore};
ghost use Rattle.bosh_transcript.specs.declared.extent.Extent.TheVariants as extent;
ghost use Rattle.bosh_transcript.specs.declared.status.Status.TheVariants.{Memory};

use crate::memory::answered;
use crate::session::{tell, tell_answer};
use bosh_answers::{AnswerFault, Files};
use bosh_base::{Cause, Entry, Move, Reply};
use bosh_director::{Director, Left, Opened};
use bosh_input::Input;
use bosh_ports::{Shelf, Sink, Source};
use bosh_transcript::{Numbered, Status, next_commands};
use std::alloc::Global;

/// A task that was opened by the command of a number.
#[derive(Clone, Copy)]
struct Running {
    number: u32,
    task: u64,
}

/// One that has its end at a place among entries, or after all of them.
#[derive(Clone, Copy)]
struct Placed {
    place: usize,
    running: Running,
}

/// Carries out the next commands of an input at once. Whether one was answered with an error.
pub(crate) fn together<I: Source, O: Sink, F: Shelf, D: Director>(
    alloc: Global,
    count: u64,
    number: u32,
    input: &mut Input,
    source: &mut I,
    files: &Files,
    shelf: &mut F,
    out: &mut O,
    director: &mut D,
) -> Result<bool, Status>
    requires { number ≡ input.old.reader.given }
    ensures carries { IfOk result (Carries I.left I.faults O.written O.faults (extent.Together count) number
        input.old input.new source.old source.new (D.past director.old) (D.past director.new) out.old out.new) }
    ensures cut { IfErr result (CarriesUpTo I.left I.faults O.written O.faults (extent.Together count) number
        input.old input.new source.old source.new (D.past director.old) (D.past director.new) out.old out.new) }
    ensures kept { D.is_good director.old → D.is_good director.new }
{
    tell(alloc, number, Reply::Nothing, out, director)?;
    let commands = next_commands(alloc, count, input, source)?;
    carry_out_commands(alloc, commands, files, shelf, out, director)
}

fn carry_out_commands<O: Sink, F: Shelf, D: Director>(
    alloc: Global,
    commands: Vec<Numbered>,
    files: &Files,
    shelf: &mut F,
    out: &mut O,
    director: &mut D,
) -> Result<bool, Status>
    ensures answers { IfOk result (Answers O.written O.faults (AreTogether (map number_in commands.items))
        (D.past director.old) (D.past director.new) out.old out.new) }
    ensures cut { IfErr result (AnswersUpTo O.written O.faults (AreTogetherUpTo (map number_in commands.items))
        (D.past director.old) (D.past director.new) out.old out.new) }
    ensures kept { D.is_good director.old → D.is_good director.new }
{
    let mut running = Vec::new(alloc);
    let failed = open_each(alloc, commands, &mut running, files, shelf, out, director)?;
    let ended = run(alloc, running.as_slice(), out, director)?;
    Ok(failed | ended)
}

// Opens the task of each command. Whether one was refused.
fn open_each<O: Sink, F: Shelf, D: Director>(
    alloc: Global,
    commands: Vec<Numbered>,
    running: &mut Vec<Running>,
    files: &Files,
    shelf: &mut F,
    out: &mut O,
    director: &mut D,
) -> Result<bool, Status>
    ensures opens { IfOk result (Answers O.written O.faults (OpensMore (map number_in commands.items)
        (map number_of running.old.items) (map number_of running.new.items))
        (D.past director.old) (D.past director.new) out.old out.new) }
    ensures cut { IfErr result (AnswersUpTo O.written O.faults (AreOpenedUpTo (map number_in commands.items))
        (D.past director.old) (D.past director.new) out.old out.new) }
    ensures kept { D.is_good director.old → D.is_good director.new }
{
    let mut fails = false;
    for command in commands {
        let failed = open_one(alloc, command, running, files, shelf, out, director)?;
        fails |= failed;
    }
    Ok(fails)
}

fn open_one<O: Sink, F: Shelf, D: Director>(
    alloc: Global,
    command: Numbered,
    running: &mut Vec<Running>,
    files: &Files,
    shelf: &mut F,
    out: &mut O,
    director: &mut D,
) -> Result<bool, Status>
    ensures opens { IfOk result (Answers O.written O.faults (OpensMore (command.number ∷ [])
        (map number_of running.old.items) (map number_of running.new.items))
        (D.past director.old) (D.past director.new) out.old out.new) }
    ensures cut { IfErr result (AnswersUpTo O.written O.faults (AreAnsweredUpTo (command.number ∷ []))
        (D.past director.old) (D.past director.new) out.old out.new) }
    ensures kept { D.is_good director.old → D.is_good director.new }
{
    let Numbered { number, request } = command;
    match director.open(alloc, request, files, shelf) {
        Ok(Opened::Task(task)) => add(running, Running { number, task }),
        Ok(Opened::Refused(reply)) => tell(alloc, number, reply, out, director),
        Err(AnswerFault::Memory) => Err(Status::Memory),
    }
}

// One more task runs. No command was answered with an error.
fn add(running: &mut Vec<Running>, it: Running) -> Result<bool, Status>
    ensures added { OnOk result (running.new.items ≡ running.old.items ++ it ∷ []) }
    ensures good { IfOk result (λ fails. fails ≡ false) }
    ensures memory { IfErr result (λ status. status ≡ Memory) }
{
    running.push(it)?;
    Ok(false)
}

// Runs the tasks that were opened, and tells how they ended. Whether one was answered with an error.
fn run<O: Sink, D: Director>(
    alloc: Global,
    running: &[Running],
    out: &mut O,
    director: &mut D,
) -> Result<bool, Status>
    ensures answers { IfOk result (Answers O.written O.faults (AreRun (map number_of running.now))
        (D.past director.old) (D.past director.new) out.old out.new) }
    ensures cut { IfErr result (AnswersUpTo O.written O.faults (AreRunUpTo (map number_of running.now))
        (D.past director.old) (D.past director.new) out.old out.new) }
    ensures kept { D.is_good director.old → D.is_good director.new }
{
    let before = director.entries().len();
    let left = answered(run_all(alloc, running, director))?;
    let order = answered(by_end(alloc, running, entries_since(director.entries(), before)))?;
    tell_each(alloc, order.as_slice(), left, out, director)
}

// A director that has halted runs none.
fn run_all<D: Director>(
    alloc: Global,
    running: &[Running],
    director: &mut D,
) -> Result<Left, AnswerFault>
    ensures proceeds { Proceeds (D.past director.old) (D.past director.new) }
    ensures kept { D.is_good director.old → D.is_good director.new }
{
    if director.is_halted() {
        return Ok(Left::Halted(last_halt(director.moves())));
    }
    let tasks = tasks_of(alloc, running)?;
    director.carry_out(tasks.as_slice())
}

fn halt_of(step: &Move) -> Option<Cause>
    ensures { result ≡ halt_of step.now }
{
    match step {
        Move::Halt(cause) => Some(*cause),
        _ => None,
    }
}

// Why a director halted last.
fn last_halt(moves: &[Move]) -> Cause {
    moves
        .iter()
        .rev()
        .find_map(|step| halt_of(step))
        .unwrap_or(Cause::Stop)
}

fn tasks_of(alloc: Global, running: &[Running]) -> Result<Vec<u64>, AnswerFault> {
    let mut tasks = Vec::new(alloc);
    for it in running {
        tasks.push(it.task)?;
    }
    Ok(tasks)
}

fn entries_since(entries: &[Entry], before: usize) -> &[Entry] {
    match entries.get(before..) {
        Some(since) => since,
        None => entries,
    }
}

// The task that an entry ends.
fn ended_by(entry: &Entry) -> Option<u64>
    ensures { result ≡ ended_by entry.now }
{
    match entry {
        Entry::TaskDone(task) => Some(*task),
        Entry::TaskError(error) => Some(error.task),
        _ => None,
    }
}

// The place of the entry that ends a task; one after all where none does.
fn place_of_end(entries: &[Entry], task: u64) -> usize {
    match entries
        .iter()
        .position(|entry| ended_by(entry) == Some(task))
    {
        Some(place) => place,
        None => entries.len(),
    }
}

// The tasks in the order in which entries end them, and then those that have no end.
fn by_end(
    alloc: Global,
    running: &[Running],
    entries: &[Entry],
) -> Result<Vec<Running>, AnswerFault>
    ensures order { IfOk result (λ order. IsPermutation running.now order.items) }
{
    let mut ended = with_places(alloc, running, entries)?;
    ended.sort_by_key(|it| it.place)?;
    without_places(alloc, ended.as_slice())
}

fn with_places(
    alloc: Global,
    running: &[Running],
    entries: &[Entry],
) -> Result<Vec<Placed>, AnswerFault>
    ensures same { IfOk result (λ placed. map running_in placed.items ≡ running.now) }
{
    let mut placed = Vec::new(alloc);
    for it in running {
        placed.push(Placed {
            place: place_of_end(entries, it.task),
            running: *it,
        })?;
    }
    Ok(placed)
}

fn without_places(alloc: Global, placed: &[Placed]) -> Result<Vec<Running>, AnswerFault>
    ensures same { IfOk result (λ running. running.items ≡ map running_in placed.now) }
{
    let mut running = Vec::new(alloc);
    for it in placed {
        running.push(it.running)?;
    }
    Ok(running)
}

fn tell_each<O: Sink, D: Director>(
    alloc: Global,
    order: &[Running],
    left: Left,
    out: &mut O,
    director: &mut D,
) -> Result<bool, Status>
    ensures answers { IfOk result (Answers O.written O.faults (AreTold (map number_of order.now))
        (D.past director.old) (D.past director.new) out.old out.new) }
    ensures cut { IfErr result (AnswersUpTo O.written O.faults (AreToldUpTo (map number_of order.now))
        (D.past director.old) (D.past director.new) out.old out.new) }
    ensures kept { D.is_good director.old → D.is_good director.new }
{
    let mut fails = false;
    for it in order {
        let failed = tell_one(alloc, *it, left, out, director)?;
        fails |= failed;
    }
    Ok(fails)
}

fn tell_one<O: Sink, D: Director>(
    alloc: Global,
    it: Running,
    left: Left,
    out: &mut O,
    director: &mut D,
) -> Result<bool, Status>
    ensures answers { IfOk result (Answers O.written O.faults (AreTold (it.number ∷ []))
        (D.past director.old) (D.past director.new) out.old out.new) }
    ensures cut { IfErr result (AnswersUpTo O.written O.faults (AreToldUpTo (it.number ∷ []))
        (D.past director.old) (D.past director.new) out.old out.new) }
    ensures kept { D.is_good director.old → D.is_good director.new }
{
    let reply = director.told(alloc, it.task, left);
    tell_answer(alloc, it.number, reply, out, director)
}
