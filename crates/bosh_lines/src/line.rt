ghost use Rattle.std.specs.Prelude.{◌≡◌, ◌≤◌, [], Some, length, true};
ghost use Rattle.bosh_base.specs.Name.{is_name};
ghost use Rattle.bosh_line_words.specs.Words.{words_in};
ghost use Rattle.bosh_lines.specs.Lines.{IsParsed, begins_store, by_verb, follows_store, form_on, found_in, on_deployment};
ghost use Rattle.bosh_lines.specs.Lines.{Formed};

use crate::verb::{Action, Verb};
use crate::{Command, call, deployment, site};
use bosh_line_words::{LineFault, Rest, is_name};
use std::alloc::Global;

/// The most bytes of a line.
const MOST_BYTES: usize = 1_048_576;

/// The command that a line is, without its line end. Its words have spaces between them, any number, and may have them at
/// both ends.
///
/// | line | asks for |
/// |---|---|
/// | `file PATH` | the file of a path is what the next lines write |
/// | `upload-release DIR --version=V`, `upload-stemcell OS VERSION`, `update-cloud-config PATH` | uploads, and a config |
/// | `-d DEP deploy PATH [-v NAME=VALUE].. [--recreate] [--fix]`, `-d DEP delete-deployment` | tasks on a deployment |
/// | `-d DEP recreate INST`, `-d DEP start INST`, `-d DEP stop INST [--hard]`, `-d DEP cloud-check --resolve INST` | tasks on an instance, where INST is `GROUP/INDEX` |
/// | `delete-disk disk-N`, `clean-up --all` | tasks on orphaned disks |
/// | `-d DEP instances`, `-d DEP cloud-check`, `disks --orphaned`, `tasks`, `task N`, `releases`, `compiled`, `!cloud` | lists |
/// | `!together N` | the next commands are carried out at once |
/// | `!fail lose\|late METHOD OWNER K`, `!fail store lose\|late K` | a call, or an append to the store, fails |
/// | `!stop before\|after METHOD OWNER K none\|all`, `!stop before\|after store K`, `!restart` | stops and starts |
/// | `!write INST TEXT`, `!read INST`, `!show INST PATH`, `!lose vm\|agent INST` | of an instance's machine, where INST is `DEP/GROUP/INDEX` |
/// | `!generate N` | a large deployment |
pub fn parse_line(alloc: Global, line: &[u8]) -> Result<Command, LineFault>
    ensures { IsParsed (found_in line.now) result }
{
    if line.len() > MOST_BYTES {
        return Err(LineFault::TooLarge);
    }
    let Some((name, rest)) = Rest::of(line).next() else {
        return Err(LineFault::UnknownCommand);
    };
    if name.text == b"-d".as_slice() {
        return on_deployment(alloc, rest);
    }
    match Verb::of(name.text) {
        Some(verb) => by_verb(alloc, verb, line, rest),
        None => Err(LineFault::UnknownCommand),
    }
}

// It has an arm for each verb, and is what the states of its proof are.
fn by_verb(alloc: Global, verb: Verb, line: &[u8], rest: Rest<'_>) -> Result<Command, LineFault>
    requires { length line.now ≤ 1048576 }
    ensures { IsParsed (by_verb (Some verb) line.now (words_in rest.entry)) result }
{
    match verb {
        Verb::File => site::file(alloc, rest),
        Verb::UploadRelease => site::upload_release(alloc, rest),
        Verb::UploadStemcell => site::upload_stemcell(alloc, rest),
        Verb::UpdateCloudConfig => site::update_cloud_config(alloc, rest),
        Verb::Disks => site::disks(rest),
        Verb::DeleteDisk => site::delete_disk(rest),
        Verb::CleanUp => site::clean_up(rest),
        Verb::Tasks => site::tasks(rest),
        Verb::Task => site::task(rest),
        Verb::Releases => site::releases(rest),
        Verb::Compiled => site::compiled(rest),
        Verb::Together => site::together(rest),
        Verb::Fail => fail(alloc, rest),
        Verb::Stop => stop(alloc, rest),
        Verb::Restart => site::restart(rest),
        Verb::Write => call::write(alloc, line, rest),
        Verb::Read => call::read(alloc, rest),
        Verb::Show => call::show(alloc, rest),
        Verb::Lose => call::lose(alloc, rest),
        Verb::Cloud => site::cloud(rest),
        Verb::Generate => site::generate(rest),
    }
}

fn begins_store(rest: Rest<'_>) -> bool
    ensures { result ≡ begins_store (words_in rest.entry) }
{
    match rest.next() {
        Some((word, _)) => word.text == b"store".as_slice(),
        None => false,
    }
}

fn follows_store(rest: Rest<'_>) -> bool
    ensures { result ≡ follows_store (words_in rest.entry) }
{
    match rest.next() {
        Some((_, more)) => begins_store(more),
        None => false,
    }
}

fn fail(alloc: Global, rest: Rest<'_>) -> Result<Command, LineFault>
    ensures { IsParsed (by_verb (Some Verb.Fail) [] (words_in rest.entry)) result }
{
    if begins_store(rest) {
        call::fail_store(rest)
    } else {
        call::fail_call(alloc, rest)
    }
}

fn stop(alloc: Global, rest: Rest<'_>) -> Result<Command, LineFault>
    ensures { IsParsed (by_verb (Some Verb.Stop) [] (words_in rest.entry)) result }
{
    if follows_store(rest) {
        call::stop_store(rest)
    } else {
        call::stop_call(alloc, rest)
    }
}

fn on_deployment(alloc: Global, rest: Rest<'_>) -> Result<Command, LineFault>
    ensures { IsParsed (on_deployment (words_in rest.entry)) result }
{
    let Some((dep, rest)) = rest.next() else {
        return Err(LineFault::Missing);
    };
    let Some((action, rest)) = rest.next() else {
        return if is_name(dep.text) {
            Err(LineFault::Missing)
        } else {
            Err(LineFault::BadArgument { place: dep.place })
        };
    };
    match Action::of(action.text) {
        None => Err(LineFault::UnknownCommand),
        Some(_) if !is_name(dep.text) => Err(LineFault::BadArgument { place: dep.place }),
        Some(action) => by_action(alloc, action, dep.text, rest),
    }
}

fn by_action(
    alloc: Global,
    action: Action,
    dep: &[u8],
    rest: Rest<'_>,
) -> Result<Command, LineFault>
    requires { is_name dep.now ≡ true }
    ensures { IsParsed (Formed (form_on dep.now action) (words_in rest.entry)) result }
{
    match action {
        Action::Deploy => deployment::deploy(alloc, dep, rest),
        Action::Instances => deployment::instances(alloc, dep, rest),
        Action::Recreate => deployment::recreate(alloc, dep, rest),
        Action::Start => deployment::start(alloc, dep, rest),
        Action::Stop => deployment::stop(alloc, dep, rest),
        Action::DeleteDeployment => deployment::delete_deployment(alloc, dep, rest),
        Action::CloudCheck => deployment::cloud_check(alloc, dep, rest),
    }
}
