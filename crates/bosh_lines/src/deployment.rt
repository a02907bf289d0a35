//! Lines about one deployment.
ghost use Rattle.std.specs.Prelude.{◌≡◌, IfErr, IfOk, true};
ghost use Rattle.bosh_base.specs.Name.{is_name};
ghost use Rattle.bosh_line_words.specs.Grammar.{IsRefused};
ghost use Rattle.bosh_line_words.specs.Words.{words_in};
ghost use Rattle.bosh_line_words.specs.declared.fault.LineFault.TheVariants.{Memory};
ghost use Rattle.bosh_lines.specs.Forms.{IsRead, cloud_check_form, delete_deployment_form, deploy_form, instances_form, recreate_form, start_form, stop_form};

use crate::site::copied;
use crate::variable::{VariableWord, variables};
use crate::{Command, Deploy};
use bosh_base::{Name, Text};
use bosh_line_words::{
    Choice, LineFault, Member, Path, Rest, end, has, name_of, one, options, take,
};
use std::alloc::Global;

#[tactic(auto, using(bosh_line_words::proofs::GrammarLemmas::reading))]
pub(crate) fn instances(alloc: Global, dep: &[u8], rest: Rest<'_>) -> Result<Command, LineFault>
    requires { is_name dep.now ≡ true }
    ensures ok { IfOk result (IsRead (instances_form dep.now) (words_in rest.entry)) }
    ensures refused { IfErr result (IsRefused (instances_form dep.now).places (instances_form dep.now).options (words_in rest.entry)) }
{
    end(rest)?;
    let dep = name_of(alloc, dep)?;
    Ok(Command::Instances { dep })
}

#[tactic(auto, using(bosh_line_words::proofs::GrammarLemmas::reading))]
pub(crate) fn delete_deployment(
    alloc: Global,
    dep: &[u8],
    rest: Rest<'_>,
) -> Result<Command, LineFault>
    requires { is_name dep.now ≡ true }
    ensures ok { IfOk result (IsRead (delete_deployment_form dep.now) (words_in rest.entry)) }
    ensures refused { IfErr result (IsRefused (delete_deployment_form dep.now).places (delete_deployment_form dep.now).options (words_in rest.entry)) }
{
    end(rest)?;
    let dep = name_of(alloc, dep)?;
    Ok(Command::DeleteDeployment { dep })
}

#[tactic(auto, using(bosh_line_words::proofs::GrammarLemmas::reading))]
pub(crate) fn recreate(alloc: Global, dep: &[u8], rest: Rest<'_>) -> Result<Command, LineFault>
    requires { is_name dep.now ≡ true }
    ensures ok { IfOk result (IsRead (recreate_form dep.now) (words_in rest.entry)) }
    ensures refused { IfErr result (IsRefused (recreate_form dep.now).places (recreate_form dep.now).options (words_in rest.entry)) }
{
    let member = one::<Member<'_>>(rest)?;
    let inst = member.of(alloc, dep)?;
    Ok(Command::Recreate(inst))
}

#[tactic(auto, using(bosh_line_words::proofs::GrammarLemmas::reading))]
pub(crate) fn start(alloc: Global, dep: &[u8], rest: Rest<'_>) -> Result<Command, LineFault>
    requires { is_name dep.now ≡ true }
    ensures ok { IfOk result (IsRead (start_form dep.now) (words_in rest.entry)) }
    ensures refused { IfErr result (IsRefused (start_form dep.now).places (start_form dep.now).options (words_in rest.entry)) }
{
    let member = one::<Member<'_>>(rest)?;
    let inst = member.of(alloc, dep)?;
    Ok(Command::Start(inst))
}

// The options of a deploy.
const DEPLOY_OPTIONS: [Choice<'static>; 3] = [
    Choice {
        name: b"-v",
        takes_value: true,
        repeats: true,
    },
    Choice {
        name: b"--recreate",
        takes_value: false,
        repeats: false,
    },
    Choice {
        name: b"--fix",
        takes_value: false,
        repeats: false,
    },
];

// The option of a stop.
const STOP_OPTIONS: [Choice<'static>; 1] = [Choice {
    name: b"--hard",
    takes_value: false,
    repeats: false,
}];

// The option of a check.
const CHECK_OPTIONS: [Choice<'static>; 1] = [Choice {
    name: b"--resolve",
    takes_value: true,
    repeats: false,
}];

// A deployment and a path.
fn named_file(alloc: Global, dep: &[u8], path: &[u8]) -> Result<(Name, Text), LineFault>
    requires { is_name dep.now ≡ true }
    ensures ok { IfOk result (λ it. (it.0 ≡ dep.now) × (it.1 ≡ path.now)) }
    ensures refused { IfErr result (λ fault. fault ≡ Memory) }
{
    let dep = name_of(alloc, dep)?;
    let path = copied(alloc, path)?;
    Ok((dep, path))
}

#[tactic(auto, using(bosh_line_words::proofs::GrammarLemmas::reading))]
pub(crate) fn deploy(alloc: Global, dep: &[u8], rest: Rest<'_>) -> Result<Command, LineFault>
    requires { is_name dep.now ≡ true }
    ensures ok { IfOk result (IsRead (deploy_form dep.now) (words_in rest.entry)) }
    ensures refused { IfErr result (IsRefused (deploy_form dep.now).places (deploy_form dep.now).options (words_in rest.entry)) }
{
    let (Path(path), left) = take::<Path<'_>>(rest)?;
    options::<VariableWord<'_>>(left, &DEPLOY_OPTIONS)?;
    let recreate = has(left, b"--recreate");
    let fix = has(left, b"--fix");
    let (dep, path) = named_file(alloc, dep, path)?;
    let vars = variables(alloc, left)?;
    Ok(Command::Deploy(Deploy {
        dep,
        path,
        vars,
        recreate,
        fix,
    }))
}

#[tactic(auto, using(bosh_line_words::proofs::GrammarLemmas::reading))]
pub(crate) fn stop(alloc: Global, dep: &[u8], rest: Rest<'_>) -> Result<Command, LineFault>
    requires { is_name dep.now ≡ true }
    ensures ok { IfOk result (IsRead (stop_form dep.now) (words_in rest.entry)) }
    ensures refused { IfErr result (IsRefused (stop_form dep.now).places (stop_form dep.now).options (words_in rest.entry)) }
{
    let (member, left) = take::<Member<'_>>(rest)?;
    options::<Member<'_>>(left, &STOP_OPTIONS)?;
    let hard = has(left, b"--hard");
    let inst = member.of(alloc, dep)?;
    Ok(Command::Stop { inst, hard })
}

pub(crate) fn cloud_check(alloc: Global, dep: &[u8], rest: Rest<'_>) -> Result<Command, LineFault>
    requires { is_name dep.now ≡ true }
    ensures ok { IfOk result (IsRead (cloud_check_form dep.now) (words_in rest.entry)) }
    ensures refused { IfErr result (IsRefused (cloud_check_form dep.now).places (cloud_check_form dep.now).options (words_in rest.entry)) }
{
    options::<Member<'_>>(rest, &CHECK_OPTIONS)?;
    let Some((_, left)) = rest.next() else {
        let dep = name_of(alloc, dep)?;
        return Ok(Command::CloudCheck { dep });
    };
    let (member, _) = take::<Member<'_>>(left)?;
    let inst = member.of(alloc, dep)?;
    Ok(Command::Resolve(inst))
}
