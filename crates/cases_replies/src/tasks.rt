//! Tasks and problems, as cases give them: a variant by its name, and what it has by its fields.
use bosh_base::{
    FailedCall, Method, Owner, Problem, TaskDetail, TaskEnd, TaskKind, TaskLine, What,
};
use bosh_yaml::Node;
use cases_given::{CaseFault, Given, both, field, number_of, pair, there, two, variant, word_of};
use std::alloc::Global;

pub(crate) fn failed_call(alloc: Global, node: &Node) -> Result<FailedCall, CaseFault> {
    let task = field(alloc, node, "task")?;
    let (n, method, owner) = call(alloc, node)?;
    Ok(FailedCall {
        task,
        n,
        method,
        owner,
    })
}

// The number, the method and the owner of a call.
fn call(alloc: Global, node: &Node) -> Result<(u64, Method, Owner), CaseFault> {
    let (n, method) = two(alloc, node, ["n", "method"])?;
    Ok((n, method, field(alloc, node, "owner")?))
}

fn fault(alloc: Global, node: &Node) -> Result<TaskEnd, CaseFault> {
    let (n, method, owner) = call(alloc, node)?;
    Ok(TaskEnd::Fault { n, method, owner })
}

fn gone(alloc: Global, node: &Node) -> Result<TaskEnd, CaseFault> {
    let (n, method, owner) = call(alloc, node)?;
    Ok(TaskEnd::Gone { n, method, owner })
}

fn end(alloc: Global, node: &Node) -> Result<TaskEnd, CaseFault> {
    match variant(node)? {
        ("Finished", _) => Ok(TaskEnd::Finished),
        ("Interrupted", _) => Ok(TaskEnd::Interrupted),
        ("Fault", call) => fault(alloc, call),
        ("Gone", call) => gone(alloc, call),
        _ => Err(CaseFault::Form),
    }
}

fn end_at(alloc: Global, node: &Node) -> Result<Option<TaskEnd>, CaseFault> {
    match node.find(b"end") {
        Some(node) => Ok(Some(end(alloc, node)?)),
        None => Ok(None),
    }
}

fn kind(alloc: Global, node: &Node) -> Result<TaskKind, CaseFault> {
    match variant(node)? {
        ("Deploy", _) => Ok(TaskKind::Deploy),
        ("DeleteDeployment", _) => Ok(TaskKind::DeleteDeployment),
        ("CleanUp", _) => Ok(TaskKind::CleanUp),
        ("Fix", _) => Ok(TaskKind::Fix),
        ("DeleteDisk", disk) => Ok(TaskKind::DeleteDisk(number_of(disk)?)),
        ("Recreate", inst) => Ok(TaskKind::Recreate(Given::of(alloc, inst)?)),
        ("Start", inst) => Ok(TaskKind::Start(Given::of(alloc, inst)?)),
        ("Stop", inst) => Ok(TaskKind::Stop(Given::of(alloc, inst)?)),
        ("Resolve", inst) => Ok(TaskKind::Resolve(Given::of(alloc, inst)?)),
        _ => Err(CaseFault::Form),
    }
}

pub(crate) fn line(alloc: Global, node: &Node) -> Result<TaskLine, CaseFault> {
    let (task, dep) = two(alloc, node, ["task", "dep"])?;
    let (kind, end) = both(kind(alloc, there(node, "kind")?), end_at(alloc, node))?;
    Ok(TaskLine {
        task,
        kind,
        dep,
        end,
    })
}

pub(crate) fn detail(alloc: Global, node: &Node) -> Result<TaskDetail, CaseFault> {
    let (calls, source) = two(alloc, node, ["calls", "source"])?;
    Ok(TaskDetail {
        line: line(alloc, node)?,
        calls,
        source,
    })
}

fn what(node: &Node) -> Result<What, CaseFault> {
    match word_of(node)? {
        "Spec" => Ok(What::Spec),
        "Running" => Ok(What::Running),
        "Drained" => Ok(What::Drained),
        "Disks" => Ok(What::Disks),
        _ => Err(CaseFault::Form),
    }
}

// An instance, and the node of what is amiss with it.
fn facts(alloc: Global, node: &Node) -> Result<Problem, CaseFault> {
    let Node::List(items) = node else {
        return Err(CaseFault::Form);
    };
    let [inst, fact] = items.as_slice() else {
        return Err(CaseFault::Form);
    };
    let what = what(fact)?;
    let inst = Given::of(alloc, inst)?;
    Ok(Problem::Facts { inst, what })
}

// What is amiss with a call, a machine or a disk of an instance.
fn numbered(alloc: Global, name: &str, node: &Node) -> Result<Problem, CaseFault> {
    let (inst, number) = pair(alloc, node)?;
    match name {
        "InDoubt" => Ok(Problem::InDoubt { inst, n: number }),
        "MissingVm" => Ok(Problem::MissingVm { inst, vm: number }),
        "SilentAgent" => Ok(Problem::SilentAgent { inst, vm: number }),
        "OtherVm" => Ok(Problem::OtherVm { inst, vm: number }),
        "MissingDisk" => Ok(Problem::MissingDisk { inst, disk: number }),
        _ => Err(CaseFault::Form),
    }
}

/// By its name, with the list of the instance and the number or fact, or with the number of a disk.
pub(crate) fn problem(alloc: Global, node: &Node) -> Result<Problem, CaseFault> {
    match variant(node)? {
        ("Facts", value) => facts(alloc, value),
        ("LooseDisk", value) => Ok(Problem::LooseDisk {
            disk: number_of(value)?,
        }),
        (name, value) => numbered(alloc, name, value),
    }
}
