use crate::bytes::number_of;
use crate::plain::{variant, word_of};
use crate::{CaseFault, Given, field, four, two};
use bosh_base::{
    FailedCall, Inst, Method, Owner, Problem, TaskDetail, TaskEnd, TaskKind, TaskLine, What,
};
use bosh_yaml::Node;
use std::alloc::Global;

const METHODS: [Method; 22] = [
    Method::CreateVm,
    Method::DeleteVm,
    Method::HasVm,
    Method::FindVm,
    Method::CreateDisk,
    Method::DeleteDisk,
    Method::HasDisk,
    Method::FindDisk,
    Method::AttachDisk,
    Method::DetachDisk,
    Method::GetDisks,
    Method::Ping,
    Method::GetState,
    Method::Apply,
    Method::Start,
    Method::Drain,
    Method::Stop,
    Method::MountDisk,
    Method::UnmountDisk,
    Method::ListDisk,
    Method::MigrateDisk,
    Method::CompilePackage,
];

/// By its name, as `create_vm`.
impl Given for Method {
    fn of(_alloc: Global, node: &Node) -> Result<Self, CaseFault> {
        let word = word_of(node)?;
        for method in METHODS {
            if method.name() == word {
                return Ok(method);
            }
        }
        Err(CaseFault::Form)
    }
}

/// `task`, `n`, `method` and `owner`.
impl Given for FailedCall {
    fn of(alloc: Global, node: &Node) -> Result<Self, CaseFault> {
        let (task, n, method, owner) = four(alloc, node, ["task", "n", "method", "owner"])?;
        Ok(FailedCall {
            task,
            n,
            method,
            owner,
        })
    }
}

// The call that ended a task: its number, its method and its owner.
fn ending_call(alloc: Global, node: &Node) -> Result<(u64, Method, Owner), CaseFault> {
    let (n, method) = two(alloc, node, ["n", "method"])?;
    Ok((n, method, field(alloc, node, "owner")?))
}

fn fault(alloc: Global, node: &Node) -> Result<TaskEnd, CaseFault> {
    let (n, method, owner) = ending_call(alloc, node)?;
    Ok(TaskEnd::Fault { n, method, owner })
}

fn gone(alloc: Global, node: &Node) -> Result<TaskEnd, CaseFault> {
    let (n, method, owner) = ending_call(alloc, node)?;
    Ok(TaskEnd::Gone { n, method, owner })
}

/// `Finished`, `Interrupted`, or `Fault` or `Gone` with a call.
impl Given for TaskEnd {
    fn of(alloc: Global, node: &Node) -> Result<Self, CaseFault> {
        match variant(node)? {
            ("Finished", _) => Ok(TaskEnd::Finished),
            ("Interrupted", _) => Ok(TaskEnd::Interrupted),
            ("Fault", call) => fault(alloc, call),
            ("Gone", call) => gone(alloc, call),
            _ => Err(CaseFault::Form),
        }
    }
}

// What is done to one instance.
fn of_instance(alloc: Global, name: &str, node: &Node) -> Result<TaskKind, CaseFault> {
    let inst = Inst::of(alloc, node)?;
    match name {
        "Recreate" => Ok(TaskKind::Recreate(inst)),
        "Start" => Ok(TaskKind::Start(inst)),
        "Stop" => Ok(TaskKind::Stop(inst)),
        "Resolve" => Ok(TaskKind::Resolve(inst)),
        _ => Err(CaseFault::Form),
    }
}

/// By its name, with the instance or the disk of one that has it.
impl Given for TaskKind {
    fn of(alloc: Global, node: &Node) -> Result<Self, CaseFault> {
        match variant(node)? {
            ("Deploy", _) => Ok(TaskKind::Deploy),
            ("DeleteDeployment", _) => Ok(TaskKind::DeleteDeployment),
            ("CleanUp", _) => Ok(TaskKind::CleanUp),
            ("Fix", _) => Ok(TaskKind::Fix),
            ("DeleteDisk", disk) => Ok(TaskKind::DeleteDisk(number_of(disk)?)),
            (name, inst) => of_instance(alloc, name, inst),
        }
    }
}

/// `task`, `kind`, `dep` and `end`.
impl Given for TaskLine {
    fn of(alloc: Global, node: &Node) -> Result<Self, CaseFault> {
        let (task, kind, dep, end) = four(alloc, node, ["task", "kind", "dep", "end"])?;
        Ok(TaskLine {
            task,
            kind,
            dep,
            end,
        })
    }
}

/// The keys of a line, and `calls` and `source`.
impl Given for TaskDetail {
    fn of(alloc: Global, node: &Node) -> Result<Self, CaseFault> {
        let (calls, source) = two(alloc, node, ["calls", "source"])?;
        Ok(TaskDetail {
            line: TaskLine::of(alloc, node)?,
            calls,
            source,
        })
    }
}

/// By its name.
impl Given for What {
    fn of(_alloc: Global, node: &Node) -> Result<Self, CaseFault> {
        match word_of(node)? {
            "Spec" => Ok(What::Spec),
            "Running" => Ok(What::Running),
            "Drained" => Ok(What::Drained),
            "Disks" => Ok(What::Disks),
            _ => Err(CaseFault::Form),
        }
    }
}

fn facts(alloc: Global, node: &Node) -> Result<Problem, CaseFault> {
    let (inst, what) = Given::of(alloc, node)?;
    Ok(Problem::Facts { inst, what })
}

fn loose(node: &Node) -> Result<Problem, CaseFault> {
    Ok(Problem::LooseDisk {
        disk: number_of(node)?,
    })
}

// What is amiss with a call, a machine or a disk of an instance.
fn numbered(name: &str, inst: Inst, number: u64) -> Result<Problem, CaseFault> {
    match name {
        "InDoubt" => Ok(Problem::InDoubt { inst, n: number }),
        "MissingVm" => Ok(Problem::MissingVm { inst, vm: number }),
        "SilentAgent" => Ok(Problem::SilentAgent { inst, vm: number }),
        "OtherVm" => Ok(Problem::OtherVm { inst, vm: number }),
        "MissingDisk" => Ok(Problem::MissingDisk { inst, disk: number }),
        _ => Err(CaseFault::Form),
    }
}

fn of_number(alloc: Global, name: &str, node: &Node) -> Result<Problem, CaseFault> {
    let (inst, number) = Given::of(alloc, node)?;
    numbered(name, inst, number)
}

/// By its name, with the list of the instance and the number or fact, or with the number of a disk.
impl Given for Problem {
    fn of(alloc: Global, node: &Node) -> Result<Self, CaseFault> {
        let (name, value) = variant(node)?;
        match name {
            "Facts" => facts(alloc, value),
            "LooseDisk" => loose(value),
            _ => of_number(alloc, name, value),
        }
    }
}
