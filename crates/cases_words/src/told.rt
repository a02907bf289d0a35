//! Values, as cases write them.
ghost use Rattle.std.specs.Prelude.{◌≡◌, ⊤};

use bosh_base::{
    Addr, Answer, Band, Call, Digest, DiskRow, DiskWant, Inst, Joint, Name, Owner, Role, Seq, Spec,
    Text, Tie,
};
use bosh_yaml::Str;
use std::alloc::{AllocError, Global};
use std::{fmt, str};

/// A value that is told as cases write it.
pub struct Told<'a, T>(pub &'a T);

impl<T> Clone for Told<'_, T> {
    ghost is_clone = { λ x y. y.0.now ≡ x.0.now };

    ghost is_infallible = { λ _. ⊤ };

    fn clone(&self) -> Result<Self, AllocError> {
        Ok(*self)
    }
}

impl<T> Copy for Told<'_, T> {}

/// A word where it holds, with a blank before it.
#[derive(Clone, Copy)]
pub struct Flag(pub bool, pub &'static str);

/// Adds a part to a text of parts.
pub fn push_part<T: fmt::Display>(
    alloc: Global,
    text: &mut String,
    part: &T,
) -> Result<(), AllocError> {
    if !text.is_empty() {
        text.push_str("; ")?;
    }
    let part = format!(in alloc; "{part}")?;
    text.push_str(part.as_str())
}

/// Adds a value to the bytes of a text.
pub fn push<T: fmt::Display>(
    alloc: Global,
    text: &mut Vec<u8>,
    value: &T,
) -> Result<(), AllocError> {
    let value = format!(in alloc; "{value}")?;
    text.extend_from_slice(value.as_bytes())
}

fn add_bytes<W: fmt::Write>(f: &mut fmt::Formatter<W>, bytes: &[u8]) -> fmt::Result {
    match str::from_utf8(bytes) {
        Ok(text) => f.write_str(text),
        Err(_) => write!(f, "{}", bytes.escape_ascii()),
    }
}

impl fmt::Display for Flag {
    fn fmt<W: fmt::Write>(&self, f: &mut fmt::Formatter<W>) -> fmt::Result {
        match self.0 {
            true => write!(f, " {}", self.1),
            false => Ok(()),
        }
    }
}

impl fmt::Display for Told<'_, Text> {
    fn fmt<W: fmt::Write>(&self, f: &mut fmt::Formatter<W>) -> fmt::Result {
        add_bytes(f, self.0.as_slice())
    }
}

impl fmt::Display for Told<'_, Name> {
    fn fmt<W: fmt::Write>(&self, f: &mut fmt::Formatter<W>) -> fmt::Result {
        add_bytes(f, self.0.as_bytes())
    }
}

impl fmt::Display for Told<'_, Str> {
    fn fmt<W: fmt::Write>(&self, f: &mut fmt::Formatter<W>) -> fmt::Result {
        add_bytes(f, self.0.as_bytes())
    }
}

/// As `10.0.0.1`.
impl fmt::Display for Told<'_, Addr> {
    fn fmt<W: fmt::Write>(&self, f: &mut fmt::Formatter<W>) -> fmt::Result {
        let [a, b, c, d] = self.0.0.to_be_bytes();
        write!(f, "{a}.{b}.{c}.{d}")
    }
}

/// As `10.0.0.2-10.0.0.9`.
impl fmt::Display for Told<'_, Band> {
    fn fmt<W: fmt::Write>(&self, f: &mut fmt::Formatter<W>) -> fmt::Result {
        write!(f, "{}-{}", Told(&self.0.first), Told(&self.0.last))
    }
}

/// As `dep/web/0`.
impl fmt::Display for Told<'_, Inst> {
    fn fmt<W: fmt::Write>(&self, f: &mut fmt::Formatter<W>) -> fmt::Result {
        let Inst { dep, group, index } = self.0;
        write!(f, "{}/{}/{index}", Told(dep), Told(group))
    }
}

/// An instance, `@compile/2/0`, or `@disk/3`.
impl fmt::Display for Told<'_, Owner> {
    fn fmt<W: fmt::Write>(&self, f: &mut fmt::Formatter<W>) -> fmt::Result {
        match self.0 {
            Owner::Instance(inst) => write!(f, "{}", Told(inst)),
            Owner::Compile(task, slot) => write!(f, "@compile/{task}/{slot}"),
            Owner::Disk(disk) => write!(f, "@disk/{disk}"),
        }
    }
}

/// As `dep/web/job.link`.
impl fmt::Display for Told<'_, Joint> {
    fn fmt<W: fmt::Write>(&self, f: &mut fmt::Formatter<W>) -> fmt::Result {
        let Joint {
            dep,
            group,
            job,
            link,
        } = self.0;
        write!(
            f,
            "{}/{}/{}.{}",
            Told(dep),
            Told(group),
            Told(job),
            Told(link)
        )
    }
}

/// The consumer, the provider, and the type.
impl fmt::Display for Told<'_, Tie> {
    fn fmt<W: fmt::Write>(&self, f: &mut fmt::Formatter<W>) -> fmt::Result {
        let Tie {
            consumer,
            provider,
            kind,
        } = self.0;
        write!(f, "{} {} {}", Told(consumer), Told(provider), Told(kind))
    }
}

/// In hex.
impl fmt::Display for Told<'_, Digest> {
    fn fmt<W: fmt::Write>(&self, f: &mut fmt::Formatter<W>) -> fmt::Result {
        for byte in &self.0.0 {
            write!(f, "{byte:02x}")?;
        }
        Ok(())
    }
}

/// Numbers with commas between them, or `none`.
impl fmt::Display for Told<'_, Seq<u64>> {
    fn fmt<W: fmt::Write>(&self, f: &mut fmt::Formatter<W>) -> fmt::Result {
        let [first, others @ ..] = self.0.as_slice() else {
            return f.write_str("none");
        };
        write!(f, "{first}")?;
        for number in others {
            write!(f, ",{number}")?;
        }
        Ok(())
    }
}

/// The word that it is written by, which is the text of its first file.
impl fmt::Display for Told<'_, Spec> {
    fn fmt<W: fmt::Write>(&self, f: &mut fmt::Formatter<W>) -> fmt::Result {
        match self.0.files.get(0) {
            Some(file) => write!(f, "{}", Told(&file.text)),
            None => f.write_str("?"),
        }
    }
}

/// As `10`, its size, or as `10/ssd`, with its properties.
impl fmt::Display for Told<'_, DiskWant> {
    fn fmt<W: fmt::Write>(&self, f: &mut fmt::Formatter<W>) -> fmt::Result {
        let DiskWant { size, properties } = self.0;
        match properties.as_slice() == b"null".as_slice() {
            true => write!(f, "{size}"),
            false => write!(f, "{size}/{}", Told(properties)),
        }
    }
}

fn role_word(role: Role) -> &'static str {
    match role {
        Role::Active => "active",
        Role::New => "new",
        Role::Old => "old",
    }
}

fn place_word(disk: &DiskRow) -> &'static str {
    match (disk.attached, disk.mounted) {
        (false, false) => "",
        (true, false) => " attached",
        (true, true) => " mounted",
        (false, true) => " mounted only",
    }
}

/// As `2 of 5 10 active mounted`.
impl fmt::Display for Told<'_, DiskRow> {
    fn fmt<W: fmt::Write>(&self, f: &mut fmt::Formatter<W>) -> fmt::Result {
        let DiskRow {
            disk,
            tag,
            want,
            role,
            ..
        } = self.0;
        let (want, role, place) = (Told(want), role_word(*role), place_word(self.0));
        write!(f, "{disk} of {tag} {want} {role}{place}")
    }
}

// The numbers of a call that has nothing else; 0 where it has none.
fn numbers_of(call: &Call) -> (u64, Option<u64>, Option<u64>) {
    match call {
        Call::AttachDisk { vm, disk }
        | Call::DetachDisk { vm, disk }
        | Call::MountDisk { vm, disk }
        | Call::UnmountDisk { vm, disk } => (*vm, Some(*disk), None),
        Call::MigrateDisk { vm, from, to } => (*vm, Some(*from), Some(*to)),
        Call::FindVm { agent: number }
        | Call::FindDisk { tag: number }
        | Call::DeleteDisk { disk: number }
        | Call::HasDisk { disk: number }
        | Call::DeleteVm { vm: number }
        | Call::HasVm { vm: number }
        | Call::GetDisks { vm: number }
        | Call::Ping { vm: number }
        | Call::GetState { vm: number }
        | Call::Start { vm: number }
        | Call::Drain { vm: number }
        | Call::Stop { vm: number }
        | Call::ListDisk { vm: number } => (*number, None, None),
        _ => (0, None, None),
    }
}

fn add_numbers<W: fmt::Write>(f: &mut fmt::Formatter<W>, call: &Call) -> fmt::Result {
    let name = call.method().name();
    match numbers_of(call) {
        (first, None, _) => write!(f, "{name} {first}"),
        (first, Some(second), None) => write!(f, "{name} {first} {second}"),
        (first, Some(second), Some(third)) => write!(f, "{name} {first} {second} {third}"),
    }
}

/// As `start 5`.
impl fmt::Display for Told<'_, Call> {
    fn fmt<W: fmt::Write>(&self, f: &mut fmt::Formatter<W>) -> fmt::Result {
        match self.0 {
            Call::CreateVm { make, disks } => {
                write!(f, "create_vm {} {}", Told(&make.vm), Told(disks))
            }
            Call::CreateDisk { want, vm } => write!(f, "create_disk {} {vm}", Told(want)),
            Call::Apply { vm, spec } => write!(f, "apply {vm} {}", Told(spec)),
            call => add_numbers(f, call),
        }
    }
}

fn add_facts<W: fmt::Write>(
    f: &mut fmt::Formatter<W>,
    spec: &Option<Spec>,
    running: bool,
    drained: bool,
) -> fmt::Result {
    let (running, drained) = (Flag(running, "running"), Flag(drained, "drained"));
    match spec {
        Some(spec) => write!(f, "facts {}{running}{drained}", Told(spec)),
        None => write!(f, "facts none{running}{drained}"),
    }
}

fn answer_word(answer: &Answer) -> &'static str {
    match answer {
        Answer::Done => "done",
        Answer::Yes => "yes",
        Answer::No => "no",
        Answer::Built(_) => "built",
        Answer::Gone => "gone",
        Answer::Found(_) => "found none",
        _ => "failed",
    }
}

/// As `done`, `cid 1`, `found none`, `disks 1,2` or `facts s running`.
impl fmt::Display for Told<'_, Answer> {
    fn fmt<W: fmt::Write>(&self, f: &mut fmt::Formatter<W>) -> fmt::Result {
        match self.0 {
            Answer::Cid(number) => write!(f, "cid {number}"),
            Answer::Found(Some(number)) => write!(f, "found {number}"),
            Answer::Disks(disks) => write!(f, "disks {}", Told(disks)),
            Answer::Facts {
                spec,
                running,
                drained,
            } => add_facts(f, spec, *running, *drained),
            answer => f.write_str(answer_word(answer)),
        }
    }
}
