ghost use Rattle.std.specs.Prelude.{◌≡◌};
ghost use Rattle.bosh_agent.specs.Agent.{with_contents};
ghost use Rattle.bosh_agent.specs.Change.{machine_changed, disks_changed, IsIn, IsMade};

use crate::Disks;
use bosh_base::{Machine, Seq, Spec, Text};

/// What a call to an agent changes. All that takes memory is in it.
#[derive(Drop)]
pub enum Change {
    Nothing,
    /// The spec of the machine.
    Spec(Spec),
    /// The machine runs, and is not drained.
    Started,
    Drained,
    Stopped,
    /// The disks that are mounted on the machine, by number.
    Mounted(Seq<u64>),
    /// The contents of a disk.
    Contents { disk: u64, text: Text },
}

impl Change {
    /// Makes the change. It takes no memory.
    pub fn carry(self, machine: &mut Machine, disks: &mut Disks)
        requires { IsIn self disks.old }
        ensures machine { machine.new ≡ machine_changed machine.old self }
        ensures disks { disks.new ≡ disks_changed disks.old self }
    {
        match self {
            Change::Nothing => {}
            Change::Spec(spec) => machine.spec = Some(spec),
            Change::Started => start(machine),
            Change::Drained => machine.drained = true,
            Change::Stopped => machine.running = false,
            Change::Mounted(mounted) => machine.mounted = mounted,
            Change::Contents { disk, text } => put_contents(disks, disk, text),
        }
    }
}

fn start(machine: &mut Machine)
    ensures { machine.new ≡ machine_changed machine.old Change.Started }
{
    machine.running = true;
    machine.drained = false;
}

/// Gives a disk other contents, where it is there.
pub fn put_contents(disks: &mut Disks, number: u64, text: Text)
    requires { IsMade disks.old number }
    ensures { disks.new ≡ with_contents disks.old number text }
{
    if let Some(mut disk) = disks.take(number) {
        disk.contents = text;
        disks.set(number, Some(disk));
    }
}
