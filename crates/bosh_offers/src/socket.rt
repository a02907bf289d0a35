//! Things by the links that they are of.
ghost use Rattle.std.specs.Prelude.{◌≡◌, ◌∷◌, ◌++◌, [], ℕ, List, OnOk, find};
ghost use Rattle.std.specs.Option.{option_copied};
ghost use Rattle.bosh_base.specs.declared.link.Joint.{Joint};
ghost use Rattle.bosh_offers.specs.Tied.{AreBySocket, Stands, same_link};

use bosh_base::{Joint, Offer, Text, Tie};
use std::alloc::AllocError;
use std::collections::BTreeMap;

/// A link of a job of a group, with its type.
#[derive(Clone, Copy, PartialEq, Eq, PartialOrd, Ord)]
pub(crate) struct Socket<'a> {
    pub(crate) dep: &'a [u8],
    pub(crate) group: &'a [u8],
    pub(crate) job: &'a [u8],
    pub(crate) link: &'a [u8],
    pub(crate) kind: &'a [u8],
}

/// A thing that belongs to a link of a type.
pub(crate) trait Linked {
    ghost use Rattle.std.specs.Prelude.{List, ℕ};
    ghost use Rattle.bosh_base.specs.declared.link.Joint.{Joint};

    ghost joint_of: { Self → Joint };

    ghost kind_of: { Self → List ℕ };

    fn joint(&self) -> &Joint
        ensures { result.now ≡ joint_of self.now };

    fn kind(&self) -> &Text
        ensures { result.now ≡ kind_of self.now };
}

/// A tie belongs to its consumer.
impl Linked for Tie {
    ghost joint_of = { λ tie. tie.consumer };

    ghost kind_of = { λ tie. tie.kind };

    fn joint(&self) -> &Joint {
        &self.consumer
    }

    fn kind(&self) -> &Text {
        &self.kind
    }
}

/// An offer belongs to its provider.
impl Linked for Offer {
    ghost joint_of = { λ offer. offer.joint };

    ghost kind_of = { λ offer. offer.kind };

    fn joint(&self) -> &Joint {
        &self.joint
    }

    fn kind(&self) -> &Text {
        &self.kind
    }
}

/// Things under the links that they belong to.
pub(crate) type BySocket<'a, T> = BTreeMap<Socket<'a>, &'a T>;

/// The link of a joint.
pub(crate) fn socket_of<'a>(joint: &'a Joint, kind: &'a Text) -> Socket<'a>
    ensures { Stands joint.now kind.now result }
{
    Socket {
        dep: joint.dep.as_bytes(),
        group: joint.group.as_bytes(),
        job: joint.job.as_bytes(),
        link: joint.link.as_bytes(),
        kind: kind.as_slice(),
    }
}

// Puts a thing in the place of one of its link and type.
fn put<'a, T: Linked>(table: &mut BySocket<'a, T>, thing: &'a T) -> Result<(), AllocError>
    ensures { OnOk result ((all : List T) → AreBySocket T.joint_of T.kind_of all table.old
        → AreBySocket T.joint_of T.kind_of (thing.now ∷ all) table.new) }
{
    let socket = socket_of(thing.joint(), thing.kind());
    table.insert(socket, thing)?;
    Ok(())
}

/// Puts things before those that are there.
pub(crate) fn put_all<'a, T: Linked>(
    table: &mut BySocket<'a, T>,
    things: &'a [T],
) -> Result<(), AllocError>
    ensures { OnOk result ((all : List T) → AreBySocket T.joint_of T.kind_of all table.old
        → AreBySocket T.joint_of T.kind_of (things.now ++ all) table.new) }
{
    for place in (0..things.len()).rev() {
        put(table, &things[place])?;
    }
    Ok(())
}

/// The first of a link and its type.
pub(crate) fn first_of<'a, T: Linked>(table: &BySocket<'a, T>, socket: Socket<'a>) -> Option<&'a T>
    ensures { (all : List T) (joint : Joint) (kind : List ℕ) → Stands joint kind socket.entry
        → AreBySocket T.joint_of T.kind_of all table.now
        → option_copied result ≡ find (λ thing. same_link joint kind (T.joint_of thing) (T.kind_of thing)) all }
{
    table.get(&socket).copied()
}
