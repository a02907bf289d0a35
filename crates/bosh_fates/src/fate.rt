ghost use Rattle.std.specs.Prelude.{◌≡◌, filter, map};
ghost use Rattle.bosh_fates.specs.Fates.{decision, due_count, fates_after, is_waiting, matches, nearer};

use bosh_base::{Method, Owner};

/// What becomes of a call that fails.
#[derive(Clone, Copy, Debug, PartialEq, Eq)]
pub enum Fate {
    /// It has no effect.
    Lose,
    /// It has its effect.
    Late,
}

/// A fate that waits for its call.
#[derive(Drop)]
pub struct Doom {
    pub method: Method,
    /// Whose calls it waits for, or everybody's.
    pub owner: Option<Owner>,
    /// How many matching calls from now on its call is: 1 is the next one.
    pub calls: u64,
    pub fate: Fate,
}

impl Doom {
    /// Whether a call is one that it waits for.
    pub(crate) fn matches(&self, method: Method, owner: &Owner) -> bool
        ensures { result ≡ matches method owner.now self.now }
    {
        self.method == method
            && match &self.owner {
                Some(whose) => whose == owner,
                None => true,
            }
    }
}

/// The fate that decides on a call: the first that was set of those whose call it is.
pub fn decided(dooms: &[Doom], method: Method, owner: &Owner) -> Option<Fate>
    ensures { result ≡ decision method owner.now dooms.now }
{
    dooms
        .iter()
        .find(|doom| doom.calls == 1 && doom.matches(method, owner))
        .map(|doom| doom.fate)
}

/// How many fates a call meets.
pub fn met(dooms: &[Doom], method: Method, owner: &Owner) -> usize
    ensures { result ≡ due_count method owner.now dooms.now }
{
    dooms
        .iter()
        .filter(|doom| doom.calls == 1 && doom.matches(method, owner))
        .count()
}

/// A call that matches brings fates nearer. Those that it meets are spent, and leave.
pub fn come_nearer(dooms: &mut Vec<Doom>, method: Method, owner: &Owner)
    ensures { dooms.new.items ≡ fates_after method owner.now dooms.old.items }
{
    near_all(dooms, method, owner);
    leave_spent(dooms);
}

fn leave_spent(dooms: &mut Vec<Doom>)
    ensures { dooms.new.items ≡ filter is_waiting dooms.old.items }
{
    dooms.retain(|doom| doom.calls != 0);
}

fn near_all(dooms: &mut [Doom], method: Method, owner: &Owner)
    ensures { dooms.new ≡ map (nearer method owner.now) dooms.old }
{
    for doom in dooms {
        near(doom, method, owner);
    }
}

fn near(doom: &mut Doom, method: Method, owner: &Owner)
    ensures { doom.new ≡ nearer method owner.now doom.old }
{
    if doom.matches(method, owner) {
        doom.calls = doom.calls.saturating_sub(1);
    }
}
