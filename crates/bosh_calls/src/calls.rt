ghost use Rattle.std.specs.Prelude.{◌≡◌, ◌≤◌, [], filter, find, map, OnOk};
ghost use Rattle.std.specs.Option.{option_copied};
ghost use Rattle.std.specs.Vec.{vec_capacity, vec_len};
ghost use Rattle.bosh_calls.specs.Calls.{is_of, is_other, is_performable, performed, place_of, with_begun, with_performed, without};

use std::alloc::{AllocError, Global};
use std::marker::Model;

/// A call that is open.
#[derive(Clone, Copy, Debug, PartialEq, Eq)]
pub struct OpenCall {
    /// Its number.
    pub n: u64,
    /// The place of the move that tells how it was performed, where it was.
    pub place: Option<usize>,
}

impl OpenCall {
    fn perform(&mut self, n: u64, place: usize)
        ensures { self.new ≡ performed n place self.old }
    {
        if self.n == n {
            self.place = Some(place);
        }
    }
}

/// The calls that are open, in the order in which they began.
#[derive(Drop)]
pub struct Calls {
    unsettled: Vec<OpenCall>,
}

impl Model for Calls {
    ghost use Rattle.std.specs.Prelude.{◌-◌};
    ghost use Rattle.std.specs.Vec.{vec_capacity, vec_len};
    ghost use Rattle.bosh_calls.specs.CallsView.{CallsView};

    ghost Value = { CallsView };

    ghost view = { λ calls. record {
      unsettled = calls.unsettled.items;
      free = vec_capacity calls.unsettled - vec_len calls.unsettled;
    } };
}

impl Calls {
    pub fn none(alloc: Global) -> Calls
        ensures { result.unsettled ≡ [] }
    {
        Calls {
            unsettled: Vec::new(alloc),
        }
    }

    /// Keeps a place for one call more.
    pub fn reserve(&mut self) -> Result<(), AllocError>
        ensures same { self.new.unsettled ≡ self.old.unsettled }
        ensures free { OnOk result (1 ≤ self.new.free) }
    {
        self.unsettled.reserve(1)
    }

    /// A call begins, for which a place was kept. It can be performed, whatever was there of its number.
    pub fn begin(&mut self, n: u64)
        requires { 1 ≤ self.old.free }
        ensures { self.new.unsettled ≡ with_begun n self.old.unsettled }
    {
        leave(&mut self.unsettled, n);
        self.unsettled.push_reserved(OpenCall { n, place: None });
    }

    /// A call is open no more.
    pub fn end(&mut self, n: u64)
        ensures { self.new.unsettled ≡ without n self.old.unsettled }
    {
        leave(&mut self.unsettled, n);
    }

    /// A call was performed, as the move at a place tells.
    pub fn perform(&mut self, n: u64, place: usize)
        ensures { self.new.unsettled ≡ with_performed n place self.old.unsettled }
    {
        perform_in(&mut self.unsettled, n, place);
    }

    /// Whether a call is open, and was not performed.
    pub fn is_performable(&self, n: u64) -> bool
        ensures { result ≡ is_performable self.now.unsettled n }
    {
        match found(&self.unsettled, n) {
            Some(call) => call.place.is_none(),
            None => false,
        }
    }

    /// The place of the move that tells how a call was performed.
    pub fn place(&self, n: u64) -> Option<usize>
        ensures { result ≡ place_of self.now.unsettled n }
    {
        match found(&self.unsettled, n) {
            Some(call) => call.place,
            None => None,
        }
    }

    /// The calls, in the order in which they began.
    pub fn unsettled(&self) -> &[OpenCall]
        ensures { result.now ≡ self.now.unsettled }
    {
        self.unsettled.as_slice()
    }
}

fn found(calls: &[OpenCall], n: u64) -> Option<&OpenCall>
    ensures { option_copied result ≡ find (is_of n) calls.now }
{
    calls.iter().find(|call| call.n == n)
}

fn leave(calls: &mut Vec<OpenCall>, n: u64)
    ensures others { calls.new.items ≡ filter (is_other n) calls.old.items }
    ensures len { vec_len calls.new ≤ vec_len calls.old }
    ensures capacity { vec_capacity calls.new ≡ vec_capacity calls.old }
{
    calls.retain(|call| call.n != n);
}

fn perform_in(calls: &mut [OpenCall], n: u64, place: usize)
    ensures { calls.new ≡ map (performed n place) calls.old }
{
    for call in calls {
        call.perform(n, place);
    }
}
