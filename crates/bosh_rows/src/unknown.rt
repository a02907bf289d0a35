//! What is not known comes first.
ghost use Rattle.std.specs.Prelude.{◌≡◌};
ghost use Rattle.std.specs.Option.{option_copied};
ghost use Rattle.bosh_rows.specs.NextStep.{lost_method, lost_step, probe_method, probe_step};

use crate::Step;
use bosh_base::{Doubt, Method};

fn lost_method(method: Method) -> Method
    ensures { result ≡ lost_method method }
{
    match method {
        Method::CreateDisk => Method::FindDisk,
        Method::DeleteVm => Method::HasVm,
        _ => Method::DeleteVm,
    }
}

/// 0. A machine that did not answer goes, once it is known which disk or machine there is.
pub(crate) fn lost_step(doubt: Option<&Doubt>) -> Step
    ensures { result ≡ lost_step (option_copied doubt.entry) }
{
    match doubt {
        Some(doubt) => Step::plain(lost_method(doubt.call.method())),
        None => Step::plain(Method::DeleteVm),
    }
}

fn probe_method(method: Method) -> Method
    ensures { result ≡ probe_method method }
{
    match method {
        Method::CreateVm => Method::FindVm,
        Method::DeleteVm => Method::HasVm,
        Method::CreateDisk => Method::FindDisk,
        Method::AttachDisk | Method::DetachDisk => Method::GetDisks,
        Method::MountDisk | Method::UnmountDisk => Method::ListDisk,
        _ => Method::GetState,
    }
}

/// 1. A call whose answer is not known is asked for.
pub(crate) fn probe_step(doubt: &Doubt) -> Step
    ensures { result ≡ probe_step doubt.now }
{
    Step::plain(probe_method(doubt.call.method()))
}
