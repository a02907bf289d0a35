//! Times a deploy of instances in eight groups that is carried to its end on a site over stores in memory. The words are
//! `drive`, and the number of instances, at most 512; the time is printed in microseconds. Without words it does nothing.
#![tactic(auto)]

use bosh_base::{Name, TaskEnd};
use bosh_bench_deploys::{CONFIG, time_of_deploy};
use bosh_book::Ask;
use bosh_crew::drive;
use bosh_ports::MemKeeper;
use bosh_world::Site;
use std::alloc::Global;
use std::process::ExitCode;
use std::rt::Clock;
use std::time::Duration;
use std::{env, io};

type MemSite = Site<MemKeeper, MemKeeper>;

fn new_site(alloc: Global) -> Option<MemSite> {
    Site::load(alloc, MemKeeper::new(alloc), MemKeeper::new(alloc)).ok()
}

fn is_told_of(site: &mut MemSite, os: &Name) -> bool {
    site.set_config(CONFIG.as_bytes()).ok().is_some() && site.add_stemcell(os, b"1").ok().is_some()
}

// Whether the site knows the cloud config and the stemcell now.
fn is_told(site: &mut MemSite, alloc: Global) -> bool {
    match Name::of(alloc, b"jammy").ok() {
        Some(os) => is_told_of(site, &os),
        None => false,
    }
}

fn is_finished(end: Option<TaskEnd>) -> bool {
    matches!(end, Some(TaskEnd::Finished))
}

fn is_carried_out(site: &mut MemSite, task: u64) -> bool {
    drive(site, &[task]).ok().is_some()
}

fn is_ended(site: &mut MemSite, task: u64) -> bool {
    is_finished(site.end_task(task).ok())
}

// Whether a task is done that is carried out from its opening to its end.
fn is_driven(site: &mut MemSite, ask: &Ask) -> bool {
    let Some(task) = site.begin_task(ask).ok() else {
        return false;
    };
    is_carried_out(site, task) && is_ended(site, task)
}

fn is_done(site: &mut MemSite, alloc: Global, ask: &Ask) -> bool {
    is_told(site, alloc) && is_driven(site, ask)
}

fn time_on(
    site: &mut MemSite,
    clock: &impl Clock,
    alloc: Global,
    instances: u32,
) -> Option<Duration> {
    time_of_deploy(
        clock,
        alloc,
        instances,
        |ask: &Ask| is_done(site, alloc, ask),
    )
}

// The site is taken apart at the end, since to let one go as a whole is dear to prove.
fn time_for(clock: &impl Clock, alloc: Global, instances: u32) -> Option<Duration> {
    match new_site(alloc) {
        Some(mut site) => {
            let took = time_on(&mut site, clock, alloc, instances);
            let _stores = site.into_stores();
            took
        }
        None => None,
    }
}

fn main(rt: HostRuntime) -> io::Result<ExitCode> {
    let mut words = env::args(&rt)?;
    let _program = words.next();
    let (Some(form), Some(count)) = (words.next(), words.next()) else {
        return Ok(ExitCode::SUCCESS);
    };
    let ("drive", Ok(count)) = (form.as_str(), count.as_str().parse::<u32>()) else {
        return Ok(ExitCode::FAILURE);
    };
    match time_for(&rt, rt.alloc(), count) {
        Some(took) => {
            println!(rt; "{}", took.as_micros())?;
            Ok(ExitCode::SUCCESS)
        }
        None => Ok(ExitCode::FAILURE),
    }
}
