//! The calls by their names.
use crate::{plain, rolls, texts, works};
use bosh_ip::{parse_addr, parse_cidr, parse_range};
use bosh_yaml::Node;
use cases_given::{Calls, Case, CaseFault, Outcome};
use std::alloc::Global;
use std::rt::Clock;
use std::time::Duration;

/// The calls on texts and rules.
pub struct Rules;

impl Calls for Rules {
    fn answer(&self, case: &Case<'_>) -> Result<Outcome, CaseFault> {
        let Case { alloc, given, .. } = *case;
        match case.call {
            "compile.built" => works::digest(alloc, given),
            "compile.levels" => works::ordered(alloc, given),
            "compile.ready" => works::is_ready(alloc, given),
            "roll.limit" => rolls::limit(alloc, given),
            "roll.may_begin" => rolls::begins(alloc, given),
            "yaml.read" | "yaml.canon" => texts::node(alloc, given),
            "yaml.scalar" => texts::plain(alloc, given),
            _ => of_plain(alloc, case.call, given),
        }
    }

    fn time(
        &self,
        clock: &impl Clock,
        case: &Case<'_>,
        rounds: u32,
    ) -> Result<Duration, CaseFault> {
        let Case { alloc, given, .. } = *case;
        match case.call {
            "compile.levels" => works::time_of_levels(clock, alloc, given, rounds),
            "yaml.read" => texts::time_of_read(clock, alloc, given, rounds),
            "yaml.find" => texts::time_of_find(clock, alloc, given, rounds),
            "yaml.parse" => texts::time_of_parse(clock, alloc, given, rounds),
            _ => Err(CaseFault::NoSuchCall),
        }
    }
}

fn of_plain(alloc: Global, call: &str, given: &Node) -> Result<Outcome, CaseFault> {
    match call {
        "inst.order" => plain::instances(alloc, given),
        "ip.addr" => plain::parsed(alloc, given, |text| parse_addr(text)),
        "ip.cidr" => plain::parsed(alloc, given, |text| parse_cidr(text)),
        "ip.contains" => plain::contains(alloc, given),
        "ip.range" => plain::parsed(alloc, given, |text| parse_range(text)),
        "ip.show" => plain::shown(alloc, given),
        "name.of" => plain::name(alloc, given),
        "seq.set" => plain::set(alloc, given),
        "version.is" => plain::is_one(alloc, given),
        "version.order" => plain::versions(alloc, given),
        _ => Err(CaseFault::NoSuchCall),
    }
}
