//! The calls by their names.
use crate::shown::CommandTold;
use bosh_base::Text;
use bosh_lines::{Command, parse_line};
use bosh_yaml::Node;
use cases_given::{Calls, Case, CaseFault, Given, Outcome, told};
use std::alloc::Global;
use std::rt::Clock;
use std::time::Duration;

/// The calls on lines.
pub struct Lines;

impl Calls for Lines {
    fn answer(&self, case: &Case<'_>) -> Result<Outcome, CaseFault> {
        let Case { alloc, given, .. } = *case;
        match case.call {
            "line.parse" => command(alloc, given),
            _ => Err(CaseFault::NoSuchCall),
        }
    }

    fn time(
        &self,
        _clock: &impl Clock,
        _case: &Case<'_>,
        _rounds: u32,
    ) -> Result<Duration, CaseFault> {
        Err(CaseFault::NoSuchCall)
    }
}

// What stands behind the bar of a command, which may be any bytes.
fn behind_bar(command: &Command) -> &[u8] {
    match command {
        Command::Write { text, .. } => text.as_slice(),
        Command::Show { path, .. } => path.as_slice(),
        _ => &[],
    }
}

fn shown(alloc: Global, command: &Command) -> Result<Vec<u8>, CaseFault> {
    let mut text = format!(in alloc; "{}", CommandTold(command))?.into_bytes();
    text.extend_from_slice(behind_bar(command))?;
    Ok(text)
}

fn command(alloc: Global, given: &Node) -> Result<Outcome, CaseFault> {
    let line = Text::of(alloc, given)?;
    told(alloc, parse_line(alloc, line.as_slice()), shown)
}
