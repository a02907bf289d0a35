ghost use Rattle.std.specs.Prelude.{◌≡◌, ◌↔◌, IfOk, IsTrue, codes, map};
ghost use Rattle.bosh_options.specs.Words.{IsCount, Reads, Tells, TellsOf, program};
ghost use Rattle.clap.specs.Words.{FailsBy, app_of, fault_of, matches_of, one_of};

use bosh_base::Text;
use clap::error::ErrorKind;
use clap::{Arg, ArgAction, Command, Error};
use std::alloc::{AllocError, Global};
use std::str;

/// The name by which the parser knows the program; it stands before its words.
const PROGRAM: &str = "boshd";

/// How many threads carry out tasks, by the words of the command line after the program's name. None where they are not
/// the words of a command with the one option `--threads`, a number from 1 to 8, and no help flag.
pub fn threads(alloc: Global, words: &[Text]) -> Result<Option<u8>, AllocError>
    ensures { IfOk result (λ threads. Tells words.now threads) }
{
    match texts(alloc, words) {
        Ok(Some(texts)) => threads_in(alloc, texts.as_slice()),
        Ok(None) => Ok(None),
        Err(fault) => Err(fault),
    }
}

// The words, where each is a text, after the program's name.
fn texts(alloc: Global, words: &[Text]) -> Result<Option<Vec<&str>>, AllocError>
    ensures { IfOk result (Reads words.now) }
{
    let mut texts = vec![in alloc; PROGRAM]?;
    for word in words {
        match str::from_utf8(word.as_slice()) {
            Ok(text) => texts.push(text)?,
            Err(_) => return Ok(None),
        }
    }
    Ok(Some(texts))
}

// How many threads texts ask for.
fn threads_in(alloc: Global, words: &[&str]) -> Result<Option<u8>, AllocError>
    ensures { IfOk result (TellsOf (map (λ word. word.now) words.now)) }
{
    match parsed(alloc, words) {
        Ok(threads) => Ok(Some(threads)),
        Err(error) if is_memory(error.kind()) => Err(AllocError),
        Err(_) => Ok(None),
    }
}

fn is_memory(kind: ErrorKind) -> bool
    ensures { IsTrue result ↔ (kind ≡ ErrorKind.OutOfMemory) }
{
    matches!(kind, ErrorKind::OutOfMemory)
}

// The command as which the words are read.
fn command<'a>(alloc: Global) -> Result<Command<'a>, AllocError>
    ensures { IfOk result (λ command. app_of command ≡ program) }
{
    let option = Arg::new(alloc, "threads")
        .long("threads")
        .action(ArgAction::Set)
        .value_parser(clap::value_parser!(u8).range(1..=8));
    Command::new(alloc, PROGRAM)
        .disable_help_flag(true)
        .arg(option)
}

fn parsed(alloc: Global, words: &[&str]) -> Result<u8, Error>
    ensures kinds { FailsBy (fault_of program (map (λ word. word.now) words.now)) result }
    ensures count { IfOk result (IsCount (one_of (codes "threads") (matches_of program (map (λ word. word.now) words.now)))) }
{
    let command = command(alloc)?;
    match command.try_get_matches_from(words) {
        Ok(matches) => Ok(matches.get_one::<u8>("threads").unwrap_or(1)),
        Err(error) => Err(error),
    }
}
