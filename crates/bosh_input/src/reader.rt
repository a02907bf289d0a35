ghost use Rattle.std.specs.Prelude.{◌≡◌, ◌≢◌, ◌++◌, ◌+◌, ◌-◌, ◌<◌, ◌≤◌, [], false, true, IfErr, IfOk, MatchOption, OnOk, drop, length, min, slice_index, take, vec_len};
ghost use Rattle.std.specs.Bool.{MatchBool};
ghost use Rattle.std.specs.Vec.{vec_capacity};
ghost use Rattle.bosh_lines.specs.Meaning.{asked_by};
ghost use Rattle.bosh_input.specs.Commands.{block_ends, keeps_file};
ghost use Rattle.bosh_input.specs.Lines.{block_text, has_end, lines};
ghost use Rattle.bosh_input.specs.Reading.{FailsByCount, IsAtCommand, IsAtEnd, IsBlock, IsBlockIf, IsByteAt, IsCommandAt, IsCommandLine, IsEvent, IsLine, IsNext, IsOpenBlockIf, IsOpenLine, IsPassed, IsSeen, NoneBegun, NoneSettled, Reads, StopsWhere};

use crate::line::{line_feed, text_of};
use crate::{InputFault, Request};
use bosh_base::Text;
use bosh_lines::{Command, LineFault, parse_line};
use bosh_ports::{Source, Taken};
use std::alloc::{AllocError, Global};
use std::marker::Model;

/// The most bytes that a session takes.
const MOST_INPUT: usize = 8_388_608;

/// The most commands that a session takes.
const MOST_COMMANDS: u32 = 200;

/// The most bytes that are asked of a source at once.
const PIECE: usize = 65_536;

/// The commands of a source, which is read as far as the next command asks for.
#[derive(Drop)]
pub(crate) struct Reader {
    alloc: Global,
    piece: Vec<u8>,
    bytes: Vec<u8>,
    at: usize,
    given: u32,
    is_over: bool,
    is_ended: bool,
}

impl Model for Reader {
    ghost use Rattle.std.specs.Prelude.{◌≡◌, length};
    ghost use Rattle.bosh_input.specs.Reading.{InputView, IsInput};

    ghost Value = { InputView };

    ghost view = { λ input. record { front = record { bytes = input.bytes.items; is_over = input.is_over; is_ended = input.is_ended }; at = input.at; given = input.given } };

    ghost invariant = { λ input. IsInput (record { bytes = input.bytes.items; is_over = input.is_over; is_ended = input.is_ended }) input.at input.given × (length input.piece.items ≡ 65536) };
}

impl Reader {
    /// Before the first byte is read.
    pub(crate) fn new(alloc: Global) -> Result<Reader, AllocError>
        ensures { IfOk result (λ input. input ≡ record { front = record { bytes = []; is_over = false; is_ended = false }; at = 0; given = 0 }) }
    {
        Ok(Reader {
            alloc,
            piece: vec![in alloc; 0; PIECE]?,
            bytes: Vec::new(alloc),
            at: 0,
            given: 0,
            is_over: false,
            is_ended: false,
        })
    }

    /// How many commands were given.
    pub(crate) fn given(&self) -> u32
        ensures count { result ≡ self.now.given }
        ensures few { result ≤ 200 }
    {
        self.given
    }

    /// The next command, or none at the end of the input. No command is asked for after a fault.
    pub(crate) fn next<S: Source>(&mut self, source: &mut S) -> Result<Option<Request>, InputFault>
        ensures reads { Reads S.left S.faults source.old source.new self.old.front self.new.front }
        ensures failed { FailsByCount result (S.faults source.old) (S.faults source.new) }
        ensures given { IfOk result (λ request. MatchOption request (IsAtEnd self.new.front self.old.at) (IsNext self.old self.new)) }
        ensures refused { IfErr result (IsEvent self.old self.new.front) }
    {
        if !self.skip_to_command(source)? {
            return Ok(None);
        }
        if self.given == MOST_COMMANDS {
            return Err(InputFault::Limit);
        }
        let asked = self.read_command(source)?;
        let has_block = keeps_file(&asked);
        let (command, block) = self.with_block(asked, has_block, source)?;
        self.given += 1;
        Ok(Some(Request {
            asked: command,
            block,
        }))
    }

    // Goes to the next line that is a command, or to the end of the input.
    fn skip_to_command<S: Source>(&mut self, source: &mut S) -> Result<bool, InputFault>
        ensures reads { Reads S.left S.faults source.old source.new self.old.front self.new.front }
        ensures failed { FailsByCount result (S.faults source.old) (S.faults source.new) }
        ensures same { self.new.given ≡ self.old.given }
        ensures found { IfOk result (λ found. MatchBool found (IsAtCommand self.new.front self.old.at self.new.at) (IsAtEnd self.new.front self.old.at)) }
        ensures stopped { IfErr result (λ fault. StopsWhere fault self.new.front (NoneSettled self.new.front self.old.at × NoneBegun self.new.front self.old.at)) }
    {
        while let Some(byte) = self.byte_at(self.at, source)? {
            match self.passed_line(byte, source)? {
                Some(end) => self.at = end,
                None => return Ok(true),
            }
        }
        // No byte is lost of an input that has ended.
        prove!(!self.is_over);
        Ok(false)
    }

    // Where the line ends that begins here with this byte, where it is no command.
    fn passed_line<S: Source>(
        &mut self,
        byte: u8,
        source: &mut S,
    ) -> Result<Option<usize>, InputFault>
        requires ahead { self.old.at < length self.old.front.bytes }
        requires first { slice_index self.old.front.bytes self.old.at ≡ byte }
        ensures reads { Reads S.left S.faults source.old source.new self.old.front self.new.front }
        ensures failed { FailsByCount result (S.faults source.old) (S.faults source.new) }
        ensures same { (self.new.at ≡ self.old.at) × (self.new.given ≡ self.old.given) }
        ensures passed { IfOk result (λ end. MatchOption end (IsCommandAt self.new.front self.old.at) (IsPassed self.new.front self.old.at)) }
        ensures stopped { IfErr result (λ fault. StopsWhere fault self.new.front (NoneSettled self.new.front self.old.at × NoneBegun self.new.front self.old.at)) }
    {
        match byte {
            b'#' => Ok(Some(self.end_of_line(source)?)),
            b'\n' => Ok(Some(self.at + 1)),
            b'\r' => match self.byte_at(self.at + 1, source)? {
                Some(b'\n') => Ok(Some(self.at + 2)),
                _ => Ok(None),
            },
            _ => Ok(None),
        }
    }

    // What the line asks for that begins here.
    fn read_command<S: Source>(
        &mut self,
        source: &mut S,
    ) -> Result<Result<Command, LineFault>, InputFault>
        requires { self.old.at < length self.old.front.bytes }
        ensures reads { Reads S.left S.faults source.old source.new self.old.front self.new.front }
        ensures failed { FailsByCount result (S.faults source.old) (S.faults source.new) }
        ensures same { self.new.given ≡ self.old.given }
        ensures read { IfOk result (IsCommandLine self.new.front self.old.at self.new.at) }
        ensures stopped { IfErr result (λ fault. StopsWhere fault self.new.front (IsOpenLine (drop self.old.at self.new.front.bytes))) }
    {
        let end = self.end_of_line(source)?;
        let line = text_of(&self.bytes[self.at..end]);
        let asked = parsed(self.alloc, line)?;
        self.at = end;
        Ok(asked)
    }

    // A value, with the block that begins here where there is one.
    fn with_block<T: Drop, S: Source>(
        &mut self,
        value: T,
        has_block: bool,
        source: &mut S,
    ) -> Result<(T, Text), InputFault>
        ensures reads { Reads S.left S.faults source.old source.new self.old.front self.new.front }
        ensures failed { FailsByCount result (S.faults source.old) (S.faults source.new) }
        ensures same { self.new.given ≡ self.old.given }
        ensures value { IfOk result (λ it. it.0 ≡ value) }
        ensures block { IfOk result (λ it. IsBlockIf has_block self.new.front self.old.at self.new.at it.1) }
        ensures stopped { IfErr result (λ fault. StopsWhere fault self.new.front (IsOpenBlockIf has_block self.new.front self.old.at)) }
    {
        if !has_block {
            return Ok((value, Text::new(self.alloc)));
        }
        let block = self.read_block(source)?;
        Ok((value, block))
    }

    // The block that begins here.
    fn read_block<S: Source>(&mut self, source: &mut S) -> Result<Text, InputFault>
        ensures reads { Reads S.left S.faults source.old source.new self.old.front self.new.front }
        ensures failed { FailsByCount result (S.faults source.old) (S.faults source.new) }
        ensures same { self.new.given ≡ self.old.given }
        ensures read { IfOk result (IsBlock self.new.front self.old.at self.new.at) }
        ensures stopped { IfErr result (λ fault. StopsWhere fault self.new.front (block_ends (lines (drop self.old.at self.new.front.bytes)) ≡ false)) }
    {
        let mut block = Vec::new(self.alloc);
        while let Some(b'|') = self.byte_at(self.at, source)? {
            let end = self.end_of_line(source)?;
            add_line(&mut block, &self.bytes[self.at..end])?;
            self.at = end;
        }
        Ok(Text::from(block))
    }

    // The byte at a place, or none where the input ends there.
    fn byte_at<S: Source>(&mut self, place: usize, source: &mut S) -> Result<Option<u8>, InputFault>
        requires { place ≤ length self.old.front.bytes }
        ensures reads { Reads S.left S.faults source.old source.new self.old.front self.new.front }
        ensures failed { FailsByCount result (S.faults source.old) (S.faults source.new) }
        ensures same { (self.new.at ≡ self.old.at) × (self.new.given ≡ self.old.given) }
        ensures found { IfOk result (IsByteAt self.new.front place) }
        ensures stopped { IfErr result (λ fault. StopsWhere fault self.new.front (length self.new.front.bytes ≡ place)) }
    {
        if place < self.bytes.len() {
            return Ok(Some(self.bytes[place]));
        }
        if self.read_more(source)? {
            return Ok(Some(self.bytes[place]));
        }
        Ok(None)
    }

    // Where the line ends that begins here: after its line feed, or with the input.
    fn end_of_line<S: Source>(&mut self, source: &mut S) -> Result<usize, InputFault>
        requires { self.old.at < length self.old.front.bytes }
        ensures reads { Reads S.left S.faults source.old source.new self.old.front self.new.front }
        ensures failed { FailsByCount result (S.faults source.old) (S.faults source.new) }
        ensures same { (self.new.at ≡ self.old.at) × (self.new.given ≡ self.old.given) }
        ensures found { IfOk result (IsLine self.new.front self.old.at) }
        ensures stopped { IfErr result (λ fault. StopsWhere fault self.new.front (IsOpenLine (drop self.old.at self.new.front.bytes))) }
    {
        let mut seen = self.at;
        loop {
            if let Some(end) = self.end_from(seen) {
                return Ok(end);
            }
            seen = self.bytes.len();
            if !self.read_more(source)? {
                return Ok(seen);
            }
        }
    }

    // Where the line ends that begins here, if its line feed was taken. None stands before the place.
    fn end_from(&self, seen: usize) -> Option<usize>
        requires { IsSeen self.now.front self.now.at seen }
        ensures { MatchOption result (has_end (drop self.now.at self.now.front.bytes) ≡ false) (IsLine self.now.front self.now.at) }
    {
        match line_feed(&self.bytes[seen..]) {
            Some(more) => Some(seen + more + 1),
            None => None,
        }
    }

    // Takes one byte at least, or tells that the input has ended.
    fn read_more<S: Source>(&mut self, source: &mut S) -> Result<bool, InputFault>
        ensures reads { Reads S.left S.faults source.old source.new self.old.front self.new.front }
        ensures failed { FailsByCount result (S.faults source.old) (S.faults source.new) }
        ensures same { (self.new.at ≡ self.old.at) × (self.new.given ≡ self.old.given) }
        ensures more { IfOk result (λ more. MatchBool more (length self.old.front.bytes < length self.new.front.bytes) ((self.new.front.is_ended ≡ true) × (self.new.front.bytes ≡ self.old.front.bytes))) }
        ensures stopped { IfErr result (λ fault. StopsWhere fault self.new.front (self.new.front.bytes ≡ self.old.front.bytes)) }
    {
        if self.is_ended {
            return Ok(false);
        }
        if self.is_over {
            return Err(InputFault::Limit);
        }
        self.bytes.reserve(PIECE)?;
        match source.take(&mut self.piece) {
            Taken::Failed => Err(InputFault::Source),
            Taken::End => {
                self.is_ended = true;
                Ok(false)
            }
            Taken::Bytes(count) => {
                let kept = keep(&mut self.bytes, &self.piece[..count]);
                self.is_over = kept < count;
                if kept == 0 {
                    return Err(InputFault::Limit);
                }
                Ok(true)
            }
        }
    }
}

// What a line asks for, or why it is no command.
fn parsed(alloc: Global, line: &[u8]) -> Result<Result<Command, LineFault>, InputFault>
    ensures ok { IfOk result (λ asked. asked ≡ asked_by line.now) }
    ensures err { IfErr result (λ fault. fault ≡ InputFault.Memory) }
{
    match parse_line(alloc, line) {
        Ok(command) => Ok(Ok(command)),
        Err(fault) => refused(fault),
    }
}

// A line that is no command is one that is refused; want of memory ends the input.
fn refused(fault: LineFault) -> Result<Result<Command, LineFault>, InputFault>
    ensures ok { IfOk result (λ asked. (asked ≡ Err fault) × (fault ≢ LineFault.Memory)) }
    ensures err { IfErr result (λ fault. fault ≡ InputFault.Memory) }
{
    match fault {
        LineFault::Memory => Err(InputFault::Memory),
        _ => Ok(Err(fault)),
    }
}

fn keeps_file(asked: &Result<Command, LineFault>) -> bool
    ensures { result ≡ keeps_file asked.now }
{
    matches!(asked, Ok(Command::File { .. }))
}

// Keeps as many bytes as a session still takes.
fn keep(bytes: &mut Vec<u8>, read: &[u8]) -> usize
    requires few { length bytes.old.items ≤ 8388608 }
    requires room { vec_len bytes.old + length read.now ≤ vec_capacity bytes.old }
    ensures kept { result ≡ min (length read.now) (8388608 - length bytes.old.items) }
    ensures bytes { bytes.new.items ≡ bytes.old.items ++ take result read.now }
{
    let kept = read.len().min(MOST_INPUT - bytes.len());
    match bytes.extend_from_slice(&read[..kept]) {
        Ok(()) => kept,
        Err(_) => unreachable!(),
    }
}

// Adds a line to a block.
fn add_line(block: &mut Vec<u8>, line: &[u8]) -> Result<(), AllocError>
    requires { 1 ≤ length line.now }
    ensures { OnOk result (block.new.items ≡ block.old.items ++ block_text line.now) }
{
    block.extend_from_slice(&line[1..])?;
    if !line.ends_with(b"\n") {
        block.extend_from_slice(b"\n")?;
    }
    Ok(())
}
